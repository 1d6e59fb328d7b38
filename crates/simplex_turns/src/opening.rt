//! Mailboxes of one thread become such as threads share.
ghost use Rattle.std.specs.Prelude.{◌≡◌, ◌<◌, [], IfOk};
ghost use Rattle.simplex_shared.specs.Passes.{calls_of};
ghost use Rattle.simplex_turns.specs.Handing.{Filled};

use crate::handing::{drain, put_all};
use simplex_mailbox::{Mailbox, Policy};
use simplex_shared::{Pass, RecordedMailbox};
use simplex_types::Keep;
use std::alloc::{AllocError, Global};
use std::sync::Wait;

/// A shared mailbox that holds what this one does, put by its first pass, and its two passes. May wait.
pub fn open_for_two<M: Policy + Keep, R: Wait>(
    rt: &R,
    alloc: Global,
    mailbox: Mailbox<M>,
) -> Result<(RecordedMailbox<M>, Pass<M>, Pass<M>), AllocError>
    ensures terms { IfOk result (λ made. made.0.terms
        ≡ record { capacity = mailbox.capacity; passes = 2 }) }
    ensures own { IfOk result (λ made. (made.1.mailbox ≡ made.0) × (made.2.mailbox ≡ made.0)) }
    ensures numbers { IfOk result (λ made. (made.1.number ≡ 0) × (made.2.number ≡ 1)) }
    ensures filled { IfOk result (λ made. Filled M.is_skipped mailbox (calls_of made.1)) }
    ensures unused { IfOk result (λ made. calls_of made.2 ≡ []) }
{
    let (shared, mut passes) = RecordedMailbox::new(alloc, mailbox.capacity(), 2)?;
    let Some(second) = passes.pop() else {
        unreachable!();
    };
    let Some(mut first) = passes.pop() else {
        unreachable!();
    };
    let messages = drain(alloc, mailbox)?;
    put_all(rt, &shared, &mut first, messages)?;
    Ok((shared, first, second))
}

/// The same with three passes. May wait.
pub fn open_for_three<M: Policy + Keep, R: Wait>(
    rt: &R,
    alloc: Global,
    mailbox: Mailbox<M>,
) -> Result<(RecordedMailbox<M>, Pass<M>, Pass<M>, Pass<M>), AllocError>
    ensures terms { IfOk result (λ made. made.0.terms
        ≡ record { capacity = mailbox.capacity; passes = 3 }) }
    ensures own { IfOk result (λ made. (made.1.mailbox ≡ made.0) × (made.2.mailbox ≡ made.0)
        × (made.3.mailbox ≡ made.0)) }
    ensures numbers { IfOk result (λ made. (made.1.number ≡ 0) × (made.2.number ≡ 1)
        × (made.3.number ≡ 2)) }
    ensures filled { IfOk result (λ made. Filled M.is_skipped mailbox (calls_of made.1)) }
    ensures unused { IfOk result (λ made. (calls_of made.2 ≡ []) × (calls_of made.3 ≡ [])) }
{
    let (shared, mut passes) = RecordedMailbox::new(alloc, mailbox.capacity(), 3)?;
    let Some(third) = passes.pop() else {
        unreachable!();
    };
    let Some(second) = passes.pop() else {
        unreachable!();
    };
    let Some(mut first) = passes.pop() else {
        unreachable!();
    };
    let messages = drain(alloc, mailbox)?;
    put_all(rt, &shared, &mut first, messages)?;
    Ok((shared, first, second, third))
}
