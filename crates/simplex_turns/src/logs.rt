//! The records of the mailboxes, once all calls are made.
ghost use Rattle.std.specs.Prelude.{◌≡◌, IfOk};
ghost use Rattle.simplex_shared.specs.Calls.{calls_by};
ghost use Rattle.simplex_shared.specs.History.{caller_of};
ghost use Rattle.simplex_shared.specs.Passes.{calls_of};
ghost use Rattle.simplex_turns.specs.Handing.{IsRecord};

use simplex_mailbox::Policy;
use simplex_messages::{batcher, resolver, voter};
use simplex_shared::{Log, Pass, RecordedMailbox};
use simplex_types::Keep;
use std::alloc::{AllocError, Global};
use std::sync::Wait;

/// The calls on each mailbox, in the order in which they took effect. Pass 0 is that of the actor that takes; pass 1 of the
/// batcher's and of the resolver's mailbox is the voter's; passes 1 and 2 of the voter's are the batcher's and the resolver's.
#[derive(Drop)]
pub struct Logs {
    /// Of the batcher's mailbox.
    pub batcher: Log<batcher::Message>,
    /// Of the voter's.
    pub voter: Log<voter::Message>,
    /// Of the resolver's.
    pub resolver: Log<resolver::MailboxMessage>,
}

/// The record of a mailbox with two passes. May wait.
pub(crate) fn log_of_two<M: Policy + Keep, R: Wait>(
    rt: &R,
    alloc: Global,
    mailbox: RecordedMailbox<M>,
    first: Pass<M>,
    second: Pass<M>,
) -> Result<Log<M>, AllocError>
    requires own { (first.mailbox ≡ mailbox) × (second.mailbox ≡ mailbox) }
    ensures record_is { IfOk result
        (λ log. IsRecord M.handle M.is_skipped mailbox.terms.capacity mailbox.terms.passes log) }
    ensures first { IfOk result (λ log. calls_by caller_of first.number log ≡ calls_of first) }
    ensures second { IfOk result (λ log. calls_by caller_of second.number log ≡ calls_of second) }
{
    let mut passes = Vec::new(alloc);
    passes.push(first)?;
    passes.push(second)?;
    Ok(mailbox.finish(rt, passes))
}

/// The record of a mailbox with three passes. May wait.
pub(crate) fn log_of_three<M: Policy + Keep, R: Wait>(
    rt: &R,
    alloc: Global,
    mailbox: RecordedMailbox<M>,
    first: Pass<M>,
    second: Pass<M>,
    third: Pass<M>,
) -> Result<Log<M>, AllocError>
    requires own { (first.mailbox ≡ mailbox) × (second.mailbox ≡ mailbox)
        × (third.mailbox ≡ mailbox) }
    ensures record_is { IfOk result
        (λ log. IsRecord M.handle M.is_skipped mailbox.terms.capacity mailbox.terms.passes log) }
    ensures first { IfOk result (λ log. calls_by caller_of first.number log ≡ calls_of first) }
    ensures second { IfOk result (λ log. calls_by caller_of second.number log ≡ calls_of second) }
    ensures third { IfOk result (λ log. calls_by caller_of third.number log ≡ calls_of third) }
{
    let mut passes = Vec::new(alloc);
    passes.push(first)?;
    passes.push(second)?;
    passes.push(third)?;
    Ok(mailbox.finish(rt, passes))
}
