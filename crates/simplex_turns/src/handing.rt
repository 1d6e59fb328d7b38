//! Messages go from one mailbox into another.
ghost use Rattle.std.specs.Prelude.{◌≡◌, IfOk, OnOk};
ghost use Rattle.simplex_shared.specs.Passes.{IsSamePass, calls_of};
ghost use Rattle.simplex_turns.specs.Handing.{Drains, PutsBehind};

use simplex_mailbox::{Mailbox, Policy};
use simplex_shared::{Pass, RecordedMailbox};
use simplex_types::Keep;
use std::alloc::{AllocError, Global};
use std::collections::VecDeque;
use std::sync::Wait;

/// All messages of a mailbox of one thread, in the order in which they are taken.
pub fn drain<M: Policy>(alloc: Global, mut mailbox: Mailbox<M>) -> Result<VecDeque<M>, AllocError>
    ensures { IfOk result (λ messages. Drains M.is_skipped mailbox messages.items) }
{
    let mut messages = VecDeque::new(alloc);
    while let Some(message) = mailbox.recv() {
        messages.push_back(message)?;
    }
    Ok(messages)
}

/// Puts the messages into the mailbox that threads share, in order. May wait.
pub fn put_all<M: Policy + Keep, R: Wait>(
    rt: &R,
    mailbox: &RecordedMailbox<M>,
    pass: &mut Pass<M>,
    mut messages: VecDeque<M>,
) -> Result<(), AllocError>
    requires { pass.old.mailbox ≡ mailbox.now }
    ensures own { IsSamePass pass.old pass.new }
    ensures put { OnOk result (PutsBehind messages.items (calls_of pass.old) (calls_of pass.new)) }
{
    while let Some(message) = messages.pop_front() {
        // Nobody shuts these mailboxes.
        let Ok(_) = mailbox.enqueue(rt, pass, message) else {
            return Err(AllocError);
        };
    }
    Ok(())
}
