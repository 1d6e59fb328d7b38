//! The mail between actors.
ghost use Rattle.std.specs.Prelude.{◌≡◌, ◌<◌, IfOk};
ghost use Rattle.simplex_mailbox.specs.Mail.{no_mail};

use simplex_mailbox::Mailbox;
use simplex_messages::{batcher, resolver, voter};
use std::alloc::{AllocError, Global};

/// The mailbox of each actor, with what it was handed and did not take yet.
#[derive(Drop)]
pub struct Boxes {
    /// What waits for the batcher.
    pub batcher: Mailbox<batcher::Message>,
    /// What waits for the voter.
    pub voter: Mailbox<voter::Message>,
    /// What waits for the resolver.
    pub resolver: Mailbox<resolver::MailboxMessage>,
}

impl Boxes {
    /// Empty mailboxes with room for so many ready messages each.
    pub(crate) fn new(alloc: Global, capacity: u32) -> Result<Boxes, AllocError>
        requires { 0 < capacity }
        ensures { IfOk result (λ boxes. boxes ≡ record {
          batcher = no_mail capacity;
          voter = no_mail capacity;
          resolver = no_mail capacity;
        }) }
    {
        Ok(Boxes {
            batcher: Mailbox::new(alloc, capacity)?,
            voter: Mailbox::new(alloc, capacity)?,
            resolver: Mailbox::new(alloc, capacity)?,
        })
    }
}
