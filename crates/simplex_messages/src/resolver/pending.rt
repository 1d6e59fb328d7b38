//! What waits for room in a resolver's mailbox.
ghost use Rattle.simplex_mailbox.specs.Pending.{waits_in};

use super::MailboxMessage;
use simplex_mailbox::Overflow;
use std::alloc::Global;

/// A finalization in the place, and the other messages in order of arrival.
#[derive(Drop)]
pub struct Pending {
    pub(super) queue: simplex_mailbox::Pending<MailboxMessage>,
}

impl Overflow<MailboxMessage> for Pending {
    ghost waiting = { λ pending. waits_in pending.queue };

    fn new(alloc: Global) -> Pending {
        Pending {
            queue: Overflow::new(alloc),
        }
    }

    fn is_empty(&self) -> bool {
        self.queue.is_empty()
    }

    fn pop(&mut self) -> Option<MailboxMessage> {
        self.queue.pop()
    }

    fn leave(&mut self, id: u64) {
        self.queue.leave(id);
    }
}
