//! What waits for room in the mailbox of a resolver's handler.
ghost use Rattle.simplex_mailbox.specs.Pending.{waits_in};

use super::HandlerMessage;
use simplex_mailbox::Overflow;
use std::alloc::Global;

/// Responses in order of arrival. Nothing has the place.
#[derive(Drop)]
pub struct HandlerPending {
    pub(super) queue: simplex_mailbox::Pending<HandlerMessage>,
}

impl Overflow<HandlerMessage> for HandlerPending {
    ghost waiting = { λ pending. waits_in pending.queue };

    fn new(alloc: Global) -> HandlerPending {
        HandlerPending {
            queue: Overflow::new(alloc),
        }
    }

    fn is_empty(&self) -> bool {
        self.queue.is_empty()
    }

    fn pop(&mut self) -> Option<HandlerMessage> {
        self.queue.pop()
    }

    fn leave(&mut self, id: u64) {
        self.queue.leave(id);
    }
}
