//! What becomes of a fetcher's message where the handler's mailbox has no room, and where its requester left.
ghost use Rattle.simplex_messages.specs.Policies.{has_left, handler_leave, handler_handled};

use super::{HandlerMessage, HandlerPending};
use simplex_mailbox::{Policy, Requested};
use std::alloc::AllocError;

impl Requested for HandlerMessage {
    ghost is_skipped = { has_left };

    ghost leave = { handler_leave };

    fn is_skipped(&self) -> bool {
        match self {
            HandlerMessage::Deliver { waiting, .. } => !*waiting,
            HandlerMessage::Produce { .. } => false,
        }
    }

    fn leave(&mut self, id: u64) {
        if let HandlerMessage::Deliver {
            id: requester,
            waiting,
            ..
        } = self
            && *requester == id
        {
            *waiting = false;
        }
    }
}

#[tactic(auto, unfolding(crate::specs::Policies::handler_handled))]
impl Policy for HandlerMessage {
    type Overflow = HandlerPending;

    ghost handle = { handler_handled };

    fn handle(pending: &mut HandlerPending, message: HandlerMessage) -> Result<(), AllocError> {
        match message {
            HandlerMessage::Deliver { waiting: true, .. } => pending.queue.push(message),
            _ => Ok(()),
        }
    }
}
