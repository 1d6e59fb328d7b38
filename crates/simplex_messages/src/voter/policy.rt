//! What becomes of a message to a voter whose mailbox has no room.
ghost use Rattle.std.specs.Prelude.{◌≡◌, false};
ghost use Rattle.simplex_messages.specs.Policies.{voter_view, is_final_for_voter, outlasts_for_voter, stands_for_voter, changed_for_voter, outranks, voter_handled};

use super::{Message, Pending};
use crate::alike::are_alike;
use crate::by_view::{ByView, handle_by_view};
use simplex_mailbox::{Policy, Requested};
use simplex_types::{Certificate, TimeoutReason, View};
use std::alloc::AllocError;

impl Requested for Message {
    ghost is_skipped = { λ _. false };

    ghost leave = { λ _ message. message };

    fn is_skipped(&self) -> bool {
        false
    }

    fn leave(&mut self, _id: u64) {}
}

#[tactic(auto, unfolding(crate::specs::Policies::voter_handled))]
impl Policy for Message {
    type Overflow = Pending;

    ghost handle = { voter_handled };

    fn handle(pending: &mut Pending, message: Message) -> Result<(), AllocError> {
        handle_by_view(&mut pending.queue, message)
    }
}

impl ByView for Message {
    ghost view_of = { voter_view };

    ghost is_final = { is_final_for_voter };

    ghost outlasts = { outlasts_for_voter };

    ghost stands_for = { stands_for_voter };

    ghost changed_by = { changed_for_voter };

    fn view(&self) -> View {
        match self {
            Message::Proposal { proposal } => proposal.view(),
            Message::Timeout { round, .. } => round.view,
            Message::Verified { certificate } => certificate.view(),
        }
    }

    fn is_final(&self) -> bool {
        match self {
            Message::Verified {
                certificate: Certificate::Finalization(_),
            } => true,
            _ => false,
        }
    }

    fn outlasts(&self, last: &Message) -> bool {
        self.view() > last.view()
    }

    fn stands_for(&self, message: &Message) -> bool {
        match (self, message) {
            (Message::Proposal { proposal: p }, Message::Proposal { proposal: q }) => {
                p.view() == q.view()
            }
            (Message::Timeout { round: r, .. }, Message::Timeout { round: s, .. }) => {
                r.view == s.view
            }
            (Message::Verified { certificate: c }, Message::Verified { certificate: d }) => {
                are_alike(c, d)
            }
            _ => false,
        }
    }

    fn change_by(&mut self, message: &Message) {
        if let Message::Timeout { round, reason } = message
            && let Message::Timeout {
                round: old,
                reason: other,
            } = self
            && old.view == round.view
            && outranks(*reason, *other)
        {
            *old = *round;
            *other = *reason;
        }
    }
}

/// Whether the reason says more than the other: the leader's nullify, than that the leader seems to be gone.
fn outranks(reason: TimeoutReason, other: TimeoutReason) -> bool
    ensures { result ≡ outranks reason other }
{
    match (reason, other) {
        (TimeoutReason::LeaderNullify, TimeoutReason::Inactivity) => true,
        _ => false,
    }
}
