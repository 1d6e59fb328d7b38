//! What becomes of a message to a resolver whose mailbox has no room.
ghost use Rattle.std.specs.Prelude.{◌≡◌, false};
ghost use Rattle.simplex_messages.specs.Policies.{resolver_view, is_final_for_resolver, outlasts_for_resolver, stands_for_resolver, changed_for_resolver, is_replayed, resolver_handled};

use super::{MailboxMessage, Pending};
use crate::alike::{are_alike, are_same_ask};
use crate::by_view::{ByView, handle_by_view};
use simplex_mailbox::{Policy, Requested};
use simplex_types::{Certificate, View};
use std::alloc::AllocError;

impl Requested for MailboxMessage {
    ghost is_skipped = { λ _. false };

    ghost leave = { λ _ message. message };

    fn is_skipped(&self) -> bool {
        false
    }

    fn leave(&mut self, _id: u64) {}
}

#[tactic(auto, unfolding(crate::specs::Policies::resolver_handled))]
impl Policy for MailboxMessage {
    type Overflow = Pending;

    ghost handle = { resolver_handled };

    fn handle(pending: &mut Pending, message: MailboxMessage) -> Result<(), AllocError> {
        if message.is_replayed() {
            return pending.queue.push(message);
        }
        handle_by_view(&mut pending.queue, message)
    }
}

impl MailboxMessage {
    /// Whether it says that the journal was read.
    fn is_replayed(&self) -> bool
        ensures { result ≡ is_replayed self.now }
    {
        match self {
            MailboxMessage::Replayed => true,
            _ => false,
        }
    }
}

impl ByView for MailboxMessage {
    ghost view_of = { resolver_view };

    ghost is_final = { is_final_for_resolver };

    ghost outlasts = { outlasts_for_resolver };

    ghost stands_for = { stands_for_resolver };

    ghost changed_by = { changed_for_resolver };

    fn view(&self) -> View {
        match self {
            MailboxMessage::Updated { certificate } => certificate.view(),
            MailboxMessage::Certified { notarization, .. } => notarization.view(),
            MailboxMessage::Resolve { view, .. } => *view,
            MailboxMessage::Replayed => View(0),
        }
    }

    fn is_final(&self) -> bool {
        match self {
            MailboxMessage::Updated {
                certificate: Certificate::Finalization(_),
            } => true,
            _ => false,
        }
    }

    fn outlasts(&self, last: &MailboxMessage) -> bool {
        self.is_replayed() || self.view() > last.view()
    }

    fn stands_for(&self, message: &MailboxMessage) -> bool {
        match (self, message) {
            (
                MailboxMessage::Updated { certificate: c },
                MailboxMessage::Updated { certificate: d },
            ) => are_alike(c, d),
            (
                MailboxMessage::Certified {
                    notarization: n,
                    ..
                },
                MailboxMessage::Certified {
                    notarization: m,
                    ..
                },
            ) => n.view() == m.view(),
            (
                MailboxMessage::Resolve {
                    proposal: p,
                    view: v,
                    kind: k,
                    ..
                },
                MailboxMessage::Resolve {
                    proposal: q,
                    view: w,
                    kind: l,
                    ..
                },
            ) => p == q && v == w && are_same_ask(*k, *l),
            _ => false,
        }
    }

    fn change_by(&mut self, message: &MailboxMessage) {
        if let MailboxMessage::Resolve { target: None, .. } = message
            && self.stands_for(message)
            && let MailboxMessage::Resolve { target, .. } = self
        {
            *target = None;
        }
    }
}
