//! Messages to a voter.
use crate::mail::spelled::{Spelled, certificate_text, proposal, round};
use simplex_mailbox::Post;
use simplex_messages::voter;
use simplex_messages::voter::Message;
use simplex_types::{
    Certificate, Feedback, Finalization, Notarization, Nullification, Signatures, TimeoutReason,
};
use std::alloc::{AllocError, Global};
use test_support::number;

fn timeout(view: u64, reason: TimeoutReason) -> Message {
    Message::Timeout {
        round: round(view),
        reason,
    }
}

fn verified(certificate: Certificate) -> Message {
    Message::Verified { certificate }
}

/// A certificate of the view that nobody signed, if the word names one.
pub(super) fn certificate_of(alloc: Global, kind: &str, view: u64) -> Option<Certificate> {
    let certificate = Signatures::new(Vec::new(alloc));
    match kind {
        "notarization" => Some(Certificate::Notarization(Notarization {
            proposal: proposal(view),
            certificate,
        })),
        "nullification" => Some(Certificate::Nullification(Nullification {
            round: round(view),
            certificate,
        })),
        "finalization" => Some(Certificate::Finalization(Finalization {
            proposal: proposal(view),
            certificate,
        })),
        _ => None,
    }
}

impl Spelled for Message {
    fn of(alloc: Global, words: &[&str]) -> Option<Message> {
        let [kind, view] = words else {
            return None;
        };
        let view = number(view)?;
        match *kind {
            "proposal" => Some(Message::Proposal {
                proposal: proposal(view),
            }),
            "leader-timeout" => Some(timeout(view, TimeoutReason::LeaderTimeout)),
            "inactivity" => Some(timeout(view, TimeoutReason::Inactivity)),
            "leader-nullify" => Some(timeout(view, TimeoutReason::LeaderNullify)),
            kind => Some(verified(certificate_of(alloc, kind, view)?)),
        }
    }

    fn text(&self, alloc: Global) -> Result<String, AllocError> {
        match self {
            Message::Proposal { proposal } => {
                let view = proposal.round.view;
                format!(in alloc; "proposal {view}")
            }
            Message::Timeout { round, reason } => {
                let view = round.view;
                match reason {
                    TimeoutReason::LeaderTimeout => format!(in alloc; "leader-timeout {view}"),
                    TimeoutReason::Inactivity => format!(in alloc; "inactivity {view}"),
                    TimeoutReason::LeaderNullify => format!(in alloc; "leader-nullify {view}"),
                    _ => format!(in alloc; "{reason:?} {view}"),
                }
            }
            Message::Verified { certificate } => certificate_text(alloc, certificate),
        }
    }

    fn put_into<P: Post<Message> + Drop>(self, post: P) -> Result<(P, Feedback), AllocError> {
        let mut post = voter::Mailbox::new(post);
        let feedback = match self {
            Message::Proposal { proposal } => post.proposal(proposal)?,
            Message::Timeout { round, reason } => post.timeout(round, reason)?,
            Message::Verified { certificate } => post.recovered(certificate)?,
        };
        Ok((post.into_post(), feedback))
    }
}
