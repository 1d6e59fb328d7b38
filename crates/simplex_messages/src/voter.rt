//! What a voter takes.
use simplex_types::{Certificate, Keep, Proposal, Round, TimeoutReason};
use std::alloc::{AllocError, Global};

mod mailbox;
mod pending;
mod policy;

pub use mailbox::Mailbox;
pub use pending::Pending;

/// A message to the voter.
#[derive(Debug, PartialEq, Eq, Drop)]
pub enum Message {
    /// The leader proposed.
    Proposal { proposal: Proposal },
    /// A view is to be given up.
    Timeout { round: Round, reason: TimeoutReason },
    /// A certificate that verifies.
    Verified { certificate: Certificate },
}

impl Keep for Message {
    fn keep(&self, alloc: Global) -> Result<Message, AllocError> {
        match self {
            Message::Proposal { proposal } => Ok(Message::Proposal {
                proposal: *proposal,
            }),
            Message::Timeout { round, reason } => Ok(Message::Timeout {
                round: *round,
                reason: *reason,
            }),
            Message::Verified { certificate } => Ok(Message::Verified {
                certificate: certificate.keep(alloc)?,
            }),
        }
    }
}

/// What a step of the voter takes.
#[derive(Debug, PartialEq, Eq, Drop)]
pub enum VoterInput {
    /// The next message of its mailbox.
    Mail(Message),
    /// The deadline, where the clock has reached it.
    Timer,
    /// The answer of the pending proposal request, or a held payload whose parent is certified.
    Propose,
    /// The answer of the open Verify.
    Verify,
    /// The first answer of an open Certify.
    Certify,
}
