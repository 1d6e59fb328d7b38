//! What a batcher takes.
use simplex_types::{Bytes, Keep, Participant, Proposal, View, Vote};
use std::alloc::{AllocError, Global};

mod mailbox;
mod pending;
mod policy;

pub use mailbox::Mailbox;
pub use pending::Pending;

/// A message of the voter to the batcher.
#[derive(Debug, PartialEq, Eq, Drop)]
pub enum Message {
    /// The voter is in a view now.
    Update {
        current: View,
        leader: Participant,
        finalized: View,
        /// The proposal of the view before, where it is worth forwarding.
        forwardable_proposal: Option<Proposal>,
    },
    /// The voter made a vote.
    Constructed(Vote),
}

impl Keep for Message {
    fn keep(&self, _alloc: Global) -> Result<Message, AllocError> {
        match self {
            Message::Update {
                current,
                leader,
                finalized,
                forwardable_proposal,
            } => Ok(Message::Update {
                current: *current,
                leader: *leader,
                finalized: *finalized,
                forwardable_proposal: *forwardable_proposal,
            }),
            Message::Constructed(vote) => Ok(Message::Constructed(*vote)),
        }
    }
}

/// What a step of the batcher takes.
#[derive(Debug, PartialEq, Eq, Drop)]
pub enum BatcherInput {
    /// The next message of its mailbox.
    Mail(Message),
    /// A packet of the vote channel.
    Vote { sender: Participant, bytes: Bytes },
    /// A packet of the certificate channel.
    Certificate { sender: Participant, bytes: Bytes },
}
