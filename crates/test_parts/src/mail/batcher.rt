//! Messages to a batcher.
use crate::mail::spelled::{Spelled, own, proposal, round};
use simplex_mailbox::Post;
use simplex_messages::batcher;
use simplex_messages::batcher::Message;
use simplex_types::{Feedback, Finalize, Notarize, Nullify, Participant, View, Vote};
use std::alloc::{AllocError, Global};
use test_support::number;

fn update(current: u64, finalized: u64) -> Message {
    Message::Update {
        current: View(current),
        leader: Participant(1),
        finalized: View(finalized),
        forwardable_proposal: None,
    }
}

fn vote_of(kind: &str, view: u64) -> Option<Vote> {
    match kind {
        "notarize" => Some(Vote::Notarize(Notarize {
            proposal: proposal(view),
            attestation: own(),
        })),
        "nullify" => Some(Vote::Nullify(Nullify {
            round: round(view),
            attestation: own(),
        })),
        "finalize" => Some(Vote::Finalize(Finalize {
            proposal: proposal(view),
            attestation: own(),
        })),
        _ => None,
    }
}

impl Spelled for Message {
    fn of(_alloc: Global, words: &[&str]) -> Option<Message> {
        match words {
            ["update", current, "final", finalized] => {
                Some(update(number(current)?, number(finalized)?))
            }
            [kind, view] => Some(Message::Constructed(vote_of(kind, number(view)?)?)),
            _ => None,
        }
    }

    fn text(&self, alloc: Global) -> Result<String, AllocError> {
        match self {
            Message::Update {
                current,
                finalized,
                ..
            } => format!(in alloc; "update {current} final {finalized}"),
            Message::Constructed(vote) => {
                let view = vote.round().view;
                match vote {
                    Vote::Notarize(_) => format!(in alloc; "notarize {view}"),
                    Vote::Nullify(_) => format!(in alloc; "nullify {view}"),
                    Vote::Finalize(_) => format!(in alloc; "finalize {view}"),
                }
            }
        }
    }

    fn put_into<P: Post<Message> + Drop>(self, post: P) -> Result<(P, Feedback), AllocError> {
        let mut post = batcher::Mailbox::new(post);
        let feedback = match self {
            Message::Update {
                current,
                leader,
                finalized,
                forwardable_proposal,
            } => post.update(current, leader, finalized, forwardable_proposal)?,
            Message::Constructed(vote) => post.constructed(vote)?,
        };
        Ok((post.into_post(), feedback))
    }
}
