//! Messages that pass through a voter's mailbox.
use simplex_mailbox::Mailbox;
use simplex_messages::voter::Message;
use simplex_types::{Digest, Epoch, Proposal, Round, View};
use std::alloc::{AllocError, Global};

/// How many messages are ready.
const CAPACITY: u32 = 16;

/// The proposal of a view.
fn proposed(view: u64) -> Message {
    Message::Proposal {
        proposal: Proposal {
            round: Round {
                epoch: Epoch(0),
                view: View(view),
            },
            parent: View(0),
            payload: Digest([17; 32]),
        },
    }
}

/// The view of a proposal.
fn view_of(message: &Message) -> u64 {
    match message {
        Message::Proposal { proposal } => proposal.round.view.0,
        _ => 0,
    }
}

/// A mailbox that holds the proposals of so many views.
fn filled(alloc: Global, views: u32) -> Result<Mailbox<Message>, AllocError> {
    let mut mailbox = Mailbox::new(alloc, CAPACITY)?;
    for view in 0..views {
        let _told = mailbox.enqueue(proposed(u64::from(view)))?;
    }
    Ok(mailbox)
}

/// One message comes and one goes: the view of the one that goes.
fn turn(mailbox: &mut Mailbox<Message>, view: u64) -> Result<u64, AllocError> {
    let _told = mailbox.enqueue(proposed(view))?;
    match mailbox.recv() {
        Some(message) => Ok(view_of(&message)),
        None => Ok(0),
    }
}

fn turns(mailbox: &mut Mailbox<Message>, held: u32, times: u32) -> Result<u64, AllocError> {
    let mut views = 0u64;
    for at in 0..times {
        let view = turn(mailbox, u64::from(held) + u64::from(at))?;
        views = views.saturating_add(view);
    }
    Ok(views)
}

/// The sum of the views of those that went, where so many wait before.
pub fn pass(alloc: Global, held: u32, times: u32) -> Result<u64, AllocError> {
    let mut mailbox = filled(alloc, held)?;
    turns(&mut mailbox, held, times)
}
