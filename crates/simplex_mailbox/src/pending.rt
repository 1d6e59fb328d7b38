//! The overflow of a policy: one place, and the rest in order of arrival.
ghost use Rattle.std.specs.Prelude.{◌≡◌, OnOk, OnErr};
ghost use Rattle.simplex_mailbox.specs.Waiting.{put_last, only_rest, front, in_turn, undrained};
ghost use Rattle.simplex_mailbox.specs.Pending.{waits_in};

use crate::overflow::Overflow;
use crate::requested::{Requested, leave_each};
use std::alloc::{AllocError, Global};
use std::collections::VecDeque;

/// A place for one message that goes before all others, and the rest in order of arrival. [pending-by-kind]
#[derive(Drop)]
pub struct Pending<M> {
    /// The message that goes first.
    pub place: Option<M>,
    /// The others, in order of arrival.
    pub rest: VecDeque<M>,
}

impl<M: Drop> Pending<M> {
    /// Puts the message behind all others, or leaves all as it was for want of memory.
    pub fn push(&mut self, message: M) -> Result<(), AllocError>
        ensures ok { OnOk result (waits_in self.new ≡ put_last (waits_in self.old) message) }
        ensures err { OnErr result (waits_in self.new ≡ waits_in self.old) }
    {
        self.rest.push_back(message)?;
        Ok(())
    }
}

impl<M: Requested> Overflow<M> for Pending<M> {
    ghost waiting = { waits_in };

    fn new(alloc: Global) -> Pending<M> {
        Pending {
            place: None,
            rest: VecDeque::new(alloc),
        }
    }

    fn is_empty(&self) -> bool {
        self.place.is_none() && self.rest.is_empty()
    }

    fn pop(&mut self) -> Option<M> {
        match self.place.take() {
            Some(first) => Some(first),
            None => next_kept(&mut self.rest),
        }
    }

    fn leave(&mut self, id: u64) {
        if let Some(first) = &mut self.place {
            first.leave(id);
        }
        leave_each(self.rest.make_contiguous(), id);
    }
}

/// Takes the first message that is not skipped. The skipped ones before it are dropped.
fn next_kept<M: Requested>(rest: &mut VecDeque<M>) -> Option<M>
    ensures message { result ≡ front (in_turn M.is_skipped (only_rest rest.old.items)) }
    ensures rest { only_rest rest.new.items ≡ undrained M.is_skipped 1 (only_rest rest.old.items) }
{
    while let Some(message) = rest.pop_front() {
        if !message.is_skipped() {
            return Some(message);
        }
    }
    None
}
