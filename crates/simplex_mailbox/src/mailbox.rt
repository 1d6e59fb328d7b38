//! A bounded mailbox for one thread.
ghost use Rattle.std.specs.Prelude.{◌≡◌, ◌-◌, ◌<◌, ◌≤◌, ◌↔◌, ◌++◌, length, IsTrue, IsNone, IfOk, OnOk, OnErr};
ghost use Rattle.std.specs.VecDeque.{deque_capacity};
ghost use Rattle.simplex_values.specs.declared.feedback.Feedback.TheVariants as feedback;
ghost use Rattle.simplex_mailbox.specs.Waiting.{is_clear, drained, undrained};
ghost use Rattle.simplex_mailbox.specs.Mail.{no_mail, holds_nothing, feedback_of, enqueued, received, after_recv, after_close, after_leave};

use crate::overflow::Overflow;
use crate::policy::Policy;
use crate::post::Post;
use crate::requested::leave_each;
use simplex_values::{Feedback, Keep};
use std::alloc::{AllocError, Global};
use std::collections::VecDeque;
use std::marker::Model;

/// Messages in the order in which they are taken, at most `capacity` of them ready.
#[derive(Drop)]
pub struct Mailbox<M: Policy> {
    capacity: u32,
    ready: VecDeque<M>,
    overflow: M::Overflow,
    is_closed: bool,
}

impl<M: Policy> Model for Mailbox<M> {
    ghost use Rattle.std.specs.VecDeque.{deque_capacity};
    ghost use Rattle.simplex_mailbox.specs.Mail.{Mail, Keeps};

    ghost Value = { Mail M };

    ghost view = { λ m. record {
      capacity = m.capacity;
      ready = m.ready.items;
      waiting = M.Overflow.waiting m.overflow;
      closed = m.is_closed;
    } };

    ghost invariant = { λ m. Keeps (deque_capacity m.ready) m.capacity m.ready.items (M.Overflow.waiting m.overflow) };
}

impl<M: Policy> Mailbox<M> {
    /// An open mailbox that holds nothing, with the memory for `capacity` ready messages.
    pub fn new(alloc: Global, capacity: u32) -> Result<Mailbox<M>, AllocError>
        requires { 0 < capacity }
        ensures { IfOk result (λ mailbox. mailbox ≡ no_mail capacity) }
    {
        Ok(Mailbox {
            capacity,
            ready: VecDeque::with_capacity(alloc, capacity as usize)?,
            overflow: M::Overflow::new(alloc),
            is_closed: false,
        })
    }

    /// Puts the message last in the ready queue, or gives it to the policy where there is no room.
    /// A closed mailbox drops it. Only a message for which there is no room may want memory.
    #[tactic(auto, unfolding(crate::specs::Mail::feedback_of, crate::specs::Mail::enqueued))]
    pub fn enqueue(&mut self, message: M) -> Result<Feedback, AllocError>
        ensures feedback { IfOk result (λ feedback. feedback ≡ feedback_of self.old) }
        ensures ok { OnOk result (self.new ≡ enqueued M.handle self.old message) }
        ensures err { OnErr result (self.new ≡ self.old) }
        ensures memory { OnErr result (feedback_of self.old ≡ feedback.Backoff) }
    {
        if self.is_closed {
            return Ok(Feedback::Closed);
        }
        if self.overflow.is_empty() && self.ready.len() < self.capacity as usize {
            self.ready.push_back_reserved(message);
            return Ok(Feedback::Ok);
        }
        M::handle(&mut self.overflow, message)?;
        Ok(Feedback::Backoff)
    }

    /// Takes the first ready message, and makes ready what waits while there is room. Takes no memory.
    #[tactic(auto, unfolding(crate::specs::Mail::taken_from, crate::specs::Mail::after_recv))]
    pub fn recv(&mut self) -> Option<M>
        ensures message { result ≡ received self.old }
        ensures after { self.new ≡ after_recv M.is_skipped self.old }
        ensures none { IsNone result ↔ IsTrue (holds_nothing self.old) }
    {
        let message = self.ready.pop_front()?;
        refill(&mut self.ready, &mut self.overflow, self.capacity);
        Some(message)
    }

    /// Takes no message from now on. What is held can still be taken.
    pub fn close(&mut self)
        ensures { self.new ≡ after_close self.old }
    {
        self.is_closed = true;
    }

    /// Whether it was closed.
    pub fn is_closed(&self) -> bool
        ensures { result ≡ self.now.closed }
    {
        self.is_closed
    }

    /// How many messages are ready at most.
    pub fn capacity(&self) -> u32
        ensures { result ≡ self.now.capacity }
    {
        self.capacity
    }

    /// Whether nothing is held.
    pub fn is_empty(&self) -> bool
        ensures { result ≡ holds_nothing self.now }
    {
        self.ready.is_empty() && self.overflow.is_empty()
    }

    /// Tells each message that the requester of this number left.
    #[tactic(auto, unfolding(crate::specs::Mail::after_leave))]
    pub fn leave(&mut self, id: u64)
        ensures { self.new ≡ after_leave M.leave id self.old }
    {
        leave_each(self.ready.make_contiguous(), id);
        self.overflow.leave(id);
    }
}

impl<M: Policy + Keep> Mailbox<M> {
    /// A copy of the message that is taken next.
    pub fn copy_front(&self, alloc: Global) -> Result<Option<M>, AllocError>
        ensures { IfOk result (λ copy. copy ≡ received self.now) }
    {
        match self.ready.front() {
            None => Ok(None),
            Some(first) => Ok(Some(first.keep(alloc)?)),
        }
    }
}

impl<M: Policy> Post<M> for Mailbox<M> {
    ghost puts = { λ before message answer after. (answer ≡ feedback_of before)
        × (after ≡ enqueued M.handle before message) };

    fn enqueue(&mut self, message: M) -> Result<Feedback, AllocError> {
        Mailbox::enqueue(self, message)
    }
}

/// Makes ready what waits, while fewer than `capacity` are ready.
fn refill<M: Policy>(ready: &mut VecDeque<M>, overflow: &mut M::Overflow, capacity: u32)
    requires { capacity ≤ deque_capacity ready.old }
    ensures ready { ready.new.items ≡ ready.old.items
        ++ drained M.is_skipped (capacity - length ready.old.items)
        (M.Overflow.waiting overflow.old) }
    ensures overflow { M.Overflow.waiting overflow.new
        ≡ undrained M.is_skipped (capacity - length ready.old.items)
        (M.Overflow.waiting overflow.old) }
    ensures memory { deque_capacity ready.new ≡ deque_capacity ready.old }
    ensures within { length ready.old.items ≤ capacity → length ready.new.items ≤ capacity }
    ensures full { length ready.new.items < capacity
        → IsTrue (is_clear (M.Overflow.waiting overflow.new)) }
{
    while ready.len() < capacity as usize {
        match overflow.pop() {
            Some(message) => ready.push_back_reserved(message),
            None => return,
        }
    }
}
