//! The mailbox that threads share.
ghost use Rattle.std.specs.Prelude.{◌≡◌, ◌≢◌, ◌<◌, OnOk, OnErr, IfOk, IfErr};
ghost use Rattle.simplex_values.specs.declared.feedback.Feedback.TheVariants as feedback;
ghost use Rattle.simplex_shared.specs.declared.op.Op.TheVariants.{Put, Took, Shut};
ghost use Rattle.simplex_shared.specs.Calls.{StartsWith};
ghost use Rattle.simplex_shared.specs.History.{IsLegal};
ghost use Rattle.simplex_shared.specs.Passes.{GoesOn, EndsWith, IsSamePass, Refuses};

use crate::desk::Desk;
use crate::error::MailError;
use crate::lock::Lock;
use crate::op::Op;
use crate::pass::Pass;
use crate::terms::Terms;
use simplex_mailbox::Policy;
use simplex_values::{Feedback, Keep};
use std::alloc::{AllocError, Global};
use std::marker::Model;
use std::sync::Wait;

/// A mailbox for messages of threads, which take turns, and the history of their calls.
#[derive(Drop)]
pub struct RecordedMailbox<M: Policy + Keep> {
    pub(crate) terms: Terms,
    pub(crate) lock: Lock<Desk<M>, Op<M>>,
}

impl<M: Policy + Keep> Model for RecordedMailbox<M> {
    ghost use Rattle.simplex_shared.specs.Passes.{SharedMailbox};

    ghost Value = { SharedMailbox };

    ghost view = { λ m. record { table = m.lock.table.shared.table_id; terms = m.terms } };
}

impl<M: Policy + Keep> RecordedMailbox<M> {
    /// Puts a message, as a mailbox of one thread does: it is last where there is room, else the policy has it.
    /// May wait.
    pub fn enqueue<R: Wait>(
        &self,
        rt: &R,
        pass: &mut Pass<M>,
        message: M,
    ) -> Result<Feedback, MailError<M>>
        requires { pass.old.mailbox ≡ self.now }
        ensures own { IsSamePass pass.old pass.new }
        ensures ok { IfOk result
            (λ feedback. EndsWith pass.old (Put pass.old.number message feedback) pass.new.seen) }
        ensures open { IfOk result (λ answer. answer ≢ feedback.Closed) }
        ensures err { IfErr result (λ error. GoesOn pass.old pass.new.seen
            × Refuses message pass.new.seen error) }
        ensures legal { IsLegal M.handle M.is_skipped self.now.terms.capacity pass.new.seen }
    {
        let Pass { number, seen, seat } = pass;
        let mut desk = self.lock.take_turn(rt, seat);
        if desk.is_closed() {
            let front = self.lock.front(seat);
            self.lock.pass_turn(seat, desk);
            *seen = front;
            return Err(MailError::Closed { front, message });
        }
        let feedback = match desk.put(*number, message) {
            Ok(feedback) => feedback,
            Err(message) => {
                *seen = desk.len();
                self.lock.pass_turn(seat, desk);
                return Err(MailError::Memory(message));
            }
        };
        *seen = desk.len();
        self.lock.record_last(seat, desk);
        Ok(feedback)
    }

    /// Takes the first message, if there is one, as a mailbox of one thread does. For want of memory it takes none.
    /// May wait.
    pub fn recv<R: Wait>(&self, rt: &R, pass: &mut Pass<M>) -> Result<Option<M>, AllocError>
        requires { pass.old.mailbox ≡ self.now }
        ensures own { IsSamePass pass.old pass.new }
        ensures ok { IfOk result
            (λ got. EndsWith pass.old (Took pass.old.number got) pass.new.seen) }
        ensures err { OnErr result (GoesOn pass.old pass.new.seen) }
        ensures legal { IsLegal M.handle M.is_skipped self.now.terms.capacity pass.new.seen }
    {
        let Pass { number, seen, seat } = pass;
        let mut desk = self.lock.take_turn(rt, seat);
        let Ok(got) = desk.take(*number) else {
            *seen = desk.len();
            self.lock.pass_turn(seat, desk);
            return Err(AllocError);
        };
        *seen = desk.len();
        self.lock.record_last(seat, desk);
        Ok(got)
    }

    /// Closes the mailbox: it takes no message from now on, and what it holds can still be taken. May wait.
    pub fn shut<R: Wait>(&self, rt: &R, pass: &mut Pass<M>) -> Result<(), AllocError>
        requires { pass.old.mailbox ≡ self.now }
        ensures own { IsSamePass pass.old pass.new }
        ensures ok { OnOk result (EndsWith pass.old (Shut pass.old.number) pass.new.seen) }
        ensures err { OnErr result (GoesOn pass.old pass.new.seen) }
        ensures legal { IsLegal M.handle M.is_skipped self.now.terms.capacity pass.new.seen }
    {
        let Pass { number, seen, seat } = pass;
        let mut desk = self.lock.take_turn(rt, seat);
        let Ok(()) = desk.shut(*number) else {
            *seen = desk.len();
            self.lock.pass_turn(seat, desk);
            return Err(AllocError);
        };
        *seen = desk.len();
        self.lock.record_last(seat, desk);
        Ok(())
    }

    /// The first pass sees the history so far, which goes on from what both have seen.
    pub fn meet(&self, first: &mut Pass<M>, second: &mut Pass<M>)
        requires { (first.old.mailbox ≡ self.now) × (second.old.mailbox ≡ self.now) }
        ensures own { IsSamePass first.old first.new }
        ensures first { GoesOn first.old first.new.seen }
        ensures both { StartsWith first.new.seen second.old.seen }
        ensures second { second.new ≡ second.old }
        ensures legal { IsLegal M.handle M.is_skipped self.now.terms.capacity first.new.seen }
    {
        let Pass {
            seen,
            seat: mine,
            ..
        } = first;
        let Pass { seat: theirs, .. } = second;
        *seen = self.lock.hear(mine, theirs);
    }
}
