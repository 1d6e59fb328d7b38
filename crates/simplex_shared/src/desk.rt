//! What lies under the lock: a mailbox, and the history of its calls.
ghost use Rattle.std.specs.Prelude.{◌≡◌, ◌≢◌, ◌<◌, ◌∷◌, ◌++◌, [], false, length, OnOk, OnErr, IfOk, IfErr};
ghost use Rattle.simplex_values.specs.declared.feedback.Feedback.TheVariants as feedback;
ghost use Rattle.simplex_mailbox.specs.Mail.{no_mail};
ghost use Rattle.simplex_shared.specs.declared.op.Op.TheVariants.{Put, Took, Shut};
ghost use Rattle.simplex_shared.specs.History.{is_shut, IsLegal};

use crate::logged::Logged;
use crate::op::Op;
use simplex_mailbox::{Mailbox, Policy};
use simplex_values::{Feedback, Keep};
use std::alloc::{AllocError, Global};
use std::marker::Model;

/// A mailbox for one thread, and the calls that were made on it.
#[derive(Drop)]
pub struct Desk<M: Policy> {
    alloc: Global,
    mailbox: Mailbox<M>,
    log: Vec<Op<M>>,
}

impl<M: Policy> Model for Desk<M> {
    ghost use Rattle.simplex_shared.specs.Desk.{Recorded};
    ghost use Rattle.simplex_shared.specs.History.{Replays};

    ghost Value = { Recorded M };

    ghost view = { λ d. record { mail = d.mailbox; log = d.log.items } };

    ghost invariant = { λ d. Replays M.handle M.is_skipped d.mailbox.capacity d.log.items d.mailbox };
}

impl<M: Policy> Logged<Op<M>> for Desk<M> {
    ghost use Rattle.simplex_shared.specs.History.{caller_of, IsLegal};

    ghost log = { λ d. d.log };

    ghost capacity = { λ d. d.mail.capacity };

    ghost caller = { caller_of };

    ghost legal = { IsLegal M.handle M.is_skipped };
}

impl<M: Policy + Keep> Desk<M> {
    /// An open mailbox that holds nothing, on which no call was made.
    pub fn new(alloc: Global, capacity: u32) -> Result<Desk<M>, AllocError>
        requires { 0 < capacity }
        ensures { IfOk result (λ desk. desk ≡ record { mail = no_mail capacity; log = [] }) }
    {
        Ok(Desk {
            alloc,
            mailbox: Mailbox::new(alloc, capacity)?,
            log: Vec::new(alloc),
        })
    }

    /// The number of calls that were made.
    pub fn len(&self) -> u64
        ensures { result ≡ length self.now.log }
    {
        self.log.len() as u64
    }

    /// Whether the mailbox was closed.
    pub fn is_closed(&self) -> bool
        ensures closed { result ≡ self.now.mail.closed }
        ensures shut { result ≡ is_shut self.now.log }
    {
        self.mailbox.is_closed()
    }

    /// Puts the message, which comes back for want of memory.
    pub fn put(&mut self, caller: u32, message: M) -> Result<Feedback, M>
        requires { self.old.mail.closed ≡ false }
        ensures ok { IfOk result (λ feedback. self.new.log
            ≡ self.old.log ++ Put caller message feedback ∷ []) }
        ensures open { IfOk result (λ answer. answer ≢ feedback.Closed) }
        ensures err { IfErr result (λ back. (back ≡ message) × (self.new ≡ self.old)) }
        ensures legal { IsLegal M.handle M.is_skipped self.new.mail.capacity self.new.log }
        ensures capacity { self.new.mail.capacity ≡ self.old.mail.capacity }
    {
        let Desk {
            alloc,
            mailbox,
            log,
        } = self;
        let Ok(copy) = message.keep(*alloc) else {
            return Err(message);
        };
        if log.reserve(1).is_err() {
            return Err(message);
        }
        let Ok(feedback) = mailbox.enqueue(copy) else {
            return Err(message);
        };
        log.push_reserved(Op::Put {
            caller,
            message,
            feedback,
        });
        Ok(feedback)
    }

    /// Takes the first message, if there is one. For want of memory nothing is taken.
    pub fn take(&mut self, caller: u32) -> Result<Option<M>, AllocError>
        ensures ok { IfOk result (λ got. self.new.log ≡ self.old.log ++ Took caller got ∷ []) }
        ensures err { OnErr result (self.new ≡ self.old) }
        ensures legal { IsLegal M.handle M.is_skipped self.new.mail.capacity self.new.log }
        ensures capacity { self.new.mail.capacity ≡ self.old.mail.capacity }
    {
        let Desk {
            alloc,
            mailbox,
            log,
        } = self;
        let copy = mailbox.copy_front(*alloc)?;
        log.reserve(1)?;
        let got = mailbox.recv();
        log.push_reserved(Op::Took { caller, got: copy });
        Ok(got)
    }

    /// Closes the mailbox, or leaves all as it was for want of memory.
    pub fn shut(&mut self, caller: u32) -> Result<(), AllocError>
        ensures ok { OnOk result (self.new.log ≡ self.old.log ++ Shut caller ∷ []) }
        ensures err { OnErr result (self.new ≡ self.old) }
        ensures legal { IsLegal M.handle M.is_skipped self.new.mail.capacity self.new.log }
        ensures capacity { self.new.mail.capacity ≡ self.old.mail.capacity }
    {
        let Desk { mailbox, log, .. } = self;
        log.reserve(1)?;
        mailbox.close();
        log.push_reserved(Op::Shut { caller });
        Ok(())
    }

    /// The calls that were made.
    pub fn into_log(self) -> Vec<Op<M>>
        ensures { result.items ≡ self.log }
    {
        let Desk { log, .. } = self;
        log
    }
}
