//! The mailbox of an application.
ghost use Rattle.std.specs.Prelude.{◌≡◌, IfOk, OnOk, OnErr};
ghost use Rattle.std.specs.Option.{option_copied};
ghost use Rattle.simplex_values.specs.declared.feedback.Feedback.TheVariants as feedback;
ghost use Rattle.simplex_mocks.specs.declared.message.Message.TheVariants as messages;
ghost use Rattle.simplex_mocks.specs.Queue.{empty_queue, asked, told, after_take, first_of, Asks, Tells};

use crate::message::Message;
use simplex_types::{
    Automaton, CertifiableAutomaton, Context, Digest, Feedback, Plan, Relay, Round,
};
use std::alloc::{AllocError, Global};
use std::collections::VecDeque;
use std::marker::Model;

/// Calls that wait for an application, the oldest first. Each request has a number of its own.
#[derive(Debug, Drop)]
pub struct Mailbox {
    waiting: VecDeque<Message>,
    next: u64,
}

impl Model for Mailbox {
    ghost use Rattle.simplex_mocks.specs.Queue.{Queue};

    ghost Value = { Queue };

    ghost view = { λ mailbox. record { waiting = mailbox.waiting.items; next = mailbox.next } };
}

impl Mailbox {
    /// A mailbox in which nothing waits. The first request has number 0.
    pub fn new(alloc: Global) -> Mailbox
        ensures { result ≡ empty_queue }
    {
        Mailbox {
            waiting: VecDeque::new(alloc),
            next: 0,
        }
    }

    /// Puts the message last, and gives the number of the request, behind which the next one comes.
    #[tactic(auto, unfolding(crate::specs::Queue::asked))]
    fn ask(&mut self, message: Message) -> Result<u64, AllocError>
        ensures number { IfOk result (λ number. number ≡ self.old.next) }
        ensures ok { OnOk result (self.new ≡ asked self.old (λ number. message)) }
        ensures err { OnErr result (self.new ≡ self.old) }
    {
        let number = self.next;
        self.waiting.push_back(message)?;
        self.next = number.wrapping_add(1);
        Ok(number)
    }

    /// The message that waited longest.
    pub fn first(&self) -> Option<&Message>
        ensures { option_copied result ≡ first_of self.now.waiting }
    {
        self.waiting.front()
    }

    /// Takes the message that waited longest.
    #[tactic(auto, unfolding(crate::specs::Queue::after_take))]
    pub fn take(&mut self) -> Option<Message>
        ensures first { result ≡ first_of self.old.waiting }
        ensures rest { self.new ≡ after_take self.old }
    {
        self.waiting.pop_front()
    }
}

impl Automaton for Mailbox {
    ghost proposes = { λ before context answer after. Asks before
        (λ number. messages.Propose context number) answer after };

    ghost verifies = { λ before context payload answer after. Asks before
        (λ number. messages.Verify context payload number) answer after };

    #[tactic(auto, unfolding(crate::specs::Queue::asked))]
    fn propose(&mut self, context: Context) -> Result<u64, AllocError> {
        let request = self.next;
        self.ask(Message::Propose { context, request })
    }

    #[tactic(auto, unfolding(crate::specs::Queue::asked))]
    fn verify(&mut self, context: Context, payload: Digest) -> Result<u64, AllocError> {
        let request = self.next;
        self.ask(Message::Verify {
            context,
            payload,
            request,
        })
    }
}

impl CertifiableAutomaton for Mailbox {
    ghost prepares = { λ before context answer after. Asks before
        (λ number. messages.Prepare context number) answer after };

    ghost certifies = { λ before round payload answer after. Asks before
        (λ number. messages.Certify round payload number) answer after };

    #[tactic(auto, unfolding(crate::specs::Queue::asked))]
    fn prepare(&mut self, context: Context) -> Result<u64, AllocError> {
        let request = self.next;
        self.ask(Message::Prepare { context, request })
    }

    #[tactic(auto, unfolding(crate::specs::Queue::asked))]
    fn certify(&mut self, round: Round, payload: Digest) -> Result<u64, AllocError> {
        let request = self.next;
        self.ask(Message::Certify {
            round,
            payload,
            request,
        })
    }
}

impl Relay for Mailbox {
    ghost broadcasts = { Tells };

    #[tactic(auto, unfolding(crate::specs::Queue::told))]
    fn broadcast(&mut self, payload: Digest, plan: Plan) -> Result<Feedback, AllocError> {
        self.waiting
            .push_back(Message::Broadcast { payload, plan })?;
        Ok(Feedback::Ok)
    }
}
