//! A resolver on a thread of its own.
ghost use Rattle.std.specs.Prelude.{◌≡◌, ◌<◌, ◌^◌, filter_map, if◌then◌else◌, IfOk, OnOk, None, Some, true};
ghost use Rattle.simplex_messages.specs.declared.resolver.ResolverInput.TheVariants as inputs;
ghost use Rattle.simplex_messages.specs.Handing.{for_voter};
ghost use Rattle.simplex_shared.specs.Passes.{IsSamePass, calls_of};
ghost use Rattle.model_resolver.specs.Resolver.{Stepped, step_out, holds_handled, deadline_after, blocked_after};
ghost use Rattle.model_resolver.specs.Views.{is_reached};
ghost use Rattle.simplex_resolver.specs.Stands.{Takes, Answers};
ghost use Rattle.simplex_turns.specs.Handing.{PutsBehind};
ghost use Rattle.simplex_turns.specs.Resolving.{resolver_input, answered_on};
ghost use Rattle.simplex_state.specs.Bound.{Knows};

use crate::feed::Delivery;
use crate::handing::put_all;
use crate::mailboxes::Mailboxes;
use simplex_mailbox::{Gate, Held};
use simplex_messages::resolver::MailboxMessage;
use simplex_messages::{ResolverInput, StepOut, voter};
use simplex_resolver::Actor;
use simplex_shared::Pass;
use simplex_types::{Channel, Scheme};
use std::alloc::{AllocError, Global};
use std::collections::VecDeque;
use std::sync::Wait;

/// A resolver between two of its turns. The mailbox of its handler is its own.
#[derive(Drop)]
pub struct ResolverThread<S: Scheme> {
    /// Where it takes memory.
    pub alloc: Global,
    /// The resolver.
    pub actor: Actor<S>,
    /// The clock of all its steps, in milliseconds.
    pub now: u64,
    /// What of its feed is left.
    pub feed: VecDeque<Delivery>,
    /// It takes its messages with this.
    pub own: Pass<MailboxMessage>,
    /// It puts messages into the voter's mailbox with this.
    pub voter: Pass<voter::Message>,
    // true of any: contracts read from a thread's type what its scheme does
    ghost by_scheme: { Knows S.members },
}

impl<S: Scheme + Drop> ResolverThread<S> {
    ghost use Rattle.simplex_turns.specs.Finding.{ResolverFinds};
    ghost use Rattle.simplex_turns.specs.Threads.{ResolverTurns, ResolverRuns, IsSameResolver, KeepsResolver};

    /// Makes so many turns, and passes the gate before each. May wait.
    pub fn run<G: Gate, R: Wait>(
        mut self,
        rt: &R,
        boxes: &Mailboxes,
        turns: u64,
        gate: &G,
    ) -> Result<(ResolverThread<S>, Vec<StepOut>), AllocError>
        requires clock { self.now < 2 ^ 63 }
        requires own { (self.own.mailbox ≡ boxes.now.resolver)
            × (self.voter.mailbox ≡ boxes.now.voter) }
        ensures same { IfOk result (λ ran. IsSameResolver self ran.0) }
        ensures runs { IfOk result (λ ran. ResolverRuns self ran.0 turns ran.1.items) }
    {
        let mut outs = Vec::new(self.alloc);
        for turn in 0..turns {
            gate.pass(2, turn + 1);
            let out = self.turn(rt, boxes)?;
            outs.push(out)?;
        }
        Ok((self, outs))
    }

    /// Takes a message, else one of its handler, else the next packet of its feed, else a deadline that is reached, and
    /// makes a step on it. May wait.
    fn turn<R: Wait>(&mut self, rt: &R, boxes: &Mailboxes) -> Result<StepOut, AllocError>
        requires clock { self.old.now < 2 ^ 63 }
        requires own { (self.old.own.mailbox ≡ boxes.now.resolver)
            × (self.old.voter.mailbox ≡ boxes.now.voter) }
        ensures same { IfOk result (λ _. IsSameResolver self.old self.new) }
        ensures turns { IfOk result (λ out. ResolverTurns self.old self.new out) }
    {
        let taken = boxes.resolver.recv(rt, &mut self.own)?;
        match self.find(taken) {
            None => Ok(StepOut::new(self.alloc)),
            Some(input) => {
                let out = self.step(rt, boxes, input)?;
                Ok(out)
            }
        }
    }

    // The message, else what the resolver finds of its own.
    fn find(&mut self, taken: Option<MailboxMessage>) -> Option<ResolverInput>
        ensures same { KeepsResolver self.old self.new }
        ensures finds { ResolverFinds self.old self.new taken result }
    {
        match taken {
            Some(message) => Some(ResolverInput::Mail(message)),
            None => self.find_own(),
        }
    }

    // A message of the handler, else the next packet of the feed, else a deadline that is reached. A packet of another
    // channel, or of a blocked member, is taken, and is none.
    fn find_own(&mut self) -> Option<ResolverInput>
        ensures same { KeepsResolver self.old self.new }
        ensures finds { ResolverFinds self.old self.new None result }
    {
        if self.actor.holds_handler() {
            return self.find_handled();
        }
        match self.feed.pop_front() {
            Some(delivery) => self.heard(delivery),
            None => self.find_deadline(),
        }
    }

    // The first message of the handler, which holds one.
    fn find_handled(&mut self) -> Option<ResolverInput>
        ensures same { KeepsResolver self.old self.new }
        ensures finds { Answers self.old.actor (λ made past. holds_handled made past) true
            → ResolverFinds self.old self.new None result }
    {
        let message = self.actor.take_handler()?;
        Some(ResolverInput::Handler(message))
    }

    // A packet as an input of the resolver, where its fetcher does not count the sender as blocked and it is one of its channel.
    fn heard(&self, delivery: Delivery) -> Option<ResolverInput>
        ensures { Answers self.entry.now.actor
            (λ made past. resolver_input (blocked_after made past) delivery) result }
    {
        if self.actor.is_blocked(delivery.sender) {
            return None;
        }
        input_of(delivery)
    }

    // A deadline of the fetcher that is reached.
    fn find_deadline(&self) -> Option<ResolverInput>
        ensures { Answers self.entry.now.actor
            (λ made past. if is_reached self.entry.now.now
            (deadline_after made past) then Some inputs.Timer
            else None) result }
    {
        if is_reached(self.now, self.actor.next_deadline()) {
            Some(ResolverInput::Timer)
        } else {
            None
        }
    }

    // A step on this input, of which the messages go to the voter.
    fn step<R: Wait>(
        &mut self,
        rt: &R,
        boxes: &Mailboxes,
        input: ResolverInput,
    ) -> Result<StepOut, AllocError>
        requires clock { self.old.now < 2 ^ 63 }
        requires own { self.old.voter.mailbox ≡ boxes.now.voter }
        ensures same { OnOk result ((self.new.own ≡ self.old.own) × (self.new.now ≡ self.old.now)
            × (self.new.feed.items ≡ self.old.feed.items)) }
        ensures voter { OnOk result (IsSamePass self.old.voter self.new.voter) }
        ensures put { IfOk result (λ out. PutsBehind (filter_map for_voter out.handed) (calls_of self.old.voter)
            (calls_of self.new.voter)) }
        ensures stands { OnOk result (Takes self.old.actor self.new.actor
            (Stepped input self.old.now)) }
        ensures out { IfOk result (λ out. Answers self.old.actor
            (λ made past. step_out made past input self.old.now) out) }
    {
        let mut out = StepOut::new(self.alloc);
        let mut held = Held::new(self.alloc);
        self.actor.step(input, self.now, &mut held, &mut out)?;
        put_all(rt, &boxes.voter, &mut self.voter, held.into_messages())?;
        Ok(out)
    }
}

// A packet as an input of the resolver, where it is one of its channel.
fn input_of(delivery: Delivery) -> Option<ResolverInput>
    ensures { result ≡ answered_on delivery.channel delivery.sender delivery.bytes }
{
    let Delivery {
        sender,
        channel,
        bytes,
    } = delivery;
    match channel {
        Channel::Vote | Channel::Certificate => None,
        Channel::Resolver => Some(ResolverInput::Packet { sender, bytes }),
    }
}

// Whether the clock has reached the deadline, if there is one.
fn is_reached(now: u64, deadline: Option<u64>) -> bool
    ensures { result ≡ is_reached now deadline }
{
    deadline.is_some_and(|deadline| deadline <= now)
}
