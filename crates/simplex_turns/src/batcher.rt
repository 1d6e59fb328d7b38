//! A batcher on a thread of its own.
ghost use Rattle.std.specs.Prelude.{◌≡◌, ◌<◌, ◌^◌, drop, filter_map, IfOk, OnOk, MatchOption, Some};
ghost use Rattle.std.specs.Option.{option_and_then};
ghost use Rattle.simplex_mailbox.specs.Waiting.{front};
ghost use Rattle.simplex_messages.specs.declared.batcher.BatcherInput.TheVariants as inputs;
ghost use Rattle.simplex_messages.specs.Handing.{for_voter};
ghost use Rattle.simplex_shared.specs.Passes.{IsSamePass, calls_of};
ghost use Rattle.model_steps.specs.Batcher.{step_out};
ghost use Rattle.simplex_batcher.specs.Stands.{Takes, Answers};
ghost use Rattle.simplex_turns.specs.Batching.{batcher_input, heard_on, AlsoBlocks};
ghost use Rattle.simplex_turns.specs.Handing.{PutsBehind};
ghost use Rattle.simplex_state.specs.Bound.{Knows};

use crate::blocking::note_blocks;
use crate::feed::Delivery;
use crate::handing::put_all;
use crate::mailboxes::Mailboxes;
use simplex_batcher::Actor;
use simplex_fetch::is_among;
use simplex_mailbox::{Gate, Held};
use simplex_messages::{BatcherInput, StepOut, batcher, voter};
use simplex_shared::Pass;
use simplex_types::{Channel, Scheme};
use std::alloc::{AllocError, Global};
use std::collections::{BTreeSet, VecDeque};
use std::sync::Wait;

/// A batcher between two of its turns. [time-stands-still]
#[derive(Drop)]
pub struct BatcherThread<S: Scheme> {
    /// Where it takes memory.
    pub alloc: Global,
    /// The batcher.
    pub actor: Actor<S>,
    /// The clock of all its steps, in milliseconds.
    pub now: u64,
    /// What of its feed is left.
    pub feed: VecDeque<Delivery>,
    /// The members whose packets it does not hear: the engine blocked them before, or its own steps since.
    pub blocked: BTreeSet<u32>,
    /// It takes its messages with this.
    pub own: Pass<batcher::Message>,
    /// It puts messages into the voter's mailbox with this.
    pub voter: Pass<voter::Message>,
    // true of any: contracts read from a thread's type what its scheme does
    ghost by_scheme: { Knows S.members },
}

impl<S: Scheme + Drop> BatcherThread<S> {
    ghost use Rattle.simplex_turns.specs.Threads.{BatcherTurns, BatcherRuns, IsSameBatcher};

    /// Makes so many turns, and passes the gate before each. May wait.
    pub fn run<G: Gate, R: Wait>(
        mut self,
        rt: &R,
        boxes: &Mailboxes,
        turns: u64,
        gate: &G,
    ) -> Result<(BatcherThread<S>, Vec<StepOut>), AllocError>
        requires clock { self.now < 2 ^ 63 }
        requires own { (self.own.mailbox ≡ boxes.now.batcher)
            × (self.voter.mailbox ≡ boxes.now.voter) }
        ensures same { IfOk result (λ ran. IsSameBatcher self ran.0) }
        ensures runs { IfOk result (λ ran. BatcherRuns self ran.0 turns ran.1.items) }
    {
        let mut outs = Vec::new(self.alloc);
        for turn in 0..turns {
            gate.pass(0, turn + 1);
            let out = self.turn(rt, boxes)?;
            outs.push(out)?;
        }
        Ok((self, outs))
    }

    /// Takes a message, else the next packet of its feed, and makes a step on it. May wait.
    fn turn<R: Wait>(&mut self, rt: &R, boxes: &Mailboxes) -> Result<StepOut, AllocError>
        requires clock { self.old.now < 2 ^ 63 }
        requires own { (self.old.own.mailbox ≡ boxes.now.batcher)
            × (self.old.voter.mailbox ≡ boxes.now.voter) }
        ensures same { IfOk result (λ _. IsSameBatcher self.old self.new) }
        ensures turns { IfOk result (λ out. BatcherTurns self.old self.new out) }
    {
        let taken = boxes.batcher.recv(rt, &mut self.own)?;
        match self.find(taken) {
            None => Ok(StepOut::new(self.alloc)),
            Some(input) => {
                let out = self.step(rt, boxes, input)?;
                Ok(out)
            }
        }
    }

    // The message, else the next packet of the feed as an input: one of another channel, or of a blocked member, is taken,
    // and is none.
    fn find(&mut self, taken: Option<batcher::Message>) -> Option<BatcherInput>
        ensures same { (self.new.actor ≡ self.old.actor) × (self.new.now ≡ self.old.now) }
        ensures passes { (self.new.own ≡ self.old.own) × (self.new.voter ≡ self.old.voter) }
        ensures blocked { self.new.blocked ≡ self.old.blocked }
        ensures found { MatchOption taken
            ((result ≡ option_and_then (batcher_input self.old.blocked.keys)
            (front self.old.feed.items))
            × (self.new.feed.items ≡ drop 1 self.old.feed.items))
            (λ message. (result ≡ Some (inputs.Mail message))
            × (self.new.feed.items ≡ self.old.feed.items)) }
    {
        match taken {
            Some(message) => Some(BatcherInput::Mail(message)),
            None => {
                let delivery = self.feed.pop_front()?;
                heard(&self.blocked, delivery)
            }
        }
    }

    // A step on this input, of which the messages go to the voter. Whom it blocks is heard no more.
    fn step<R: Wait>(
        &mut self,
        rt: &R,
        boxes: &Mailboxes,
        input: BatcherInput,
    ) -> Result<StepOut, AllocError>
        requires clock { self.old.now < 2 ^ 63 }
        requires own { self.old.voter.mailbox ≡ boxes.now.voter }
        ensures same { OnOk result ((self.new.own ≡ self.old.own) × (self.new.now ≡ self.old.now)
            × (self.new.feed.items ≡ self.old.feed.items)) }
        ensures voter { OnOk result (IsSamePass self.old.voter self.new.voter) }
        ensures put { IfOk result (λ out. PutsBehind (filter_map for_voter out.handed) (calls_of self.old.voter)
            (calls_of self.new.voter)) }
        ensures stands { OnOk result (Takes self.old.actor self.new.actor
            (record { input = input; now = self.old.now })) }
        ensures blocked { IfOk result
            (λ out. AlsoBlocks out.calls self.old.blocked.keys self.new.blocked.keys) }
        ensures out { IfOk result (λ out. Answers self.old.actor
            (λ made past. step_out made past (record { input = input; now = self.old.now })) out) }
    {
        let mut out = StepOut::new(self.alloc);
        let mut held = Held::new(self.alloc);
        self.actor.step(input, self.now, &mut held, &mut out)?;
        note_blocks(&mut self.blocked, out.calls.as_slice())?;
        put_all(rt, &boxes.voter, &mut self.voter, held.into_messages())?;
        Ok(out)
    }
}

// A packet as an input of the batcher, where its sender is not blocked and it is one of its channels.
fn heard(blocked: &BTreeSet<u32>, delivery: Delivery) -> Option<BatcherInput>
    ensures { result ≡ batcher_input blocked.now.keys delivery }
{
    if is_among(blocked, &delivery.sender) {
        return None;
    }
    input_of(delivery)
}

// A packet as an input of the batcher, where it is one of its channels.
fn input_of(delivery: Delivery) -> Option<BatcherInput>
    ensures { result ≡ heard_on delivery.channel delivery.sender delivery.bytes }
{
    let Delivery {
        sender,
        channel,
        bytes,
    } = delivery;
    match channel {
        Channel::Vote => Some(BatcherInput::Vote { sender, bytes }),
        Channel::Certificate => Some(BatcherInput::Certificate { sender, bytes }),
        Channel::Resolver => None,
    }
}
