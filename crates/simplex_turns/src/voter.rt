//! A voter on a thread of its own.
ghost use Rattle.std.specs.Prelude.{◌≡◌, ◌<◌, ◌^◌, Bool, All, IfOk, Some, None};
ghost use Rattle.simplex_turns.specs.Voting.{taken_by};
ghost use Rattle.simplex_state.specs.Bound.{Knows};

use crate::feed::FeedItem;
use crate::handing::put_all;
use crate::mailboxes::Mailboxes;
use model_rules::ProposalState;
use simplex_journal::Journal;
use simplex_mailbox::{Gate, Held, posted_are_held};
use simplex_messages::resolver::MailboxMessage;
use simplex_messages::{Outcome, StepOut, Stop, VoterInput, batcher, voter};
use simplex_shared::Pass;
use simplex_types::elector::Elector;
use simplex_types::{Answer, Scheme};
use simplex_voter::{Actor, AskKind};
use std::alloc::{AllocError, Global};
use std::collections::VecDeque;
use std::sync::Wait;

/// A voter between two of its turns.
#[derive(Drop)]
pub struct VoterThread<S: Scheme, L: Elector, J: Journal> {
    /// Where it takes memory.
    pub alloc: Global,
    /// The voter.
    pub actor: Actor<S, L, J>,
    /// Its clock, in milliseconds.
    pub now: u64,
    /// What of its feed is left.
    pub feed: VecDeque<FeedItem>,
    /// It takes its messages with this.
    pub own: Pass<voter::Message>,
    /// It puts messages into the batcher's mailbox with this.
    pub batcher: Pass<batcher::Message>,
    /// It puts messages into the resolver's mailbox with this.
    pub resolver: Pass<MailboxMessage>,
    // true of any three: contracts read from a thread's type what its scheme, its elector and its journal do
    ghost by_scheme: { Knows S.members },
    ghost by_elector: { Knows L.built_for },
    ghost by_journal: { Knows J.fault_count },
}

impl<S: Scheme + Drop, L: Elector + Drop, J: Journal + Drop> VoterThread<S, L, J> {
    ghost use Rattle.simplex_shared.specs.Passes.{IsSamePass};
    ghost use Rattle.model_steps.specs.VoterLife.{VoterMade, place_of};
    ghost use Rattle.simplex_turns.specs.declared.feed.FeedItem.TheVariants as items;
    ghost use Rattle.simplex_turns.specs.Threads.{VoterIsAt, KeepsVoter, Finds, VoterSteps, VoterTurns, VoterRuns, IsSameVoter, IsInTime, IsOfBoxes};
    ghost use Rattle.simplex_turns.specs.Voting.{VoterPlace, finds, on_item, holds_candidate};

    /// Makes so many turns, and passes the gate before each. A turn that a failing call of the journal ends is the last.
    /// May wait.
    pub fn run<G: Gate, R: Wait>(
        mut self,
        rt: &R,
        boxes: &Mailboxes,
        turns: u64,
        gate: &G,
    ) -> Result<(VoterThread<S, L, J>, Vec<StepOut>), AllocError>
        requires clock { (self.now < 2 ^ 63) × All IsInTime self.feed.items }
        requires own { IsOfBoxes self boxes.now }
        ensures same { IfOk result (λ ran. IsSameVoter self ran.0) }
        ensures runs { IfOk result (λ ran. VoterRuns self ran.0 turns ran.1.items) }
    {
        let mut outs = Vec::new(self.alloc);
        for turn in 0..turns {
            gate.pass(1, turn + 1);
            let (outcome, out) = self.turn(rt, boxes)?;
            outs.push(out)?;
            if let Outcome::Journal = outcome {
                return Ok((self, outs));
            }
        }
        Ok((self, outs))
    }

    /// Takes a message, else a held payload whose parent is certified, else the next item of its feed, and makes a step on
    /// it. May wait. [turns-take-once]
    fn turn<R: Wait>(&mut self, rt: &R, boxes: &Mailboxes) -> Result<(Outcome, StepOut), AllocError>
        requires clock { (self.old.now < 2 ^ 63) × All IsInTime self.old.feed.items }
        requires own { IsOfBoxes self.old boxes.now }
        ensures clock { IfOk result (λ _. (self.new.now < 2 ^ 63)
            × All IsInTime self.new.feed.items) }
        ensures same { IfOk result (λ _. IsSameVoter self.old self.new) }
        ensures turns { IfOk result (λ given. VoterTurns self.old self.new given.0 given.1) }
    {
        let taken = boxes.voter.recv(rt, &mut self.own)?;
        match self.find(taken) {
            None => Ok((Outcome::Idle, StepOut::new(self.alloc))),
            Some(input) => {
                let given = self.step(rt, boxes, input)?;
                Ok(given)
            }
        }
    }

    // The message, else what the voter finds of its own.
    #[tactic(auto, unfolding(crate::specs::Voting::finds))]
    fn find(&mut self, taken: Option<voter::Message>) -> Option<VoterInput>
        requires clock { (self.old.now < 2 ^ 63) × All IsInTime self.old.feed.items }
        ensures clock { (self.new.now < 2 ^ 63) × All IsInTime self.new.feed.items }
        ensures keeps { KeepsVoter self.old self.new }
        ensures finds { Finds self.old self.new (λ made place. finds made place taken) result }
    {
        match taken {
            Some(message) => Some(VoterInput::Mail(message)),
            None => self.find_own(),
        }
    }

    // A held payload whose parent is certified, else what the next item of the feed asks for.
    fn find_own(&mut self) -> Option<VoterInput>
        requires clock { (self.old.now < 2 ^ 63) × All IsInTime self.old.feed.items }
        ensures clock { (self.new.now < 2 ^ 63) × All IsInTime self.new.feed.items }
        ensures keeps { KeepsVoter self.old self.new }
        ensures finds { Finds self.old self.new (λ made place. finds made place None) result }
    {
        if self.holds_candidate() {
            return Some(VoterInput::Propose);
        }
        match self.feed.pop_front()? {
            FeedItem::Now(ms) => {
                self.now = self.now.max(ms);
                Some(VoterInput::Timer)
            }
            FeedItem::Reply(kind, answer) => self.reply(kind, answer),
        }
    }

    // Whether a payload is held whose parent is certified.
    fn holds_candidate(&self) -> bool
        ensures { (told : Bool) (made : VoterMade) (place : VoterPlace) → VoterIsAt told self.entry.now made place
            → result ≡ holds_candidate (place_of made place.past).standing }
    {
        let Some(state) = self.actor.proposal_state() else {
            return false;
        };
        match state {
            ProposalState::Held(_) => self.actor.holds(&VoterInput::Propose, self.now),
            _ => false,
        }
    }

    // Answers the oldest open request of this kind that has no answer, and tells the source of the step that takes it.
    // [oldest-open-request]
    fn reply(&mut self, kind: AskKind, answer: Answer) -> Option<VoterInput>
        ensures clock { (self.new.now ≡ self.old.now) × (self.new.feed ≡ self.old.feed) }
        ensures keeps { KeepsVoter self.old self.new }
        ensures finds { Finds self.old self.new
            (λ made place. on_item made place (Some (items.Reply kind answer))) result }
    {
        let request = self.actor.unanswered(kind)?;
        if !self.actor.answer(request, answer) {
            return None;
        }
        Some(taken_by(kind))
    }

    // A step on this input, of which the messages go to the batcher and the resolver.
    fn step<R: Wait>(
        &mut self,
        rt: &R,
        boxes: &Mailboxes,
        input: VoterInput,
    ) -> Result<(Outcome, StepOut), AllocError>
        requires clock { self.old.now < 2 ^ 63 }
        requires boxes { (self.old.batcher.mailbox ≡ boxes.now.batcher)
            × (self.old.resolver.mailbox ≡ boxes.now.resolver) }
        ensures clock { IfOk result (λ _. (self.new.now ≡ self.old.now)
            × (self.new.feed ≡ self.old.feed)) }
        ensures own { IfOk result (λ _. self.new.own ≡ self.old.own) }
        ensures same { IfOk result (λ _. IsSamePass self.old.batcher self.new.batcher
            × IsSamePass self.old.resolver self.new.resolver) }
        ensures steps { IfOk result
            (λ given. VoterSteps self.old self.new (Some input) given.0 given.1) }
    {
        posted_are_held::<batcher::Message>();
        posted_are_held::<MailboxMessage>();
        let mut out = StepOut::new(self.alloc);
        let mut to_batcher = Held::new(self.alloc);
        let mut to_resolver = Held::new(self.alloc);
        let outcome = self.actor.step(
            input,
            self.now,
            &Stop::None,
            &mut to_batcher,
            &mut to_resolver,
            &mut out,
        )?;
        let messages = to_batcher.into_messages();
        put_all(rt, &boxes.batcher, &mut self.batcher, messages)?;
        let messages = to_resolver.into_messages();
        put_all(rt, &boxes.resolver, &mut self.resolver, messages)?;
        Ok((outcome, out))
    }
}

// The source of the step that takes the answer to a request of this kind.
fn taken_by(kind: AskKind) -> VoterInput
    ensures { result ≡ taken_by kind }
{
    match kind {
        AskKind::Prepare | AskKind::Propose => VoterInput::Propose,
        AskKind::Verify => VoterInput::Verify,
        AskKind::Certify => VoterInput::Certify,
    }
}
