//! The steps of the actors, one by one.
#![tactic(auto, unfolding(crate::specs::Stands::CrewStands))]

ghost use Rattle.std.specs.Prelude.{◌≡◌, ◌<◌, ◌^◌, [], ◌∷◌, OnOk, IfOk, take, Bool, true, false, None};
ghost use Rattle.std.specs.Option.{option_map};
ghost use Rattle.simplex_messages.specs.Step.{no_out};
ghost use Rattle.simplex_messages.specs.declared.step.Outcome.TheVariants as outcomes;
ghost use Rattle.model_rules.specs.Views.{current_of};
ghost use Rattle.model_steps.specs.Batcher.{step_out};
ghost use Rattle.model_steps.specs.Voter.{takes_answer};
ghost use Rattle.model_steps.specs.VoterLife.{Stepped, place_of, step_given};
ghost use Rattle.model_steps.specs.Engine.{EngineMade, begun, cut_short};
ghost use Rattle.model_resolver.specs.Resolver as resolving;
ghost use Rattle.simplex_voter.specs.Actor.{next_answer, journal_of};
ghost use Rattle.simplex_voter.specs.Turned.{FaultsAt};
ghost use Rattle.simplex_engine.specs.Parts.{after_voter, after_answer, after_batcher, after_resolver, ended};
ghost use Rattle.simplex_engine.specs.Polled.{answer_inside, unless_idle};
ghost use Rattle.simplex_engine.specs.Stands.{Fresh, CrewStands, CrewStarts, VoterFares, Works, WorksAs, Ends, EndsAs, TellsAs, faults_in};

use crate::crew::Crew;
use crate::input::{Polled, TakenInside};
use simplex_journal::Journal;
use simplex_mailbox::{Held, posted_are_enqueued};
use simplex_messages::{
    BatcherInput, Outcome, ResolverInput, StepOut, Stop, VoterInput, batcher, resolver,
};
use simplex_types::elector::Elector;
use simplex_types::{Answer, Scheme, Sequence, View};
use std::alloc::{AllocError, Global};
use std::mem;

impl<S: Scheme + Drop, L: Elector + Drop, J: Journal + Drop> Crew<S, L, J> {
    /// The start of the voter. Whom it blocks the resolver is told.
    pub(crate) fn start(
        &mut self,
        now: u64,
        stop: &Stop,
        out: &mut StepOut,
    ) -> Result<Outcome, AllocError>
        requires clock { now < 2 ^ 63 }
        requires empty { out.old ≡ no_out }
        ensures stands { OnOk result ((made : EngineMade) → Fresh true self.old made now
            → CrewStands true self.new made (begun made now stop.now ∷ [])) }
        ensures gives { IfOk result (λ outcome. (made : EngineMade) → Fresh true self.old made now
            → (outcome ≡ (begun made now stop.now).outcome)
            × (out.new ≡ (begun made now stop.now).out)) }
        ensures over { IfOk result
            (λ outcome. CrewStarts self.old self.new now stop.now outcome out.new) }
        ensures faults { IfOk result
            (λ outcome. FaultsAt outcome (faults_in self.old) (faults_in self.new)) }
    {
        posted_are_enqueued::<batcher::Message>();
        posted_are_enqueued::<resolver::MailboxMessage>();
        let boxes = &mut self.boxes;
        let outcome = self
            .voter
            .start(now, stop, &mut boxes.batcher, &mut boxes.resolver, out)?;
        self.tell_blocks(out.calls.as_slice())?;
        Ok(outcome)
    }

    /// A step of the voter on this input. Whom it blocks the resolver is told.
    pub(crate) fn step_voter(
        &mut self,
        input: VoterInput,
        now: u64,
        stop: &Stop,
        out: &mut StepOut,
    ) -> Result<Outcome, AllocError>
        requires clock { now < 2 ^ 63 }
        requires empty { out.old ≡ no_out }
        ensures stands { OnOk result (Works self.old self.new
            (after_voter (Stepped input now stop.now) out.new)) }
        ensures gives { IfOk result (λ outcome. Ends self.old
            (λ parts. ended (step_given parts.voter parts.given input now stop.now)) outcome out.new) }
        ensures over { IfOk result
            (λ outcome. VoterFares self.old self.new stop.now input now outcome out.new) }
        ensures faults { IfOk result
            (λ outcome. FaultsAt outcome (faults_in self.old) (faults_in self.new)) }
    {
        posted_are_enqueued::<batcher::Message>();
        posted_are_enqueued::<resolver::MailboxMessage>();
        let boxes = &mut self.boxes;
        let outcome = self.voter.step(
            input,
            now,
            stop,
            &mut boxes.batcher,
            &mut boxes.resolver,
            out,
        )?;
        self.tell_blocks(out.calls.as_slice())?;
        Ok(outcome)
    }

    /// A step of the voter that takes an answer of the application.
    pub(crate) fn step_on_answer(
        &mut self,
        input: VoterInput,
        now: u64,
        stop: &Stop,
        out: &mut StepOut,
    ) -> Result<Polled, AllocError>
        requires clock { now < 2 ^ 63 }
        requires empty { out.old ≡ no_out }
        ensures stands { OnOk result (Works self.old self.new
            (after_voter (Stepped input now stop.now) out.new)) }
        ensures gives { IfOk result (λ polled. Ends self.old (λ parts. ended
            (step_given parts.voter parts.given input now stop.now)) polled.outcome out.new) }
        ensures taken { IfOk result
            (λ polled. (told : Bool)
            → TellsAs told self.old (λ parts. unless_idle polled.outcome (option_map answer_inside
            (next_answer (place_of parts.voter parts.given).standing input))) polled.taken) }
        ensures over { IfOk result
            (λ polled. VoterFares self.old self.new stop.now input now polled.outcome out.new) }
        ensures faults { IfOk result
            (λ polled. FaultsAt polled.outcome (faults_in self.old) (faults_in self.new)) }
    {
        let taken = self.next_answer(&input);
        let outcome = self.step_voter(input, now, stop, out)?;
        Ok(polled(outcome, taken))
    }

    /// The answer that a step of the voter on this input takes.
    fn next_answer(&self, input: &VoterInput) -> Option<TakenInside>
        ensures { (told : Bool) → TellsAs told self.now (λ parts. option_map answer_inside
            (next_answer (place_of parts.voter parts.given).standing input.now)) result }
    {
        let (request, answer) = self.voter.next_answer(input)?;
        Some(TakenInside::Answer { request, answer })
    }

    /// A step of the batcher on this input, with its calls from the stop's on cut off. Whom it blocks the resolver is
    /// told. What it hands on is put into the voter's mailbox once the step is known to be whole.
    /// [handed-on-when-whole]
    pub(crate) fn step_batcher(
        &mut self,
        input: BatcherInput,
        now: u64,
        stop: &Stop,
        out: &mut StepOut,
    ) -> Result<Outcome, AllocError>
        requires clock { now < 2 ^ 63 }
        requires empty { out.old ≡ no_out }
        ensures stands { OnOk result ((told : Bool) → WorksAs told self.old self.new
            (after_batcher (record { input = input; now = now }) out.new)) }
        ensures gives { IfOk result (λ outcome. (told : Bool)
            → EndsAs told self.old (λ parts. cut_short stop.now
            (step_out parts.batcher parts.timed
            (record { input = input; now = now }))) outcome out.new) }
        ensures faults { IfOk result
            (λ outcome. FaultsAt outcome (faults_in self.old) (faults_in self.new)) }
        ensures journal { OnOk result (journal_of self.new.voter ≡ journal_of self.old.voter) }
    {
        let mut held = Held::new(self.alloc);
        self.batcher.step(input, now, &mut held, out)?;
        let is_cut = cut_short(self.alloc, stop, out);
        self.tell_blocks(out.calls.as_slice())?;
        if is_cut {
            return Ok(Outcome::Cut);
        }
        held.put_into(&mut self.boxes.voter)?;
        Ok(Outcome::Done)
    }

    /// A step of the resolver on this input, with its calls from the stop's on cut off. What it hands on is put into
    /// the voter's mailbox once the step is known to be whole.
    pub(crate) fn step_resolver(
        &mut self,
        input: ResolverInput,
        now: u64,
        stop: &Stop,
        out: &mut StepOut,
    ) -> Result<Outcome, AllocError>
        requires clock { now < 2 ^ 63 }
        requires empty { out.old ≡ no_out }
        ensures stands { OnOk result ((told : Bool)
            → WorksAs told self.old self.new
            (after_resolver (resolving.Stepped input now) out.new)) }
        ensures gives { IfOk result (λ outcome. (told : Bool)
            → EndsAs told self.old (λ parts. cut_short stop.now
            (resolving.step_out parts.resolver parts.asked input now)) outcome out.new) }
        ensures faults { IfOk result
            (λ outcome. FaultsAt outcome (faults_in self.old) (faults_in self.new)) }
        ensures journal { OnOk result (journal_of self.new.voter ≡ journal_of self.old.voter) }
    {
        let mut held = Held::new(self.alloc);
        self.resolver.step(input, now, &mut held, out)?;
        let is_cut = cut_short(self.alloc, stop, out);
        self.note_blocks(out.calls.as_slice())?;
        if is_cut {
            return Ok(Outcome::Cut);
        }
        held.put_into(&mut self.boxes.voter)?;
        Ok(Outcome::Done)
    }

    /// Gives the voter an answer of the application. Tells whether it was taken.
    pub(crate) fn answer(&mut self, request: u64, answer: Answer) -> bool
        ensures taken { (told : Bool) → TellsAs told self.old
            (λ parts. takes_answer
            (place_of parts.voter parts.given).standing request answer) result }
        ensures stands { result ≡ true → (told : Bool)
            → WorksAs told self.old self.new (after_answer request answer) }
        ensures stays { result ≡ false → (told : Bool)
            → WorksAs told self.old self.new (λ parts. parts) }
        ensures journal { journal_of self.new.voter ≡ journal_of self.old.voter }
    {
        self.voter.answer(request, answer)
    }

    /// The journal.
    pub(crate) fn journal(&self) -> &J
        ensures sections { (told : Bool) → TellsAs told self.now
            (λ parts. (place_of parts.voter parts.given).sections) (J.sections result.now) }
        ensures whole { result.now ≡ journal_of self.now.voter }
    {
        self.voter.journal()
    }

    /// The journal, by itself.
    pub(crate) fn into_journal(self) -> J
        ensures sections { (told : Bool)
            → TellsAs told self
            (λ parts. (place_of parts.voter parts.given).sections) (J.sections result) }
        ensures whole { result ≡ journal_of self.voter }
    {
        let Crew {
            voter,
            batcher,
            resolver,
            boxes,
            ..
        } = self;
        drop(batcher);
        drop(resolver);
        drop(boxes);
        voter.into_journal()
    }

    /// The view that the voter is in.
    pub(crate) fn current_view(&self) -> View
        ensures { (told : Bool) → TellsAs told self.now (λ parts. current_of parts.voter.rules
            (place_of parts.voter parts.given).standing.desk.known) result }
    {
        self.voter.current_view()
    }
}

/// What a step did that would take this, unless its source held nothing.
pub(crate) fn polled(outcome: Outcome, taken: Option<TakenInside>) -> Polled
    ensures { result ≡ record { outcome = outcome; taken = unless_idle outcome taken } }
{
    match outcome {
        Outcome::Idle => Polled {
            outcome,
            taken: None,
        },
        Outcome::Done | Outcome::Journal | Outcome::Cut | Outcome::Refused => {
            Polled { outcome, taken }
        }
    }
}

/// Cuts off the calls from the one of the stop's number on, and all else with them. Tells whether there is one.
fn cut_short(alloc: Global, stop: &Stop, out: &mut StepOut) -> bool
    ensures cut { result ≡ true → (outcomes.Cut, out.new) ≡ cut_short stop.now out.old }
    ensures alone { result ≡ true → out.new.handed ≡ [] }
    ensures whole { result ≡ false → (outcomes.Done, out.new) ≡ cut_short stop.now out.old }
    ensures same { result ≡ false → out.new ≡ out.old }
{
    let Stop::Cut { call, .. } = stop else {
        return false;
    };
    if *call == 0 || *call > out.calls.len() as u64 {
        return false;
    }
    keep_calls(alloc, out, (*call - 1) as usize);
    true
}

/// Keeps the first so many calls, and nothing else.
fn keep_calls(alloc: Global, out: &mut StepOut, count: usize)
    ensures { out.new ≡ record {
      added = [];
      asked = [];
      dropped = [];
      handed = [];
      calls = take count out.old.calls;
    } }
{
    let mut calls = mem::replace(&mut out.calls, Sequence::new(alloc)).into_vec();
    calls.truncate(count);
    *out = StepOut::new(alloc);
    out.calls = Sequence::from_vec(calls);
}
