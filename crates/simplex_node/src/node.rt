//! A member.
ghost use Rattle.std.specs.Prelude.{◌≡◌, ◌<◌, ◌≤◌, ◌^◌, List, [], Some, None, false, true, IfSome, IfOk, IfErr, OnOk, IsErrOf};
ghost use Rattle.model_steps.specs.Engine.{EngineMade, Did, runs};
ghost use Rattle.simplex_messages.specs.Step.{no_out};
ghost use Rattle.simplex_engine.specs.Config.{engine_made, first_bad, Refused};
ghost use Rattle.simplex_engine.specs.Holding.{holds, next_deadline};
ghost use Rattle.simplex_engine.specs.Polled.{polled};
ghost use Rattle.simplex_engine.specs.Stands.{StandsOver, Answers, journal_of};
ghost use Rattle.simplex_node.specs.Turn.{next_source};
ghost use Rattle.simplex_node.specs.Node.{Does, Begins, Steps, StepsOn, Takes, SetsClock, Refuses, ended, error_of};
ghost use Rattle.simplex_node.specs.declared.error.NodeError.TheVariants as errors;

use crate::command::Command;
use crate::error::NodeError;
use crate::time::Time;
use simplex_engine::{Engine, EngineConfig, Input, NewError, PollError};
use simplex_journal::Journal;
use simplex_messages::{Outcome, StepOut, Stop};
use simplex_transcript::StepSource;
use simplex_types::elector::Elector;
use simplex_types::{Keep, Scheme, View};
use std::alloc::Global;

/// An engine over its journal, and the clock that it was told last.
#[derive(Drop)]
pub struct Node<S: Scheme + Drop, L: Elector + Drop, J: Journal + Drop> {
    engine: Engine<S, L, J>,
    out: StepOut,
    clock: Time,
}

impl<S: Scheme + Keep + Drop, L: Elector + Drop, J: Journal + Drop> Node<S, L, J> {
    /// A member that was not started, over what the journal holds: of an empty one it never voted, of one that an earlier life left it
    /// keeps to what it sent then.
    pub fn new(
        alloc: Global,
        config: EngineConfig<S, L>,
        journal: J,
    ) -> Result<Node<S, L, J>, NewError>
        requires built { L.built_for config.elector ≡ S.members config.scheme }
        requires lookahead { (L.cuts config.elector).lookahead ≤ 2 ^ 32 }
        requires stall { IfSome (L.cuts config.elector).stall_timeout
            (λ stall. (config.certification_timeout < stall) × (stall ≤ 2 ^ 62)) }
        ensures stands { IfOk result (λ node. StandsOver node.engine
            (engine_made S.attests S.verifies S.recovers S.members S.member L.elects L.cuts config
            (J.sections journal)) []) }
        ensures journal { IfOk result (λ node. journal_of node.engine ≡ Some journal) }
        ensures allowed { IfOk result (λ _. first_bad config ≡ None) }
        ensures refused { IfErr result (λ error. Refused error (first_bad config)) }
    {
        let engine = Engine::new(alloc, config, journal)?;
        Ok(Node {
            engine,
            out: StepOut::new(alloc),
            clock: Time::zero(),
        })
    }
}

impl<S: Scheme + Drop, L: Elector + Drop, J: Journal + Drop> Node<S, L, J> {
    /// Starts the member at this clock, once in its life: it reads its journal, and sends again what it may owe.
    pub fn start(&mut self, now: Time) -> Result<(), NodeError>
        ensures begins { OnOk result (Begins self.old self.new true) }
        ensures clock { OnOk result (self.new.clock ≡ now) }
        ensures broken { IsErrOf result errors.Journal → Begins self.old self.new false }
    {
        self.out.clear();
        let begun = self.engine.start(now.ms(), &Stop::None, &mut self.out);
        self.clock = now;
        match begun {
            Ok(outcome) => ended(outcome),
            Err(error) => Err(error_of(error)),
        }
    }

    /// Takes a command. Of the clock alone nothing comes until the member steps.
    pub fn take(&mut self, command: Command) -> Result<(), NodeError>
        ensures takes { OnOk result (Takes self.old self.new command true) }
        ensures broken { IsErrOf result errors.Journal → Takes self.old self.new command false }
        ensures refused { IsErrOf result errors.NotPending → Refuses self.old self.new }
        ensures back { IsErrOf result errors.ClockGoesBack → Refuses self.old self.new }
    {
        self.out.clear();
        match command {
            Command::Now(time) => self.set_clock(time),
            Command::Packet {
                from,
                channel,
                bytes,
            } => self.poll(Input::Deliver {
                sender: from,
                channel,
                bytes,
            }),
            Command::Answer { request, answer } => self.poll(Input::Answer { request, answer }),
        }
    }

    // The clock from now on.
    fn set_clock(&mut self, now: Time) -> Result<(), NodeError>
        requires empty { self.old.out ≡ no_out }
        ensures sets { OnOk result (SetsClock self.old self.new now) }
        ensures back { IfErr result (λ error. (error ≡ errors.ClockGoesBack) × Refuses self.old self.new) }
    {
        if now.ms() < self.clock.ms() {
            return Err(NodeError::ClockGoesBack);
        }
        self.clock = now;
        Ok(())
    }

    // Gives the engine an input.
    fn poll(&mut self, input: Input) -> Result<(), NodeError>
        requires empty { self.old.out ≡ no_out }
        ensures takes { OnOk result (Does self.old self.new
            (λ turned made past. polled made past input self.old.clock.ms turned) true) }
        ensures broken { IsErrOf result errors.Journal → Does self.old self.new
            (λ turned made past. polled made past input self.old.clock.ms turned) false }
        ensures refused { IsErrOf result errors.NotPending → Refuses self.old self.new }
        ensures back { IsErrOf result errors.ClockGoesBack → ⊥ }
        ensures clock { self.new.clock ≡ self.old.clock }
    {
        match self
            .engine
            .poll(input, self.clock.ms(), &Stop::None, &mut self.out)
        {
            Ok(polled) => ended(polled.outcome),
            Err(error) => {
                self.out.clear();
                Err(error_of(error))
            }
        }
    }

    /// Steps on the first source that holds something: mail before answers, deadlines last. None where no source holds anything: then the
    /// member waits for a command.
    pub fn step(&mut self) -> Result<Option<StepSource>, NodeError>
        ensures steps { IfOk result (λ found. Steps self.old self.new found) }
        ensures broken { IsErrOf result errors.Journal
            → (source : StepSource) × StepsOn self.old self.new source false }
    {
        self.out.clear();
        match self.next_source() {
            None => Ok(None),
            Some(source) => match self.poll(Input::Step(source)) {
                Ok(()) => Ok(Some(source)),
                Err(error) => Err(error),
            },
        }
    }

    // The first source that holds something.
    #[tactic(auto, unfolding(crate::specs::Turn::first_holding))]
    fn next_source(&self) -> Option<StepSource>
        ensures { (made : EngineMade) (past : List Did) → StandsOver self.now.engine made past
            → runs past ≡ true → result ≡ next_source made past self.now.clock.ms }
    {
        if self.holds(StepSource::Voter) {
            return Some(StepSource::Voter);
        }
        if self.holds(StepSource::Batcher) {
            return Some(StepSource::Batcher);
        }
        if self.holds(StepSource::Resolver) {
            return Some(StepSource::Resolver);
        }
        if self.holds(StepSource::Handler) {
            return Some(StepSource::Handler);
        }
        if self.holds(StepSource::Certify) {
            return Some(StepSource::Certify);
        }
        if self.holds(StepSource::Verify) {
            return Some(StepSource::Verify);
        }
        if self.holds(StepSource::Propose) {
            return Some(StepSource::Propose);
        }
        if self.holds(StepSource::Timer) {
            return Some(StepSource::Timer);
        }
        if self.holds(StepSource::Fetch) {
            return Some(StepSource::Fetch);
        }
        None
    }

    fn holds(&self, source: StepSource) -> bool
        ensures { (made : EngineMade) (past : List Did) → StandsOver self.now.engine made past
            → runs past ≡ true → result ≡ holds made past source self.now.clock.ms }
    {
        self.engine.holds(source, self.clock.ms())
    }

    /// What the last call did.
    pub fn out(&self) -> &StepOut
        ensures { result.now ≡ self.now.out }
    {
        &self.out
    }

    /// The clock from which on a deadline is reached, in milliseconds: until then nothing happens but by packets and answers. None
    /// where the member does not run.
    pub fn next_deadline(&self) -> Option<u64>
        ensures { Answers self.now.engine (λ made past. next_deadline made past) result }
    {
        self.engine.next_deadline()
    }

    /// The view in which the member is.
    pub fn current_view(&self) -> View {
        self.engine.current_view()
    }

    /// The engine, by itself.
    pub fn into_engine(self) -> Engine<S, L, J>
        ensures { result ≡ self.engine }
    {
        let Node { engine, .. } = self;
        engine
    }
}

// How a call ended that the engine took.
fn ended(outcome: Outcome) -> Result<(), NodeError>
    ensures { result ≡ ended outcome }
{
    match outcome {
        Outcome::Done | Outcome::Idle | Outcome::Refused => Ok(()),
        Outcome::Journal | Outcome::Cut => Err(NodeError::Journal),
    }
}

// What an engine's refusal is to a host.
fn error_of(error: PollError) -> NodeError
    ensures { result ≡ error_of error }
{
    match error {
        PollError::Memory | PollError::Failed => NodeError::Memory,
        PollError::Stopped => NodeError::Stopped,
        PollError::NotPending => NodeError::NotPending,
    }
}
