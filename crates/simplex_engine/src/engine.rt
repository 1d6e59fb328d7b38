//! The engine.
#![tactic(auto, unfolding(crate::specs::Stands::StandsFor, crate::specs::Stands::StandsOver))]

ghost use Rattle.std.specs.Prelude.{◌≡◌, ◌<◌, ◌≤◌, ◌^◌, List, [], not, true, false, Some, None, Err, OnOk, IfOk, IfErr, IfSome};
ghost use Rattle.model_rules.specs.Views.{current_of};
ghost use Rattle.simplex_journal.specs.Order.{no_order};
ghost use Rattle.simplex_messages.specs.Step.{no_out};
ghost use Rattle.model_steps.specs.VoterLife.{place_of};
ghost use Rattle.model_steps.specs.Engine.{EngineMade, Did, begun, runs, is_whole, is_blocked, sections_of, voter_in, voter_past};
ghost use Rattle.simplex_engine.specs.Config.{engine_made, first_bad, Refused};
ghost use Rattle.simplex_engine.specs.Holding.{holds, next_deadline};
ghost use Rattle.simplex_engine.specs.Polled.{polled, refusal_of, is_memory};
ghost use Rattle.simplex_voter.specs.Turned.{FaultsAt};
ghost use Rattle.simplex_engine.specs.Stands.{StandsFor, Takes, Stays, Gives, Starts, GivesFirst, FailsAfter, has_begun, has_failed};
ghost use Rattle.simplex_engine.specs.declared.stage.Stage.TheVariants as stages;
ghost use Rattle.simplex_engine.specs.Settled.{halted, settled_in, clock_after};
ghost use Rattle.simplex_engine.specs.Stands.{StandsOver, StaysOver, Answers, Fares, FaresFirst, CrewStands, journal_of, faults_of, has_stopped, is_running, not_running, clock_of};
ghost use Rattle.simplex_voter.specs.Actor as voters;

use crate::boxes::Boxes;
use crate::clock::Clock;
use crate::config::EngineConfig;
use crate::crew::Crew;
use crate::error::{NewError, PollError};
use crate::input::{Input, Polled};
use crate::stage::{Stage, crew_of, is_at_work, stage_after};
use crate::unstarted::Unstarted;
use simplex_journal::Journal;
use simplex_messages::{Outcome, StepOut, Stop};
use simplex_transcript::StepSource;
use simplex_types::elector::Elector;
use simplex_types::{Keep, Participant, Scheme, View};
use std::alloc::{AllocError, Global};
use std::mem;

/// The actors of a member, and the mail between them.
pub struct Engine<S: Scheme, L: Elector, J: Journal> {
    alloc: Global,
    // of the last call that was not refused
    clock: Clock,
    stage: Stage<S, L, J>,
}

// By hand, so that who holds an engine at given types lets it go by one call. [dropped-by-a-call]
impl<S: Scheme + Drop, L: Elector + Drop, J: Journal + Drop> Drop for Engine<S, L, J> {
    fn drop(self) {
        let Engine {
            alloc: _alloc,
            clock: _clock,
            stage,
        } = self;
        match stage {
            Stage::Waiting(unstarted) => drop(unstarted),
            Stage::Running(crew) | Stage::Stopped(crew) => drop(crew),
            Stage::Failed => {}
        }
    }
}

impl<S: Scheme + Keep + Drop, L: Elector + Drop, J: Journal + Drop> Engine<S, L, J> {
    /// An engine that was not started, over what the journal holds. Of a journal that tells which of its calls fails, and
    /// names none, more is known than of any other.
    pub fn new(
        alloc: Global,
        config: EngineConfig<S, L>,
        journal: J,
    ) -> Result<Engine<S, L, J>, NewError>
        requires built { L.built_for config.elector ≡ S.members config.scheme }
        requires lookahead { (L.cuts config.elector).lookahead ≤ 2 ^ 32 }
        requires stall { IfSome (L.cuts config.elector).stall_timeout
            (λ stall. (config.certification_timeout < stall) × (stall ≤ 2 ^ 62)) }
        ensures stands { IfOk result (λ engine. J.order journal ≡ Some no_order
            → StandsFor engine
            (engine_made S.attests S.verifies S.recovers S.members S.member L.elects L.cuts config
            (J.sections journal)) []) }
        ensures over { IfOk result
            (λ engine. StandsOver engine
            (engine_made S.attests S.verifies S.recovers S.members S.member L.elects L.cuts config
            (J.sections journal)) []) }
        ensures journal { IfOk result (λ engine. journal_of engine ≡ Some journal) }
        ensures alive { IfOk result (λ engine. has_failed engine ≡ false) }
        ensures clock { IfOk result (λ engine. clock_of engine ≡ 0) }
        ensures allowed { IfOk result (λ _. first_bad config ≡ None) }
        ensures refused { IfErr result (λ error. Refused error (first_bad config)) }
    {
        match config.first_bad() {
            Some(field) => Err(NewError::BadConfig(field)),
            None => Ok(Engine::make(alloc, config, journal)?),
        }
    }

    /// An engine of a configuration that keeps the limits.
    fn make(
        alloc: Global,
        config: EngineConfig<S, L>,
        journal: J,
    ) -> Result<Engine<S, L, J>, AllocError>
        requires good { first_bad config ≡ None }
        requires built { L.built_for config.elector ≡ S.members config.scheme }
        requires lookahead { (L.cuts config.elector).lookahead ≤ 2 ^ 32 }
        requires stall { IfSome (L.cuts config.elector).stall_timeout
            (λ stall. (config.certification_timeout < stall) × (stall ≤ 2 ^ 62)) }
        ensures stands { IfOk result (λ engine. J.order journal ≡ Some no_order
            → StandsFor engine
            (engine_made S.attests S.verifies S.recovers S.members S.member L.elects L.cuts config
            (J.sections journal)) []) }
        ensures over { IfOk result
            (λ engine. StandsOver engine
            (engine_made S.attests S.verifies S.recovers S.members S.member L.elects L.cuts config
            (J.sections journal)) []) }
        ensures journal { IfOk result (λ engine. journal_of engine ≡ Some journal) }
        ensures alive { IfOk result (λ engine. has_failed engine ≡ false) }
        ensures clock { IfOk result (λ engine. clock_of engine ≡ 0) }
    {
        let boxes = Boxes::new(alloc, config.mailbox)?;
        let for_batcher = config.for_batcher(alloc)?;
        let batcher = simplex_batcher::Actor::new(alloc, for_batcher)?;
        let for_resolver = config.for_resolver(alloc)?;
        let resolver = simplex_resolver::Actor::new(alloc, for_resolver)?;
        let unstarted = Unstarted {
            config: config.into_voter(),
            journal,
            batcher,
            resolver,
            boxes,
        };
        Ok(Engine {
            alloc,
            clock: Clock { ms: 0 },
            stage: Stage::Waiting(unstarted),
        })
    }
}

impl<S: Scheme + Drop, L: Elector + Drop, J: Journal + Drop> Engine<S, L, J> {
    /// Starts the engine at this clock. It is started once: an engine that was is refused as stopped.
    pub fn start(&mut self, now: u64, stop: &Stop, out: &mut StepOut) -> Result<Outcome, PollError>
        requires clock { now < 2 ^ 63 }
        requires empty { out.old ≡ no_out }
        ensures stands { IfOk result (λ _. Starts self.old self.new
            (λ made. begun made now stop.now)) }
        ensures gives { IfOk result (λ outcome. GivesFirst self.old
            (λ made. begun made now stop.now) outcome out.new) }
        ensures over { IfOk result
            (λ outcome. FaresFirst self.old self.new now stop.now outcome out.new) }
        ensures faults { IfOk result
            (λ outcome. FaultsAt outcome (faults_of self.old) (faults_of self.new)) }
        ensures stops { IfOk result (λ outcome. has_stopped self.new ≡ not (is_whole outcome)) }
        ensures stopped { has_stopped self.old ≡ true → result ≡ Err PollError.Stopped }
        ensures refused { IfErr result (λ error. (made : EngineMade) → StandsOver self.old made []
            → is_memory error ≡ true) }
        ensures again { (made : EngineMade) (past : List Did) → StandsOver self.old made past
            → has_begun past ≡ true → result ≡ Err PollError.Stopped }
        ensures same { IfErr result (λ error. is_memory error ≡ false → self.new ≡ self.old) }
        ensures clock { OnOk result (clock_of self.new ≡ now) }
        ensures stays { IfErr result (λ error. is_memory error ≡ false → Stays self.old self.new) }
        ensures failed { IfErr result (FailsAfter self.old self.new) }
        ensures sound { OnOk result (has_failed self.old ≡ false) }
        ensures alive { OnOk result (has_failed self.new ≡ false) }
    {
        match mem::replace(&mut self.stage, Stage::Failed) {
            Stage::Waiting(unstarted) => {
                let mut crew = crew_of(unstarted, self.alloc, now)?;
                let outcome = crew.start(now, stop, out)?;
                self.stage = stage_after(crew, outcome);
                self.clock = Clock { ms: now };
                Ok(outcome)
            }
            Stage::Running(crew) => {
                self.stage = Stage::Running(crew);
                Err(PollError::Stopped)
            }
            Stage::Stopped(crew) => {
                self.stage = Stage::Stopped(crew);
                Err(PollError::Stopped)
            }
            Stage::Failed => Err(PollError::Failed),
        }
    }

    /// Gives the engine an input. What it did stands in `out`. An order to stop is one for a step.
    pub fn poll(
        &mut self,
        input: Input,
        now: u64,
        stop: &Stop,
        out: &mut StepOut,
    ) -> Result<Polled, PollError>
        requires clock { now < 2 ^ 63 }
        requires empty { out.old ≡ no_out }
        ensures stands { IfOk result (λ _. Takes self.old self.new
            (λ made past. polled made past input now stop.now)) }
        ensures gives { IfOk result (λ given. Gives self.old
            (λ made past. polled made past input now stop.now) given.outcome given.taken out.new) }
        ensures stays { IfErr result (λ error. is_memory error ≡ false → Stays self.old self.new) }
        ensures over { IfOk result (λ given. Fares self.old self.new stop.now
            (λ turned made past. polled made past input now turned) given.outcome given.taken out.new) }
        ensures faults { IfOk result
            (λ given. FaultsAt given.outcome (faults_of self.old) (faults_of self.new)) }
        ensures stops { IfOk result (λ given. has_stopped self.new ≡ not (is_whole given.outcome)) }
        ensures stopped { has_stopped self.old ≡ true → result ≡ Err PollError.Stopped }
        ensures still { IfErr result (λ error. is_memory error ≡ false
            → has_stopped self.new ≡ has_stopped self.old) }
        ensures accepted { IfOk result (λ _. Answers self.old
            (λ made past. refusal_of made past input) None) }
        ensures refused { IfErr result (λ error. is_memory error ≡ false
            → Answers self.old (λ made past. refusal_of made past input) (Some error)) }
        ensures stays_over { IfErr result (λ error. is_memory error ≡ false
            → StaysOver self.old self.new) }
        ensures clock { OnOk result (clock_of self.new ≡ now) }
        ensures clock_stays { IfErr result (λ error. is_memory error ≡ false
            → clock_of self.new ≡ clock_of self.old) }
        ensures journal { IfErr result (λ error. is_memory error ≡ false
            → journal_of self.new ≡ journal_of self.old) }
        ensures failed { IfErr result (FailsAfter self.old self.new) }
        ensures sound { OnOk result (has_failed self.old ≡ false) }
        ensures alive { OnOk result (has_failed self.new ≡ false) }
    {
        let before = self.clock;
        let result = match &mut self.stage {
            Stage::Running(crew) => crew.poll(input, now, stop, out),
            Stage::Waiting(_) => return Err(PollError::Stopped),
            Stage::Stopped(_) => return Err(PollError::Stopped),
            Stage::Failed => return Err(PollError::Failed),
        };
        self.settle(&result);
        self.clock = clock_after(before, &result, now);
        result
    }

    /// The actors stay where they lie, unless the poll was broken off or there was no memory for it.
    fn settle(&mut self, given: &Result<Polled, PollError>)
        ensures { self.new.stage ≡ settled_in self.old.stage given.now }
    {
        match given {
            Ok(polled) => match polled.outcome {
                Outcome::Done | Outcome::Idle | Outcome::Refused => {}
                Outcome::Journal | Outcome::Cut => self.halt(),
            },
            Err(PollError::Memory) => self.fail(),
            Err(PollError::Failed | PollError::Stopped | PollError::NotPending) => {}
        }
    }

    /// A step was broken off. [actors-stay]
    #[cold]
    #[inline(never)]
    fn halt(&mut self)
        ensures { self.new.stage ≡ halted self.old.stage }
    {
        match mem::replace(&mut self.stage, Stage::Failed) {
            Stage::Running(crew) => self.stage = Stage::Stopped(crew),
            Stage::Waiting(unstarted) => self.stage = Stage::Waiting(unstarted),
            Stage::Stopped(crew) => self.stage = Stage::Stopped(crew),
            Stage::Failed => {}
        }
    }

    /// There was no memory for a call. [broken-is-dropped]
    #[cold]
    #[inline(never)]
    fn fail(&mut self)
        ensures { self.new.stage ≡ stages.Failed }
    {
        match mem::replace(&mut self.stage, Stage::Failed) {
            Stage::Waiting(unstarted) => drop(unstarted),
            Stage::Running(crew) | Stage::Stopped(crew) => drop(crew),
            Stage::Failed => {}
        }
    }

    /// Whether there was no memory for an earlier call. Such an engine refuses all, and has no journal.
    /// [failed-engines-refuse]
    pub fn has_failed(&self) -> bool
        ensures { result ≡ has_failed self.now }
    {
        matches!(self.stage, Stage::Failed)
    }

    /// The journal.
    pub fn journal(&self) -> &J
        requires { has_failed self.now ≡ false }
        ensures sections { Answers self.now
            (λ made past. sections_of made past) (J.sections result.now) }
        ensures whole { journal_of self.now ≡ Some result.now }
    {
        match &self.stage {
            Stage::Waiting(unstarted) => &unstarted.journal,
            Stage::Running(crew) => crew.journal(),
            Stage::Stopped(crew) => crew.journal(),
            Stage::Failed => unreachable!(),
        }
    }

    /// The journal, by itself.
    pub fn into_journal(mut self) -> J
        requires { has_failed self ≡ false }
        ensures sections { Answers self (λ made past. sections_of made past) (J.sections result) }
        ensures whole { journal_of self ≡ Some result }
    {
        match mem::replace(&mut self.stage, Stage::Failed) {
            Stage::Waiting(Unstarted { journal, .. }) => journal,
            Stage::Running(crew) => crew.into_journal(),
            Stage::Stopped(crew) => crew.into_journal(),
            Stage::Failed => unreachable!(),
        }
    }

    /// The actors of an engine that runs, and the mail between them, for whoever steps each of them itself.
    /// [threads-above-the-engine]
    pub fn into_crew(mut self) -> Result<Crew<S, L, J>, PollError>
        ensures stands { IfOk result (λ crew. (made : EngineMade) (past : List Did)
            → StandsFor self made past → CrewStands true crew made past) }
        ensures over { IfOk result (λ crew. (made : EngineMade) (past : List Did)
            → StandsOver self made past → CrewStands false crew made past) }
        ensures journal { IfOk result (λ crew. journal_of self
            ≡ Some (voters.journal_of crew.voter)) }
        ensures running { IfOk result (λ _. is_running self ≡ true) }
        ensures refused { IfErr result (λ error. (is_running self ≡ false)
            × (error ≡ not_running self)) }
    {
        match mem::replace(&mut self.stage, Stage::Failed) {
            Stage::Running(crew) => Ok(crew),
            Stage::Waiting(unstarted) => {
                drop(unstarted);
                Err(PollError::Stopped)
            }
            Stage::Stopped(crew) => {
                drop(crew);
                Err(PollError::Stopped)
            }
            Stage::Failed => Err(PollError::Failed),
        }
    }

    /// What is known of an engine over a journal that tells that no call of it will fail is known of it over any.
    pub fn stands_over(&self)
        ensures { (made : EngineMade) (past : List Did) → StandsFor self.now made past
            → StandsOver self.now made past }
    {}

    /// Whether it takes inputs: it was started, and no step was broken off since.
    pub fn is_running(&self) -> bool
        ensures value { result ≡ is_running self.now }
        ensures runs { (made : EngineMade) (past : List Did) → StandsOver self.now made past
            → is_running self.now ≡ runs past }
    {
        is_at_work(&self.stage)
    }

    /// The clock of the last call that was not refused, in milliseconds; before the start 0.
    pub fn clock(&self) -> u64
        ensures value { result ≡ clock_of self.now }
        ensures in_time { result < 2 ^ 63 }
    {
        self.clock.ms
    }

    /// Whether a call of the engine blocked the member since its start. Packets of such a member are refused. Before a
    /// start, and after want of memory, it is no one.
    pub fn is_blocked(&self, member: Participant) -> bool
        ensures { Answers self.now (λ made past. is_blocked past member) result }
    {
        match &self.stage {
            Stage::Running(crew) => crew.is_blocked(member),
            Stage::Stopped(crew) => crew.is_blocked(member),
            Stage::Waiting(_) => false,
            Stage::Failed => false,
        }
    }

    /// The view that the voter is in, while the engine runs; before its start 1.
    pub fn current_view(&self) -> View
        ensures running { (made : EngineMade) (past : List Did) → StandsOver self.now made past
            → runs past ≡ true → result ≡ current_of (voter_in made past).rules
            (place_of (voter_in made past) (voter_past past)).standing.desk.known }
        ensures waiting { (made : EngineMade) → StandsOver self.now made [] → result ≡ 1 }
    {
        match &self.stage {
            Stage::Running(crew) => crew.current_view(),
            Stage::Stopped(crew) => crew.current_view(),
            Stage::Waiting(_) => View(1),
            Stage::Failed => View(1),
        }
    }

    /// Whether the source of a step holds something at this clock, while the engine runs.
    pub fn holds(&self, source: StepSource, now: u64) -> bool
        ensures { (made : EngineMade) (past : List Did) → StandsOver self.now made past
            → runs past ≡ true → result ≡ holds made past source now }
    {
        match &self.stage {
            Stage::Running(crew) => crew.holds(source, now),
            Stage::Stopped(_) => false,
            Stage::Waiting(_) => false,
            Stage::Failed => false,
        }
    }

    /// The clock from which on a step of the timer or of the fetcher holds something, in milliseconds: before it no clock
    /// alone makes the engine do anything. None of an engine that does not run.
    #[tactic(auto, unfolding(crate::specs::Stands::StandsOver, crate::specs::Holding::next_deadline, model_steps::specs::Engine::runs))]
    pub fn next_deadline(&self) -> Option<u64>
        ensures { Answers self.now (λ made past. next_deadline made past) result }
    {
        match &self.stage {
            Stage::Running(crew) => Some(crew.next_deadline()),
            Stage::Stopped(_) => None,
            Stage::Waiting(_) => None,
            Stage::Failed => None,
        }
    }
}

// The clock after a poll that ended so: a refused one leaves it.
fn clock_after(before: Clock, given: &Result<Polled, PollError>, now: u64) -> Clock
    requires { now < 2 ^ 63 }
    ensures { result.ms ≡ clock_after before.ms given.now now }
{
    match given {
        Ok(_) => Clock { ms: now },
        Err(_) => before,
    }
}
