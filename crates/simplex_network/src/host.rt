//! A node's place in the network: its engine, or its journal while it is stopped, or a faulty member without an engine.
#![tactic(auto, unfolding(crate::specs::Opened::hosts))]

ghost use Rattle.std.specs.Prelude.{◌≡◌, ◌<◌, ◌≤◌, ◌^◌, ◌∷◌, ℕ, List, true, false, IfOk, IfErr, IfSome, OnOk, None, Some};
ghost use Rattle.std.specs.Option.{option_map};
ghost use Rattle.simplex_messages.specs.Step.{no_out};
ghost use Rattle.simplex_journal.specs.Journal.{crashed};
ghost use Rattle.simplex_transcript.specs.declared.setup.Setup.{Setup};
ghost use Rattle.model_steps.specs.Engine.{EngineMade, Did, runs, is_whole, sections_of};
ghost use Rattle.model_run.specs.Life.{Stopped, sections_in, going_on};
ghost use Rattle.model_run.specs.Members.{kind_of};
ghost use Rattle.model_run.specs.Mocks.{Heard, heard_by};
ghost use Rattle.simplex_engine.specs.Config.{first_bad};
ghost use Rattle.simplex_engine.specs.Polled.{is_memory};
ghost use Rattle.simplex_members.specs.NodeEngine.{made_with};
ghost use Rattle.simplex_network.specs.NodeEngine.{EngineStands, JournalStands};
ghost use Rattle.simplex_network.specs.Parts.{Part, Lives, Hears, goes_on, status_of, status_in, refusal_in, after_poll, IsPolled, IsStarted, after_start};
ghost use Rattle.model_run.specs.Kinds.{is_of_kind};
ghost use Rattle.law_run.specs.EventForging.{is_impersonator};
ghost use Rattle.simplex_network.specs.Stands.{HostStands, OfItsPart, OfItsLife, LivesOn, Settles, EngineOf};
ghost use Rattle.simplex_mocks.specs.Hearing.{bytes_heard};

use crate::journal::{NodeJournal, new_journal};
use crate::status::Status;
use model_faults::Sent;
use simplex_engine::{Engine, Input, NewError, PollError, Polled};
use simplex_journal::Journal;
use simplex_members::{FaultyMember, NodeConfig, NodeElector, NodeScheme};
use simplex_messages::{Outcome, StepOut, Stop};
use simplex_types::{Channel, Sequence};
use std::alloc::{AllocError, Global};
use std::mem;

/// The engine of a node.
pub type NodeEngine = Engine<NodeScheme, NodeElector, NodeJournal>;

/// A stopped node's journal, a running node's engine, or a faulty member that only answers what it hears. A host that
/// is lent is away.
#[derive(Drop)]
pub(crate) enum Host {
    Stopped(NodeJournal),
    Running(NodeEngine),
    Faulty(FaultyMember),
    Away,
}

impl Host {
    /// The engine, where one runs.
    pub(crate) fn engine(&self) -> Option<&NodeEngine>
        ensures { OfItsPart self.now
            (λ part. EngineOf part (option_map (λ engine. engine.now) result)) }
    {
        match self {
            Host::Stopped(_) | Host::Faulty(_) | Host::Away => None,
            Host::Running(engine) => Some(engine),
        }
    }

    /// What the node is at.
    pub(crate) fn status(&self) -> Status
        ensures { OfItsPart self.now (λ part. goes_on part ≡ true → result ≡ status_in part) }
    {
        match self {
            Host::Stopped(_) => Status::Stopped,
            Host::Away => Status::Stopped,
            Host::Running(engine) => Status::Running(engine.current_view()),
            Host::Faulty(_) => Status::Faulty,
        }
    }

    /// Gives an input to the engine, where one runs. A broken step stops it.
    pub(crate) fn poll(
        &mut self,
        alloc: Global,
        input: Input,
        now: u64,
        stop: &Stop,
        out: &mut StepOut,
    ) -> Result<Polled, PollError>
        requires clock { now < 2 ^ 63 }
        requires empty { out.old ≡ no_out }
        ensures gives { IfOk result (λ polled. OfItsLife self.old
            (λ life. IsPolled life input now stop.now polled.outcome polled.taken out.new)) }
        ensures stands { IfOk result
            (λ _. LivesOn self.old self.new (after_poll input now stop.now)) }
        ensures refused { IfErr result (λ error. is_memory error ≡ false
            → OfItsLife self.old (λ life. refusal_in life input ≡ Some error)) }
        ensures stays { IfErr result (λ error. is_memory error ≡ false → (setup : Setup) (member : ℕ) (part : Part)
            → HostStands setup member self.old part → HostStands setup member self.new part) }
    {
        let Host::Running(engine) = self else {
            return Err(PollError::Stopped);
        };
        let polled = match engine.poll(input, now, stop, out) {
            Ok(polled) => polled,
            Err(error) => return Err(error),
        };
        self.settle(alloc, polled.outcome)?;
        Ok(polled)
    }

    /// Lets a faulty member without an engine hear the bytes, and gives what it sends. Others send nothing.
    pub(crate) fn hear(
        &mut self,
        alloc: Global,
        channel: Channel,
        bytes: &[u8],
    ) -> Result<Sequence<Sent>, AllocError>
        ensures sends { IfOk result (λ sent. (setup : Setup) (member : ℕ) (past : List Heard)
            → HostStands setup member self.old (Hears past)
            → sent ≡ heard_by setup member (kind_of setup member) past
            (bytes_heard channel bytes.now)) }
        ensures stands { OnOk result ((setup : Setup) (member : ℕ) (past : List Heard)
            → HostStands setup member self.old (Hears past)
            → HostStands setup member self.new (Hears (bytes_heard channel bytes.now ∷ past))) }
        ensures unmoved { OnOk result ((setup : Setup) (member : ℕ) (past : List Heard)
            → is_of_kind is_impersonator setup member ≡ true
            → HostStands setup member self.old (Hears past)
            → HostStands setup member self.new (Hears past)) }
    {
        let Host::Faulty(faulty) = self else {
            return Ok(Sequence::new(alloc));
        };
        let sent = faulty.hear(alloc, channel, bytes)?;
        Ok(sent)
    }

    /// Starts an engine over the journal. A broken start stops it.
    pub(crate) fn start(
        &mut self,
        alloc: Global,
        config: NodeConfig,
        now: u64,
        stop: &Stop,
        out: &mut StepOut,
    ) -> Result<Outcome, PollError>
        requires built { config.elector.fallback.members ≡ config.scheme.inner.participants }
        requires lookahead { config.elector.fallback.terms.lookahead ≤ 2 ^ 32 }
        requires stall { IfSome config.elector.fallback.terms.stall_timeout
            (λ stall. (config.certification_timeout < stall) × (stall ≤ 2 ^ 62)) }
        requires allowed { first_bad config ≡ None }
        requires clock { now < 2 ^ 63 }
        requires empty { out.old ≡ no_out }
        ensures gives { IfOk result (λ outcome. OfItsLife self.old
            (λ life. IsStarted
            (made_with config (sections_in life)) now stop.now outcome out.new)) }
        ensures stands { IfOk result (λ _. LivesOn self.old self.new
            (λ life. after_start (made_with config (sections_in life)) now stop.now)) }
        ensures memory { IfErr result (λ error. is_memory error ≡ true) }
    {
        let journal = self.take_journal(alloc)?;
        let mut engine = match Engine::new(alloc, config, journal) {
            Ok(engine) => engine,
            Err(NewError::BadConfig(_)) => unreachable!(),
            Err(NewError::Memory) => return Err(PollError::Memory),
        };
        let outcome = engine.start(now, stop, out)?;
        *self = settled(engine, outcome)?;
        Ok(outcome)
    }

    /// Stops the node, which loses what its journal had not synced.
    pub(crate) fn crash(&mut self, alloc: Global) -> Result<(), PollError>
        ensures stands { OnOk result (LivesOn self.old self.new
            (λ life. Stopped (crashed 0 (sections_in life)))) }
        ensures memory { IfErr result (λ error. is_memory error ≡ true) }
    {
        let mut journal = self.take_journal(alloc)?;
        journal.crash(0);
        *self = Host::Stopped(journal);
        Ok(())
    }

    // Stops an engine whose step was broken.
    fn settle(&mut self, alloc: Global, outcome: Outcome) -> Result<(), PollError>
        ensures stands { OnOk result (Settles self.old self.new (is_whole outcome)) }
        ensures memory { IfErr result (λ error. is_memory error ≡ true) }
    {
        match outcome {
            Outcome::Done | Outcome::Idle | Outcome::Refused => Ok(()),
            Outcome::Cut | Outcome::Journal => self.halt(alloc),
        }
    }

    // The engine gives way to its journal.
    #[cold]
    #[inline(never)]
    fn halt(&mut self, alloc: Global) -> Result<(), PollError>
        ensures stands { OnOk result (Settles self.old self.new false) }
        ensures memory { IfErr result (λ error. is_memory error ≡ true) }
    {
        let journal = self.take_journal(alloc)?;
        *self = Host::Stopped(journal);
        Ok(())
    }

    // The journal. Nothing is left, and behind want of memory there may be none.
    fn take_journal(&mut self, alloc: Global) -> Result<NodeJournal, PollError>
        ensures stands { IfOk result (λ journal. OfItsLife self.old
            (λ life. JournalStands journal (sections_in life))) }
        ensures memory { IfErr result (λ error. is_memory error ≡ true) }
    {
        let host = mem::replace(self, Host::Away);
        journal_of(alloc, host)
    }
}

// What a stop leaves. Where there is no engine and none was stopped, the journal is a new one.
fn journal_of(alloc: Global, host: Host) -> Result<NodeJournal, PollError>
    ensures stands { IfOk result (λ journal. OfItsLife host
        (λ life. JournalStands journal (sections_in life))) }
    ensures memory { IfErr result (λ error. is_memory error ≡ true) }
{
    match host {
        Host::Stopped(journal) => Ok(journal),
        Host::Faulty(_) | Host::Away => {
            let journal = new_journal(alloc)?;
            Ok(journal)
        }
        Host::Running(engine) => left_by(engine),
    }
}

// What an engine leaves. Behind want of memory it is nothing.
fn left_by(engine: NodeEngine) -> Result<NodeJournal, PollError>
    ensures stands { IfOk result (λ journal. (made : EngineMade) (past : List Did) → EngineStands engine made past
        → JournalStands journal (sections_of made past)) }
    ensures memory { IfErr result (λ error. is_memory error ≡ true) }
{
    if engine.has_failed() {
        return Err(PollError::Memory);
    }
    Ok(engine.into_journal())
}

// The engine runs, unless its step was broken.
fn settled(engine: NodeEngine, outcome: Outcome) -> Result<Host, PollError>
    ensures stands { IfOk result (λ host. (setup : Setup) (member : ℕ) (made : EngineMade) (past : List Did)
        → runs past ≡ is_whole outcome → EngineStands engine made past
        → HostStands setup member host (Lives (going_on made past))) }
    ensures memory { IfErr result (λ error. is_memory error ≡ true) }
{
    match outcome {
        Outcome::Done | Outcome::Idle | Outcome::Refused => Ok(Host::Running(engine)),
        Outcome::Cut | Outcome::Journal => {
            let journal = left_by(engine)?;
            Ok(Host::Stopped(journal))
        }
    }
}
