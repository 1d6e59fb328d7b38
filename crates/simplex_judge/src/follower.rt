//! A node with an engine, followed through the entries.
ghost use Rattle.std.specs.Prelude.{◌≡◌, ◌<◌, ◌&&◌, [], length, IsNone, IfOk};
ghost use Rattle.std.specs.Option.{option_map};
ghost use Rattle.simplex_transcript.specs.declared.node.Node.{Node};
ghost use Rattle.model_run.specs.Setting.{Setting};
ghost use Rattle.model_run.specs.Setups as setups;
ghost use Rattle.model_audit.specs.Running as running;
ghost use Rattle.model_audit.specs.VotesDue as votes_due;
ghost use Rattle.simplex_due.specs.Due.{votes_in};
ghost use Rattle.simplex_judge.specs.Followed.{IsFollowed, GoesOn, StartsOn, StepsOn, request_listed, attests_by, whole_sends};

use crate::sending::{nothing_due, sends};
use model_audit::{AuditEntry, AuditTook};
use model_rules::Asked;
use simplex_case::asked_at;
use simplex_due::Due;
use simplex_engine::EngineConfig;
use simplex_members::{NodeScheme, config_of};
use simplex_messages::{Outcome, Stop};
use simplex_reader::Reader;
use simplex_transcript::{Event, Setup, StepSource};
use simplex_types::{Digest, Finalization, Participant};
use std::alloc::{AllocError, Global};

/// What the entries tell of a node with an engine, and how it signs.
#[derive(Drop)]
pub(crate) struct Follower {
    pub(crate) scheme: NodeScheme,
    pub(crate) reader: Reader,
}

impl Follower {
    /// A node of the member, of which there is no entry.
    pub(crate) fn new(
        alloc: Global,
        setup: &Setup,
        member: Participant,
    ) -> Result<Follower, AllocError>
        requires good { IsNone (setups.first_bad setup.now) }
        requires below { member < length setup.now.members }
        ensures { IfOk result (λ follower. (setting : Setting) (node : Node) → setting.setup ≡ setup.now → node.member ≡ member
            → IsFollowed follower setting [] node) }
    {
        Ok(Follower {
            scheme: scheme_of(alloc, setup, member)?,
            reader: Reader::new(alloc, setup),
        })
    }

    /// Takes in the entry of an event of the node. Whether it sends the votes that are due.
    pub(crate) fn follow(
        &mut self,
        alloc: Global,
        prior: &[AuditEntry],
        event: &Event,
        entry: &AuditEntry,
    ) -> Result<bool, AllocError>
        ensures { IfOk result (λ due. GoesOn self.old self.new prior.now event.now entry.now due) }
    {
        match event {
            Event::Start { floor, stop, .. } => self.start(alloc, floor, *stop, entry),
            Event::Step { source, stop, .. } => self.step(alloc, prior, *source, *stop, entry),
            Event::Deliver { .. } => {
                self.reader.take_input(alloc, entry)?;
                Ok(true)
            }
            Event::Answer { .. } => {
                self.reader.take_input(alloc, entry)?;
                Ok(true)
            }
            Event::Crash { .. } => {
                self.reader.take_crash(alloc, entry)?;
                Ok(true)
            }
            Event::Tick { .. } => Ok(true),
            Event::Inject { .. } => Ok(true),
        }
    }

    // Takes in the entry of a start.
    fn start(
        &mut self,
        alloc: Global,
        floor: &Option<Finalization>,
        stop: Stop,
        entry: &AuditEntry,
    ) -> Result<bool, AllocError>
        ensures { IfOk result (λ due. StartsOn self.old self.new floor.now stop entry.now due) }
    {
        self.reader.take_start(alloc, floor, stop, entry)?;
        if !is_done(entry.outcome) {
            return Ok(true);
        }
        sends(alloc, entry.packets.as_slice(), &nothing_due())
    }

    // Takes in the entry of a step.
    fn step(
        &mut self,
        alloc: Global,
        prior: &[AuditEntry],
        source: StepSource,
        stop: Stop,
        entry: &AuditEntry,
    ) -> Result<bool, AllocError>
        ensures { IfOk result
            (λ due. StepsOn self.old self.new prior.now source stop entry.now due) }
    {
        let asked = request_of(prior, &entry.took);
        match self
            .reader
            .take_step(alloc, &self.scheme, source, stop, entry, asked)
        {
            Err(AllocError) => Err(AllocError),
            Ok(due) => sends_whole(alloc, source, entry, &due),
        }
    }
}

// How a node of the member signs.
fn scheme_of(alloc: Global, setup: &Setup, member: Participant) -> Result<NodeScheme, AllocError>
    requires good { IsNone (setups.first_bad setup.now) }
    requires below { member < length setup.now.members }
    ensures { IfOk result (λ scheme. attests_by scheme setup.now member) }
{
    // No scheme rests on the genesis digest.
    let config = config_of(alloc, setup, Digest([0; 32]), member, &None)?;
    let EngineConfig { scheme, .. } = config;
    Ok(scheme)
}

// The request whose answer was taken.
fn request_of<'a>(prior: &'a [AuditEntry], took: &AuditTook) -> Option<&'a Asked>
    ensures { option_map (λ asked. asked.now) result ≡ request_listed prior.now took.now }
{
    match took {
        AuditTook::Request(at, _) => asked_at(prior, *at),
        _ => None,
    }
}

// Whether a step was made to its end.
fn is_done(outcome: Outcome) -> bool
    ensures { result ≡ running.is_done outcome }
{
    matches!(outcome, Outcome::Done)
}

// Whether a step of the voter that was made to its end sends these votes and no other.
fn sends_whole(
    alloc: Global,
    source: StepSource,
    entry: &AuditEntry,
    due: &Due,
) -> Result<bool, AllocError>
    ensures { IfOk result (λ sent. sent ≡ whole_sends source entry.now (votes_in due.now)) }
{
    if !is_whole_of_voter(source, entry.outcome) {
        return Ok(true);
    }
    sends(alloc, entry.packets.as_slice(), due)
}

// Whether it is a step of the voter that was made to its end.
fn is_whole_of_voter(source: StepSource, outcome: Outcome) -> bool
    ensures { result ≡ (votes_due.is_of_voter source && running.is_done outcome) }
{
    is_of_voter(source) && is_done(outcome)
}

// Whether it is a step of the voter.
fn is_of_voter(source: StepSource) -> bool
    ensures { result ≡ votes_due.is_of_voter source }
{
    match source {
        StepSource::Voter
        | StepSource::Timer
        | StepSource::Propose
        | StepSource::Verify
        | StepSource::Certify => true,
        StepSource::Batcher | StepSource::Resolver | StepSource::Handler | StepSource::Fetch =>
            false,
    }
}
