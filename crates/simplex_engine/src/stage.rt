//! How far an engine is.
#![tactic(auto, unfolding(crate::specs::Stands::CrewStands, model_steps::specs::Engine::runs))]

ghost use Rattle.std.specs.Prelude.{◌≡◌, ◌<◌, ◌^◌, Bool, IfOk};
ghost use Rattle.model_steps.specs.Engine.{EngineMade};
ghost use Rattle.simplex_voter.specs.Actor.{journal_of};
ghost use Rattle.simplex_engine.specs.Stands.{Waits, Fresh, settled, is_at_work};

use crate::crew::Crew;
use crate::unstarted::Unstarted;
use simplex_journal::Journal;
use simplex_messages::Outcome;
use simplex_types::Scheme;
use simplex_types::elector::Elector;
use std::alloc::{AllocError, Global};
use std::collections::BTreeSet;

/// How far an engine is.
#[derive(Drop)]
pub(crate) enum Stage<S: Scheme, L: Elector, J: Journal> {
    /// It was not started.
    Waiting(Unstarted<S, L, J>),
    /// It takes inputs.
    Running(Crew<S, L, J>),
    /// A step was broken off.
    Stopped(Crew<S, L, J>),
    /// There was no memory for a call.
    Failed,
}

/// The actors, just made: the voter is made at this clock.
pub(crate) fn crew_of<S: Scheme + Drop, L: Elector + Drop, J: Journal + Drop>(
    unstarted: Unstarted<S, L, J>,
    alloc: Global,
    now: u64,
) -> Result<Crew<S, L, J>, AllocError>
    requires clock { now < 2 ^ 63 }
    ensures fresh { IfOk result (λ crew. (told : Bool) (made : EngineMade)
        → Waits told unstarted made → Fresh told crew made now) }
    ensures journal { IfOk result (λ crew. journal_of crew.voter ≡ unstarted.journal) }
{
    let Unstarted {
        config,
        journal,
        batcher,
        resolver,
        boxes,
    } = unstarted;
    let voter = simplex_voter::Actor::new(alloc, config, journal, now)?;
    Ok(Crew {
        alloc,
        voter,
        batcher,
        resolver,
        boxes,
        blocked: BTreeSet::new(alloc),
    })
}

/// The stage of an engine whose actors just ended a step so.
pub(crate) fn stage_after<S: Scheme, L: Elector, J: Journal>(
    crew: Crew<S, L, J>,
    outcome: Outcome,
) -> Stage<S, L, J>
    ensures { result ≡ settled crew outcome }
{
    match outcome {
        Outcome::Done | Outcome::Idle | Outcome::Refused => Stage::Running(crew),
        Outcome::Journal | Outcome::Cut => Stage::Stopped(crew),
    }
}

/// Whether the actors are at work.
pub(crate) fn is_at_work<S: Scheme, L: Elector, J: Journal>(stage: &Stage<S, L, J>) -> bool
    ensures { result ≡ is_at_work stage.now }
{
    matches!(stage, Stage::Running(_))
}
