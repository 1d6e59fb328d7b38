//! The script of a setup.
ghost use Rattle.std.specs.Prelude.{◌≡◌, true, map, IfOk};
ghost use Rattle.std.specs.List.{list_all, filter_map};
ghost use Rattle.model_run.specs.Setups as setups;
ghost use Rattle.simplex_members.specs.Scripts.{kept, round_in};

use simplex_transcript::SetupRound;
use simplex_twins::{RoundScenario, Scenario};
use std::alloc::{AllocError, Global};

/// Whether each round keeps its limits, among so many members.
pub(crate) fn are_rounds(members: u32, rounds: &[SetupRound]) -> bool
    ensures { result ≡ list_all (setups.is_round members) rounds.now }
{
    rounds
        .iter()
        .all(|round| scripted(members, round).is_some())
}

/// The script as twins follow it, among so many members.
#[tactic(auto, using(crate::proofs::Rounds::all_scripted))]
pub(crate) fn script_of(
    alloc: Global,
    members: u32,
    rounds: &[SetupRound],
) -> Result<Scenario, AllocError>
    requires { list_all (setups.is_round members) rounds.now ≡ true }
    ensures { IfOk result (λ script. script ≡ map round_in rounds.now) }
{
    Ok(Scenario::from_rounds(kept_rounds(alloc, members, rounds)?))
}

// The rounds that keep their limits, among so many members.
fn kept_rounds(
    alloc: Global,
    members: u32,
    rounds: &[SetupRound],
) -> Result<Vec<RoundScenario>, AllocError>
    ensures { IfOk result (λ found. found.items ≡ filter_map (kept members) rounds.now) }
{
    rounds
        .iter()
        .filter_map(|round| scripted(members, round))
        .collect(alloc)
}

// The round as twins follow it, where it keeps its limits, among so many members.
fn scripted(members: u32, round: &SetupRound) -> Option<RoundScenario>
    ensures { result ≡ kept members round.now }
{
    let leader = u32::try_from(round.leader).ok()?;
    RoundScenario::new(leader, round.primary, round.secondary, members).ok()
}
