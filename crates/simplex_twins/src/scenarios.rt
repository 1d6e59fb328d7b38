//! Every scenario of a size.
ghost use Rattle.std.specs.Prelude.{◌≡◌, ◌<◌, ◌≤◌, ◌*◌, ◌-◌, ◌^◌, [], ◌∷◌, List, min, take, replicate, length, IfOk, OnErr, MatchOption, MatchBool, IsTrue};
ghost use Rattle.simplex_twins.specs.Script.{ScriptedRound, scripted};
ghost use Rattle.simplex_twins.specs.Every.{every_script, scripts_after, are_good};

use crate::round::RoundScenario;
use crate::scenario::Scenario;
use std::alloc::{AllocError, Global};
use std::marker::Model;

/// Scenarios of one size, one after the other. Contracts see the list of those that are still to come.
#[derive(Debug, Drop)]
pub struct Scenarios {
    participants: u32,
    next: Vec<RoundScenario>,
    left: u64,
}

impl Model for Scenarios {
    ghost use Rattle.std.specs.Prelude.{◌≤◌, ◌<◌, ◌^◌, ◌∷◌, List, take, IsTrue};
    ghost use Rattle.simplex_twins.specs.Script.{ScriptedRound};
    ghost use Rattle.simplex_twins.specs.Every.{scripts_after, are_good};

    ghost Value = { List (List ScriptedRound) };

    ghost view = { λ s. take s.left (s.next.items ∷ scripts_after s.participants s.next.items) };

    ghost invariant = { λ s. (0 < s.participants) × (s.participants ≤ 64) × (s.left < 2 ^ 64)
        × IsTrue (are_good s.participants s.next.items) };
}

impl Scenario {
    /// Every scenario of so many rounds among so many members, and no more than the limit of them: all
    /// leaders, and all pairs of masks of which one has the leader. They are ordered by their first round,
    /// then by their second, and so on; rounds by leader, then by the first mask, then by the second.
    /// Each is made when it is asked for.
    pub fn all(
        alloc: Global,
        participants: u32,
        rounds: usize,
        limit: u64,
    ) -> Result<Scenarios, AllocError>
        requires some { 0 < participants }
        requires most { participants ≤ 64 }
        ensures all { IfOk result (λ scenarios. scenarios
            ≡ take limit (every_script participants rounds)) }
        ensures count { IfOk result (λ scenarios. length scenarios
            ≡ min limit ((3 * participants * 4 ^ (participants - 1)) ^ rounds)) }
    {
        Ok(Scenarios {
            participants,
            next: first_rounds(alloc, rounds)?,
            left: limit,
        })
    }
}

impl Scenarios {
    /// The next scenario, or none behind the last. Nothing is given where memory is wanting, and the
    /// scenario still comes next.
    pub fn next_scenario(&mut self, alloc: Global) -> Result<Option<Scenario>, AllocError>
        ensures given { IfOk result (λ given. MatchOption given ((self.old ≡ []) × (self.new ≡ []))
            (λ scenario. self.old ≡ scenario ∷ self.new)) }
        ensures err { OnErr result (self.new ≡ self.old) }
    {
        if self.left == 0 {
            return Ok(None);
        }
        let rounds = Vec::from_slice(alloc, self.next.as_slice())?;
        self.left = if advance(&mut self.next, self.participants) {
            self.left - 1
        } else {
            0
        };
        Ok(Some(Scenario::from_rounds(rounds)))
    }
}

/// So many first rounds: the first scenario of its size.
fn first_rounds(alloc: Global, rounds: usize) -> Result<Vec<RoundScenario>, AllocError>
    ensures { IfOk result (λ made. made.items ≡ replicate rounds (scripted 0 0 1)) }
{
    vec![in alloc; RoundScenario::first(); rounds]
}

/// Makes of a scenario the next of its size. Behind the last there is none, and the first is left.
fn advance(rounds: &mut [RoundScenario], participants: u32) -> bool
    requires some { 0 < participants }
    requires most { participants ≤ 64 }
    requires good { IsTrue (are_good participants rounds.old) }
    ensures next { MatchBool result
        (scripts_after participants rounds.old ≡ rounds.new ∷ scripts_after participants rounds.new)
        (scripts_after participants rounds.old ≡ []) }
    ensures good { IsTrue (are_good participants rounds.new) }
{
    let mut place = rounds.len();
    while place > 0 {
        place -= 1;
        match rounds[place].later(participants) {
            Some(later) => {
                rounds[place] = later;
                return true;
            }
            None => rounds[place] = RoundScenario::first(),
        }
    }
    false
}
