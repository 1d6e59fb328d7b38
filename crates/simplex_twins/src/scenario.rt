//! Scripts of several terms.
ghost use Rattle.std.specs.Prelude.{◌≡◌, ◌≤◌, IfOk, length};
ghost use Rattle.simplex_twins.specs.Script.{round_index, round_at};
ghost use Rattle.simplex_twins.specs.Masks.{part};
ghost use Rattle.simplex_twins.specs.Partitions.{partitions};
ghost use Rattle.simplex_values.specs.declared.plan.SplitTarget.TheVariants as targets;
ghost use Rattle.simplex_twins.specs.Routes.{route, target_at, place_of, target_of};
ghost use Rattle.std.specs.Cmp.Lexicographic.{pointwise, lists_per, lists_equiv};
ghost use Rattle.std.specs.Cmp.Rules.{comparing};
ghost use Rattle.std.proofs.Common.{rules};

use crate::masks::{has, part};
use crate::round::RoundScenario;
use simplex_values::{Keep, Participant, SplitTarget, TermLength, View};
use std::alloc::{AllocError, Global};
use std::marker::Model;

/// The members that talk with the first half of a twin, and those that talk with the second.
pub type Partitions = (Vec<Participant>, Vec<Participant>);

/// The scripted rounds of a run: one for each term, from the first on. Behind them nothing is scripted.
#[derive(Debug, Drop)]
pub struct Scenario {
    rounds: Vec<RoundScenario>,
}

impl Model for Scenario {
    ghost use Rattle.std.specs.Prelude.{List};
    ghost use Rattle.simplex_twins.specs.Script.{ScriptedRound};

    ghost Value = { List ScriptedRound };

    ghost view = { λ scenario. scenario.rounds.items };
}

impl Scenario {
    /// These rounds. Takes no memory.
    pub fn from_rounds(rounds: Vec<RoundScenario>) -> Scenario
        ensures { result ≡ rounds.items }
    {
        Scenario { rounds }
    }

    /// The rounds, that of the first term first.
    pub fn rounds(&self) -> &[RoundScenario]
        ensures { result.now ≡ self.now }
    {
        self.rounds.as_slice()
    }

    /// Which members talk with each half of a twin at the view: those whose places in the list the masks
    /// of the view's round have. Behind the script all do.
    #[tactic(auto, unfolding(crate::specs::Partitions::partitions), using(crate::proofs::Behind::behind_the_script))]
    pub fn partitions(
        &self,
        alloc: Global,
        view: View,
        term: TermLength,
        members: &[Participant],
    ) -> Result<Partitions, AllocError>
        ensures parts { IfOk result (λ parts. (parts.0.items, parts.1.items)
            ≡ partitions self.now term view members.now) }
        ensures behind { length self.now ≤ round_index term view
            → IfOk result (λ parts. (parts.0.items ≡ members.now) × (parts.1.items ≡ members.now)) }
    {
        match self.round_at(view, term) {
            Some(round) => Ok((
                part(alloc, round.primary(), members)?,
                part(alloc, round.secondary(), members)?,
            )),
            None => Ok((
                Vec::from_slice(alloc, members)?,
                Vec::from_slice(alloc, members)?,
            )),
        }
    }

    /// Which halves of a twin a message of the sender reaches at the view: those whose masks have the
    /// sender's first place in the list. One who is not in the list reaches none. Behind the script
    /// everyone reaches both.
    #[tactic(auto, unfolding(crate::specs::Routes::route), using(crate::proofs::Behind::behind_the_script))]
    pub fn route(
        &self,
        view: View,
        term: TermLength,
        sender: Participant,
        members: &[Participant],
    ) -> SplitTarget
        ensures target { result ≡ route self.now term view sender members.now }
        ensures behind { length self.now ≤ round_index term view → result ≡ targets.Both }
    {
        match self.round_at(view, term) {
            Some(round) => target_at(&round, place_of(sender, members)),
            None => SplitTarget::Both,
        }
    }

    /// The scripted round of the view, if there is one.
    #[tactic(auto, unfolding(crate::specs::Script::round_at))]
    fn round_at(&self, view: View, term: TermLength) -> Option<RoundScenario>
        ensures { result ≡ round_at self.now term view }
    {
        let index = round_index(view, term);
        self.rounds.as_slice().get(index).copied()
    }
}

/// The place of the view's round in a script: that of its term, from 0, where genesis has the place of
/// view 1.
#[tactic(auto, unfolding(crate::specs::Script::round_index))]
pub(crate) fn round_index(view: View, term: TermLength) -> usize
    ensures { result ≡ round_index term view }
{
    view.term_index(term).saturating_sub(1) as usize
}

/// The halves whose masks have the place.
fn target_at(round: &RoundScenario, place: Option<usize>) -> SplitTarget
    ensures { result ≡ target_at round.now place }
{
    match place {
        Some(place) => target_of(has(round.primary(), place), has(round.secondary(), place)),
        None => SplitTarget::None,
    }
}

/// The first place of the member in the list.
fn place_of(member: Participant, members: &[Participant]) -> Option<usize>
    ensures { result ≡ place_of member members.now }
{
    members.iter().position(|m| *m == member)
}

/// The halves that are reached.
pub(crate) fn target_of(primary: bool, secondary: bool) -> SplitTarget
    ensures { result ≡ target_of primary secondary }
{
    match (primary, secondary) {
        (true, true) => SplitTarget::Both,
        (true, false) => SplitTarget::Primary,
        (false, true) => SplitTarget::Secondary,
        (false, false) => SplitTarget::None,
    }
}

impl PartialEq for Scenario {
    ghost eq = { λ a b. pointwise ⟦<RoundScenario as PartialEq>⟧.eq a b };

    ghost laws = { lists_per (Prim.search (comparing, rules)) };

    fn eq(&self, other: &Scenario) -> bool {
        self.rounds == other.rounds
    }
}

impl Eq for Scenario {
    ghost laws = { lists_equiv (Prim.search (comparing, rules)) };
}

impl Keep for Scenario {
    fn keep(&self, alloc: Global) -> Result<Scenario, AllocError> {
        Ok(Scenario {
            rounds: Vec::from_slice(alloc, self.rounds.as_slice())?,
        })
    }
}
