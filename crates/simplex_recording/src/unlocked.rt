//! The leaders of the views that certificates unlock.
#![tactic(auto, unfolding(simplex_values::specs::Maps::found, crate::specs::Recording::leader_at))]

ghost use Rattle.std.specs.Prelude.{◌≡◌, ◌∷◌, [], ℕ, ◌==◌, List, Option, Some, None, OnOk, OnErr, true, if◌then◌else◌};
ghost use Rattle.std.specs.Option.{option_or};
ghost use Rattle.simplex_values.specs.Maps.{found};
ghost use Rattle.simplex_types.specs.Evidence.{was_verified};
ghost use Rattle.simplex_types.specs.declared.activity.Activity.{Activity};
ghost use Rattle.simplex_recording.specs.Recording.{Made, leader_at, unlocked_by};
ghost use Rattle.simplex_recording.specs.Stands.{UnlockedOf};

use simplex_types::elector::Elector;
use simplex_types::{Activity, Participant, Round, TermLength, View};
use simplex_values::maps::{empty_map, put};
use std::alloc::{AllocError, Global};
use std::collections::BTreeMap;

/// The leader of each view that a certificate unlocked.
#[derive(Debug, Drop)]
pub(crate) struct Unlocked {
    leaders: BTreeMap<u64, Participant>,
}

/// The view that the certificate unlocks.
fn unlocked_by(length: TermLength, activity: &Activity) -> View
    ensures { result ≡ unlocked_by length activity.now }
{
    match activity {
        Activity::Nullification(it) => it.round.view.next_term_start(length),
        _ => activity.view().next(),
    }
}

/// Keeps the leader of the view, where none is kept.
fn put_new(
    leaders: &mut BTreeMap<u64, Participant>,
    view: u64,
    leader: Participant,
) -> Result<(), AllocError>
    ensures ok { OnOk result ((q : ℕ)
        → found leaders.new q
        ≡ option_or (found leaders.old q) (if view == q then Some leader else None)) }
    ensures err { OnErr result ((q : ℕ) → found leaders.new q ≡ found leaders.old q) }
{
    if leaders.contains_key(&view) {
        return Ok(());
    }
    put(leaders, view, leader)
}

impl Unlocked {
    /// No view is unlocked.
    pub(crate) fn new(alloc: Global) -> Unlocked
        ensures { (made : Made) → UnlockedOf result made [] }
    {
        Unlocked {
            leaders: empty_map(alloc),
        }
    }

    /// The certificate was recorded.
    pub(crate) fn enter<L: Elector>(
        &mut self,
        elector: &L,
        activity: &Activity,
    ) -> Result<(), AllocError>
        requires { was_verified activity.now ≡ true }
        ensures ok { OnOk result ((made : Made) (all : List Activity) → made.leader ≡ L.elects elector.now
            → made.term ≡ (L.cuts elector.now).length
            → UnlockedOf self.old made all → UnlockedOf self.new made (activity.now ∷ all)) }
        ensures err { OnErr result ((made : Made) (all : List Activity) → UnlockedOf self.old made all
            → UnlockedOf self.new made all) }
    {
        let view = unlocked_by(elector.terms().length, activity);
        let leader = elector.elect(Round {
            epoch: activity.epoch(),
            view,
        });
        put_new(&mut self.leaders, view.0, leader)
    }

    /// The leader of the view, where it was unlocked.
    pub(crate) fn leader(&self, view: View) -> Option<Participant>
        ensures { (made : Made) (all : List Activity) → UnlockedOf self.now made all
            → result ≡ leader_at made all view }
    {
        self.leaders.get(&view.0).copied()
    }
}
