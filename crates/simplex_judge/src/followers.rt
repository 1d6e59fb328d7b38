//! The nodes with engines, by where they sit.
ghost use Rattle.std.specs.Prelude.{◌≡◌, ◌<◌, ◌*◌, ◌^◌, ◌∷◌, [], List, true, Some, None, IsNone, IfOk, length, if◌then◌else◌};
ghost use Rattle.std.specs.List.{slice_get};
ghost use Rattle.std.specs.Option.{option_map, option_and_then};
ghost use Rattle.model_run.specs.Kinds as kinds;
ghost use Rattle.model_run.specs.Life.{Noted};
ghost use Rattle.model_run.specs.Setting.{Setting};
ghost use Rattle.model_run.specs.Setups as setups;
ghost use Rattle.model_audit.specs.Audit as audit;
ghost use Rattle.model_audit.specs.Conditions.{is_allowed};
ghost use Rattle.model_audit.specs.Rebuilt.{rebuilt_entry};
ghost use Rattle.law_run.specs.Complete.{node_named};
ghost use Rattle.simplex_case.specs.Stands.{IsEndOf};
ghost use Rattle.simplex_judge.specs.Followers.{FollowersStand, FollowAt, FollowOn, IsSeatOf, at_seat, same};

use crate::follower::Follower;
use model_audit::AuditEntry;
use simplex_case::{is_node, node_named, own_node};
use simplex_members::has_engine;
use simplex_records::{is_honest, seat_of};
use simplex_transcript::{Event, Node, Setup};
use simplex_types::Participant;
use std::alloc::{AllocError, Global};

/// What is followed, by where nodes sit: none where no engine runs.
#[derive(Drop)]
pub(crate) struct Followers {
    pub(crate) seats: Vec<Option<Follower>>,
}

impl Followers {
    /// Of no entry.
    #[tactic(auto, using(simplex_members::proofs::Good::good))]
    pub(crate) fn new(alloc: Global, setup: &Setup) -> Result<Followers, AllocError>
        requires good { IsNone (setups.first_bad setup.now) }
        ensures { IfOk result (λ followers. (setting : Setting) → setting.setup ≡ setup.now
            → FollowersStand followers.seats.items setting []) }
    {
        let mut seats = Vec::new(alloc);
        for place in 0..2 * setup.members.len() as u32 {
            let seat = follower_of(alloc, setup, Participant(place / 2))?;
            seats.push(seat)?;
        }
        Ok(Followers { seats })
    }

    // What is followed at this seat.
    fn at(&self, place: usize) -> Option<&Follower>
        ensures { option_map (λ follower. follower.now) result
            ≡ option_and_then same (slice_get self.now.seats.items place) }
    {
        self.seats.get(place)?.as_ref()
    }

    // What is followed of a node, if it exists.
    #[tactic(auto, unfolding(crate::specs::Followers::at_seat))]
    fn get(&self, setup: &Setup, node: Node) -> Option<&Follower>
        requires few { length setup.now.members < 2 ^ 32 }
        ensures { option_map (λ follower. follower.now) result
            ≡ at_seat self.now.seats.items setup.now node }
    {
        if is_node(setup, node) {
            self.at(seat_of(node))
        } else {
            None
        }
    }

    /// Whether the node that the event names is at its end, if it runs an engine and runs.
    pub(crate) fn is_at_end(&self, setup: &Setup, event: &Event) -> bool
        requires few { length setup.now.members < 2 ^ 32 }
        ensures { (setting : Setting) (before : List Noted) → setting.setup ≡ setup.now → FollowersStand self.now.seats.items setting before
            → IsEndOf setting before result (node_named event.now) }
    {
        let Some(node) = node_named(event) else {
            return false;
        };
        match self.get(setup, node) {
            None => false,
            Some(follower) => follower.reader.is_at_end(),
        }
    }

    /// Whether an honest member's votes were stored before they were sent.
    pub(crate) fn store_first(
        &self,
        alloc: Global,
        setup: &Setup,
        event: &Event,
        entry: &AuditEntry,
    ) -> Result<bool, AllocError>
        requires few { length setup.now.members < 2 ^ 32 }
        ensures { IfOk result (λ stored. (setting : Setting) (before : List Noted)
            → setting.setup ≡ setup.now
            → FollowersStand self.now.seats.items setting before
            → is_allowed setting before event.now ≡ true
            → stored ≡ audit.if_honest setting (node_named event.now)
            (audit.stores_first setting before (rebuilt_entry entry.now))) }
    {
        let Some(node) = node_named(event) else {
            return Ok(true);
        };
        if !is_honest(setup, node.member) {
            return Ok(true);
        }
        match self.get(setup, node) {
            None => Ok(true),
            Some(follower) => follower.reader.stores_first(alloc, entry),
        }
    }

    /// Takes in the entry of an event. Whether an honest member's votes are those that are due.
    pub(crate) fn follow(
        &mut self,
        alloc: Global,
        setup: &Setup,
        prior: &[AuditEntry],
        event: &Event,
        entry: &AuditEntry,
    ) -> Result<bool, AllocError>
        requires few { length setup.now.members < 2 ^ 32 }
        ensures { IfOk result
            (λ due. FollowOn self.old.seats.items self.new.seats.items setup.now prior.now event.now entry.now due) }
    {
        let Some(node) = own_node(event) else {
            return Ok(true);
        };
        let due = self.follow_at(alloc, setup, node, prior, event, entry)?;
        Ok(due || !is_honest(setup, node.member))
    }

    // Takes in the entry of an event of this node. Whether it sends the votes that are due, where the node runs an engine.
    fn follow_at(
        &mut self,
        alloc: Global,
        setup: &Setup,
        node: Node,
        prior: &[AuditEntry],
        event: &Event,
        entry: &AuditEntry,
    ) -> Result<bool, AllocError>
        requires few { length setup.now.members < 2 ^ 32 }
        ensures { IfOk result
            (λ due. FollowAt self.old.seats.items self.new.seats.items setup.now node prior.now event.now entry.now due) }
    {
        if !is_node(setup, node) {
            return Ok(true);
        }
        let place = seat_of(node);
        if place >= self.seats.len() {
            return Ok(true);
        }
        match &mut self.seats[place] {
            None => Ok(true),
            Some(follower) => follower.follow(alloc, prior, event, entry),
        }
    }
}

// A node of the member, where it runs an engine.
fn follower_of(
    alloc: Global,
    setup: &Setup,
    member: Participant,
) -> Result<Option<Follower>, AllocError>
    requires good { IsNone (setups.first_bad setup.now) }
    requires below { member < length setup.now.members }
    ensures { IfOk result (λ seat. IsSeatOf seat setup.now member) }
{
    if !has_engine(setup, member) {
        return Ok(None);
    }
    Ok(Some(Follower::new(alloc, setup, member)?))
}
