//! The asks of a view, as they came.
ghost use Rattle.std.specs.Prelude.{◌≡◌, [], IfOk, OnOk, OnErr, length, ◌==◌};
ghost use Rattle.std.specs.List.{list_any};
ghost use Rattle.model_resolver.specs.Asks.{same_ask, same_arrival, holds_ask, asks_of, targets_of, is_targeted, with_arrival, without_asks, holds_member, with_target, same_kind, same_until, asks_any, held_of};
ghost use Rattle.model_resolver.specs.Retirement.{retires};
ghost use Rattle.simplex_values.specs.declared.ask.Until.TheVariants as untils;

use crate::held::Held;
use crate::retire::Retire;
use simplex_types::{Ask, Kind, Participant, Until};
use std::alloc::{AllocError, Global};
use std::marker::Model;

/// An ask as it came: with the member that it named, if it named one.
#[derive(Clone, Copy, Debug, PartialEq, Eq)]
pub struct Arrival {
    /// What is asked for.
    pub ask: Ask,
    /// The member that is to be asked, where one was named.
    pub target: Option<Participant>,
}

/// The asks of a view that are held, each as often as it came with another target, in the order in which
/// they came.
#[derive(Debug, Drop)]
pub struct Arrivals {
    items: Vec<Arrival>,
}

impl Model for Arrivals {
    ghost use Rattle.std.specs.Prelude.{List};
    ghost use Rattle.model_resolver.specs.declared.arrivals.Arrival.{Arrival};

    ghost Value = { List Arrival };

    ghost view = { λ arrivals. arrivals.items.items };
}

/// Whether the two ask for the same.
fn is_same_ask(one: &Ask, other: &Ask) -> bool
    ensures { result ≡ same_ask one.now other.now }
{
    one == other
}

/// Whether the ask is among these.
fn holds_ask(asks: &[Ask], ask: &Ask) -> bool
    ensures { result ≡ holds_ask asks.now ask.now }
{
    asks.iter().any(|held| is_same_ask(ask, held))
}

/// Whether the two are one ask with one target.
fn is_same_arrival(one: &Arrival, other: &Arrival) -> bool
    ensures { result ≡ same_arrival one.now other.now }
{
    is_same_ask(&one.ask, &other.ask) && one.target == other.target
}

/// Whether the ask is of this kind.
fn is_of_kind(kind: Kind, arrival: &Arrival) -> bool
    ensures { result ≡ same_kind arrival.now.ask.kind kind }
{
    arrival.ask.kind == kind
}

/// Whether the ask stands until the floor.
fn is_until_floor(arrival: &Arrival) -> bool
    ensures { result ≡ same_until arrival.now.ask.until untils.Floor }
{
    arrival.ask.until == Until::Floor
}

/// Whether the member is among these.
fn holds_member(members: &[Participant], member: &Participant) -> bool
    ensures { result ≡ holds_member members.now member.now }
{
    members.iter().any(|named| named.0 == member.0)
}

/// One more member, where one is named that is not among them.
fn add_target(members: &mut Vec<Participant>, target: Option<Participant>) -> Result<(), AllocError>
    ensures { OnOk result (members.new.items ≡ with_target members.old.items target) }
{
    if let Some(member) = target
        && !holds_member(members, &member)
    {
        members.push(member)?;
    }
    Ok(())
}

impl Arrivals {
    /// No asks.
    pub fn new(alloc: Global) -> Arrivals
        ensures { result ≡ [] }
    {
        Arrivals {
            items: Vec::new(alloc),
        }
    }

    /// One more ask, unless it came before with the same target.
    pub fn add(&mut self, ask: Ask, target: Option<Participant>) -> Result<(), AllocError>
        ensures ok { OnOk result (self.new
            ≡ with_arrival (record { ask = ask; target = target }) self.old) }
        ensures err { OnErr result (self.new ≡ self.old) }
    {
        let arrival = Arrival { ask, target };
        if !self.holds(&arrival) {
            self.items.push(arrival)?;
        }
        Ok(())
    }

    /// Whether this ask came before with the same target.
    fn holds(&self, arrival: &Arrival) -> bool
        ensures { result ≡ list_any (same_arrival arrival.now) self.now }
    {
        self.items.iter().any(|held| is_same_arrival(arrival, held))
    }

    /// Whether none is left.
    pub fn is_empty(&self) -> bool
        ensures { result ≡ (length self.now == 0) }
    {
        self.items.is_empty()
    }

    /// Whether each ask named a member.
    pub fn is_targeted(&self) -> bool
        ensures { result ≡ is_targeted self.now }
    {
        self.items.iter().all(|arrival| arrival.target.is_some())
    }

    /// Whether one of the asks is of this kind.
    fn has_kind(&self, kind: Kind) -> bool
        ensures { result ≡ asks_any (λ ask. same_kind ask.kind kind) self.now }
    {
        self.items.iter().any(|arrival| is_of_kind(kind, arrival))
    }

    /// Whether one of the asks stands until the floor.
    fn has_floor(&self) -> bool
        ensures { result ≡ asks_any (λ ask. same_until ask.until untils.Floor) self.now }
    {
        self.items.iter().any(is_until_floor)
    }

    /// Which of the asks that are done with at one time are held.
    pub fn held(&self) -> Held
        ensures { result ≡ held_of self.now }
    {
        Held {
            nullification: self.has_kind(Kind::Nullification),
            notarization: self.has_kind(Kind::Notarization),
            floor: self.has_floor(),
        }
    }

    /// The asks, each once, in the order in which they came.
    #[tactic(auto, unfolding(crate::specs::Asks::asks_behind))]
    pub fn asks(&self, alloc: Global) -> Result<Vec<Ask>, AllocError>
        ensures { IfOk result (λ asks. asks.items ≡ asks_of self.now) }
    {
        let mut asks = Vec::new(alloc);
        for arrival in &self.items {
            if !holds_ask(&asks, &arrival.ask) {
                asks.push(arrival.ask)?;
            }
        }
        Ok(asks)
    }

    /// The members that the asks name, each once, in the order in which they came.
    #[tactic(auto, unfolding(crate::specs::Asks::targets_behind))]
    pub fn targets(&self, alloc: Global) -> Result<Vec<Participant>, AllocError>
        ensures { IfOk result (λ targets. targets.items ≡ targets_of self.now) }
    {
        let mut targets: Vec<Participant> = Vec::new(alloc);
        for arrival in &self.items {
            add_target(&mut targets, arrival.target)?;
        }
        Ok(targets)
    }

    /// Drops these asks.
    pub fn drop_asks(&mut self, done: &[Ask])
        ensures { self.new ≡ without_asks (holds_ask done.now) self.old }
    {
        self.items.retain(|arrival| !holds_ask(done, &arrival.ask));
    }

    /// Drops the asks that are done with.
    pub fn retire(&mut self, retire: &Retire)
        ensures { self.new ≡ without_asks (retires retire.now) self.old }
    {
        self.items.retain(|arrival| !retire.retires(&arrival.ask));
    }
}
