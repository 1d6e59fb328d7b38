//! The packets that were not delivered.
#![tactic(auto, unfolding(crate::specs::Undelivered::undelivered_behind))]

ghost use Rattle.std.specs.Prelude.{◌≡◌, ◌++◌, [], OnOk, IfOk, filter, take};
ghost use Rattle.std.specs.List.{list_any, position};
ghost use Rattle.model_run.specs.Kinds.{is_same_node};
ghost use Rattle.simplex_generator.specs.Undelivered.{delivers, is_delivered_by, parcels_of, parcels_at, parcels_from, without_first, undelivered_behind};

use crate::nodes::NODES;
use simplex_transcript::{Entry, Event, Node, Packet, Ref};
use std::alloc::{AllocError, Global};
use std::collections::VecDeque;
use std::marker::Model;

/// How many packets at most one is drawn from.
const MOST: usize = 64;

/// A packet, and a node that it may be delivered to.
#[derive(Clone, Copy, Debug, PartialEq, Eq)]
pub struct Parcel {
    /// The event that sent the packet, and its place there.
    pub packet: Ref,
    /// A node that it may be delivered to.
    pub node: Node,
}

/// What was not delivered, by packet, then node.
#[derive(Drop)]
pub struct Undelivered {
    parcels: VecDeque<Parcel>,
}

impl Model for Undelivered {
    ghost use Rattle.std.specs.Prelude.{List};
    ghost use Rattle.simplex_generator.specs.declared.undelivered.Parcel.{Parcel};

    ghost Value = { List Parcel };

    ghost view = { λ it. it.parcels.items };
}

impl Undelivered {
    /// Nothing.
    pub fn new(alloc: Global) -> Undelivered
        ensures { result ≡ [] }
    {
        Undelivered {
            parcels: VecDeque::new(alloc),
        }
    }

    /// Takes in an event and its entry. It looks no further than up to what the event delivers.
    pub fn take_in(&mut self, event: &Event, entry: &Entry) -> Result<(), AllocError>
        ensures { OnOk result (self.new ≡ undelivered_behind event.now entry.now self.old) }
    {
        deliver(&mut self.parcels, event);
        send(&mut self.parcels, entry.event, entry.packets.as_slice())?;
        Ok(())
    }

    /// The first 64 for these nodes.
    pub fn first_for(&self, alloc: Global, nodes: &[Node]) -> Result<Vec<Parcel>, AllocError>
        ensures { IfOk result (λ first. first.items
            ≡ take 64 (filter (λ parcel. list_any (is_same_node parcel.node) nodes.now) self.now)) }
    {
        let first = first_of(alloc, &self.parcels, nodes)?;
        Ok(first)
    }
}

// What the event delivers is no more undelivered.
fn deliver(parcels: &mut VecDeque<Parcel>, event: &Event)
    ensures { parcels.new.items ≡ without_first (is_delivered_by event.now) parcels.old.items }
{
    if let Some(at) = place_of(parcels, event) {
        let _delivered = parcels.remove(at);
    }
}

// Where the first stands that the event delivers. An event that delivers nothing looks at none.
#[tactic(auto, using(crate::proofs::Delivered::none_delivered))]
fn place_of(parcels: &VecDeque<Parcel>, event: &Event) -> Option<usize>
    ensures { result ≡ position (is_delivered_by event.now) parcels.now.items }
{
    if !delivers(event) {
        return None;
    }
    parcels
        .iter()
        .position(|parcel| is_delivered_by(event, parcel))
}

fn delivers(event: &Event) -> bool
    ensures { result ≡ delivers event.now }
{
    matches!(event, Event::Deliver { .. })
}

fn is_delivered_by(event: &Event, parcel: &Parcel) -> bool
    ensures { result ≡ is_delivered_by event.now parcel.now }
{
    match event {
        Event::Deliver { node, packet } => *node == parcel.node && *packet == parcel.packet,
        Event::Start { .. } => false,
        Event::Tick { .. } => false,
        Event::Step { .. } => false,
        Event::Answer { .. } => false,
        Event::Crash { .. } => false,
        Event::Inject { .. } => false,
    }
}

// An event sends packets.
fn send(parcels: &mut VecDeque<Parcel>, event: u64, packets: &[Packet]) -> Result<(), AllocError>
    ensures { OnOk result (parcels.new.items
        ≡ parcels.old.items ++ parcels_from event 0 packets.now) }
{
    let mut place = 0;
    let mut rest = packets;
    while let [packet, after @ ..] = rest {
        send_one(parcels, Ref { event, place }, packet.to.as_slice())?;
        place += 1;
        rest = after;
    }
    Ok(())
}

// A packet goes to these nodes.
fn send_one(parcels: &mut VecDeque<Parcel>, packet: Ref, to: &[Node]) -> Result<(), AllocError>
    ensures { OnOk result (parcels.new.items ≡ parcels.old.items ++ parcels_at packet to.now) }
{
    push_parcels(parcels, packet, to, &NODES)
}

// A packet goes to those of the nodes that are among these.
fn push_parcels(
    parcels: &mut VecDeque<Parcel>,
    packet: Ref,
    to: &[Node],
    nodes: &[Node],
) -> Result<(), AllocError>
    ensures { OnOk result (parcels.new.items
        ≡ parcels.old.items ++ parcels_of packet to.now nodes.now) }
{
    let mut rest = nodes;
    while let [node, after @ ..] = rest {
        if is_among(node, to) {
            parcels.push_back(Parcel {
                packet,
                node: *node,
            })?;
        }
        rest = after;
    }
    Ok(())
}

fn is_among(node: &Node, nodes: &[Node]) -> bool
    ensures { result ≡ list_any (is_same_node node.now) nodes.now }
{
    nodes.contains(node)
}

// The first 64 for these nodes.
#[tactic(auto, using(crate::proofs::First::found_one, crate::proofs::First::found_other, crate::proofs::First::found_most, crate::proofs::First::found_all, crate::proofs::First::left_more))]
fn first_of(
    alloc: Global,
    parcels: &VecDeque<Parcel>,
    nodes: &[Node],
) -> Result<Vec<Parcel>, AllocError>
    ensures { IfOk result (λ first. first.items
        ≡ take 64 (filter
        (λ parcel. list_any (is_same_node parcel.node) nodes.now) parcels.now.items)) }
{
    let mut first = Vec::new(alloc);
    let mut at = 0;
    while first.len() < MOST {
        let Some(parcel) = parcels.get(at) else {
            return Ok(first);
        };
        if is_among(&parcel.node, nodes) {
            first.push(*parcel)?;
        }
        at += 1;
    }
    Ok(first)
}
