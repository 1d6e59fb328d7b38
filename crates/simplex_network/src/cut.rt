//! Which events are stepped at once.
ghost use Rattle.std.specs.Prelude.{◌≡◌, ◌≤◌, List, [], All, length, take, IsNone, IfOk, IfSome};
ghost use Rattle.std.specs.Option.{is_some};
ghost use Rattle.simplex_transcript.specs.declared.node.Node as transcript;
ghost use Rattle.simplex_transcript.specs.declared.setup.Setup as setups;
ghost use Rattle.model_run.specs.Life.{Noted};
ghost use Rattle.model_run.specs.Setups.{first_bad};
ghost use Rattle.model_run.specs.Groups as groups;
ghost use Rattle.model_run.specs.Groups.{joined, joins};
ghost use Rattle.simplex_records.specs.Stands.{RecordsStand};
ghost use Rattle.simplex_network.specs.Cuts.{IsLendable, IsLendableAt, AreSeats};

use crate::nodes::is_node;
use simplex_records::{Records, is_honest, seat_of};
use simplex_transcript::{Event, Node, Setup};
use simplex_values::maps::{add, contains, empty_set};
use std::alloc::{AllocError, Global};
use std::collections::BTreeSet;

/// How many of the first events may be stepped at once.
pub(crate) fn group_size(
    alloc: Global,
    setup: &Setup,
    records: &Records,
    events: &[Event],
) -> Result<usize, AllocError>
    requires good { IsNone (first_bad setup.now) }
    ensures within { IfOk result (λ size. size ≤ length events.now) }
    ensures each { IfOk result (λ size. All (IsLendable setup.now) (take size events.now)) }
    ensures group { IfOk result (λ size. (before : List Noted) → RecordsStand records.now setup.now before
        → take size events.now ≡ joined setup.now before [] events.now) }
{
    let mut named = empty_set(alloc);
    let mut size = 0;
    for event in events {
        let Some(node) = joining(setup, records, &named, event) else {
            break;
        };
        add(&mut named, seat_of(node) as u64)?;
        size += 1;
    }
    Ok(size)
}

// The node that the event steps, where it may be stepped beside the nodes of these seats. [honest-nodes-at-once]
fn joining(setup: &Setup, records: &Records, named: &BTreeSet<u64>, event: &Event) -> Option<Node>
    requires { IsNone (first_bad setup.now) }
    ensures lendable { IfSome result (IsLendableAt setup.now event.now) }
    ensures joins { (before : List Noted) (nodes : List transcript.Node) → RecordsStand records.now setup.now before
        → AreSeats named.now nodes → is_some result ≡ joins setup.now before nodes event.now }
{
    let node = node_stepped(event)?;
    if !is_node(setup, node) {
        return None;
    }
    if !is_honest(setup, node.member) {
        return None;
    }
    if contains(named, seat_of(node) as u64) {
        return None;
    }
    if !has_packet(records, event) {
        return None;
    }
    Some(node)
}

/// The node that the event steps; none where it is an event of another kind.
pub(crate) fn node_stepped(event: &Event) -> Option<Node>
    ensures { result ≡ groups.node_stepped event.now }
{
    match event {
        Event::Deliver { node, .. } => Some(*node),
        Event::Step { node, .. } => Some(*node),
        Event::Answer { node, .. } => Some(*node),
        _ => None,
    }
}

// Whether what a delivery delivers was sent.
fn has_packet(records: &Records, event: &Event) -> bool
    ensures { (setup : setups.Setup) (before : List Noted) → RecordsStand records.now setup before
        → result ≡ groups.has_packet before event.now }
{
    match event {
        Event::Deliver { packet, .. } => records.has_packet(*packet),
        _ => true,
    }
}
