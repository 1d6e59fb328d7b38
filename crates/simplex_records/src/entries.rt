//! The entries of events.
ghost use Rattle.std.specs.Prelude.{◌≡◌, Some};
ghost use Rattle.model_run.specs.Entries as entries;
ghost use Rattle.simplex_records.specs.Events as events;

use simplex_messages::{Outcome, StepOut};
use simplex_transcript::{Entry, Node, Packet, Took};
use simplex_types::Sequence;
use std::alloc::Global;

/// The entry of what an engine of the node did, whose packets these are. Its lists keep no more room than they take,
/// since entries are kept to the end of the run.
pub(crate) fn entry_of(
    event: u64,
    node: Node,
    took: Option<Took>,
    out: StepOut,
    packets: Sequence<Packet>,
    outcome: Outcome,
) -> Entry
    ensures { result ≡ events.entry_of event node took out packets outcome }
{
    let StepOut {
        mut added,
        mut asked,
        mut dropped,
        mut handed,
        mut calls,
    } = out;
    added.shrink_to_fit();
    asked.shrink_to_fit();
    dropped.shrink_to_fit();
    handed.shrink_to_fit();
    calls.shrink_to_fit();
    Entry {
        event,
        who: Some(node),
        took,
        added,
        asked,
        dropped,
        handed,
        calls,
        packets,
        outcome,
    }
}

/// An entry in which nothing happens but its outcome.
pub(crate) fn idle_entry(alloc: Global, event: u64, who: Option<Node>, outcome: Outcome) -> Entry
    ensures { result ≡ events.idle_entry event who outcome }
{
    Entry {
        event,
        who,
        took: None,
        added: Sequence::new(alloc),
        asked: Sequence::new(alloc),
        dropped: Sequence::new(alloc),
        handed: Sequence::new(alloc),
        calls: Sequence::new(alloc),
        packets: Sequence::new(alloc),
        outcome,
    }
}

/// An entry of packets that no engine made.
pub(crate) fn spoken_entry(
    alloc: Global,
    event: u64,
    node: Node,
    took: Option<Took>,
    packets: Sequence<Packet>,
) -> Entry
    ensures { result ≡ events.spoken_entry event node took packets }
{
    Entry {
        took,
        packets,
        ..idle_entry(alloc, event, Some(node), Outcome::Done)
    }
}
