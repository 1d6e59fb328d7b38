//! The line that sums up a run.
#![tactic(auto, unfolding(crate::specs::Computed::summaries))]

ghost use Rattle.std.specs.Prelude.{◌≡◌, ◌+◌, max, length, filter, IfOk, string_bytes};
ghost use Rattle.std.specs.List.{fold};
ghost use Rattle.std.specs.Option.{is_some};
ghost use Rattle.simplex_text.specs.Lines.{stop_at};
ghost use Rattle.simplex_generator.specs.Summary as sums;

use simplex_messages::{Call, Outcome};
use simplex_transcript::{Entry, Event};
use simplex_types::Activity;
use std::alloc::{AllocError, Global};

/// How many events there were, how many finalizations were reported, the greatest view of these, how much evidence, and how
/// many stops of a node there were. The events are asked for beside the entries, since an entry does not tell a crash.
pub fn summary(alloc: Global, events: &[Event], entries: &[Entry]) -> Result<String, AllocError>
    ensures { IfOk result (λ text. string_bytes text ≡ sums.summary events.now entries.now) }
{
    let count = events.len();
    let finalized = finalized_in(entries)?;
    let greatest = greatest_in(entries);
    let evidence = evidence_in(entries)?;
    let stops = stops_in(events, entries);
    format!(in alloc;
        "events {count} finalized {finalized} greatest {greatest} evidence {evidence} stops {stops}\n"
    )
}

// The view of a finalization that is reported.
fn final_view(call: &Call) -> Option<u64>
    ensures { result ≡ sums.final_view call.now }
{
    match call {
        Call::Report(Activity::Finalization(finalization)) => Some(finalization.view().0),
        _ => None,
    }
}

fn is_evidence(call: &Call) -> bool
    ensures { result ≡ sums.is_evidence call.now }
{
    matches!(
        call,
        Call::Report(
            Activity::ConflictingNotarize(_)
                | Activity::ConflictingFinalize(_)
                | Activity::NullifyFinalize(_)
        )
    )
}

fn finalized_at(entry: &Entry) -> usize
    ensures { result ≡ length (sums.final_views entry.now) }
{
    let mut count = 0;
    let mut rest = entry.calls.as_slice();
    while let [call, after @ ..] = rest {
        if final_view(call).is_some() {
            count += 1;
        }
        rest = after;
    }
    count
}

fn greatest_at(entry: &Entry) -> u64
    ensures { result ≡ fold max 0 (sums.final_views entry.now) }
{
    let mut greatest = 0;
    let mut rest = entry.calls.as_slice();
    while let [call, after @ ..] = rest {
        if let Some(view) = final_view(call) {
            greatest = view.max(greatest);
        }
        rest = after;
    }
    greatest
}

fn evidence_at(entry: &Entry) -> usize
    ensures { result ≡ length (filter sums.is_evidence entry.now.calls) }
{
    let mut count = 0;
    let mut rest = entry.calls.as_slice();
    while let [call, after @ ..] = rest {
        if is_evidence(call) {
            count += 1;
        }
        rest = after;
    }
    count
}

// A sum of two counts. No memory has room for what would not fit.
fn add(count: u64, more: usize) -> Result<u64, AllocError>
    ensures { IfOk result (λ all. all ≡ count + more) }
{
    match count.checked_add(more as u64) {
        Some(all) => Ok(all),
        None => Err(AllocError),
    }
}

fn finalized_in(entries: &[Entry]) -> Result<u64, AllocError>
    ensures { IfOk result (λ count. count ≡ sums.finalized_in entries.now) }
{
    let mut count: u64 = 0;
    let mut rest = entries;
    while let [entry, after @ ..] = rest {
        count = add(count, finalized_at(entry))?;
        rest = after;
    }
    Ok(count)
}

fn greatest_in(entries: &[Entry]) -> u64
    ensures { result ≡ sums.greatest_in entries.now }
{
    let mut greatest = 0;
    let mut rest = entries;
    while let [entry, after @ ..] = rest {
        greatest = greatest_at(entry).max(greatest);
        rest = after;
    }
    greatest
}

fn evidence_in(entries: &[Entry]) -> Result<u64, AllocError>
    ensures { IfOk result (λ count. count ≡ sums.evidence_in entries.now) }
{
    let mut count: u64 = 0;
    let mut rest = entries;
    while let [entry, after @ ..] = rest {
        count = add(count, evidence_at(entry))?;
        rest = after;
    }
    Ok(count)
}

// Whether an event stopped its node.
fn is_stop(event: &Event, outcome: Outcome) -> bool
    ensures { result ≡ is_some (stop_at event.now outcome) }
{
    match (event, outcome) {
        (Event::Crash { .. }, Outcome::Done) => true,
        _ => matches!(outcome, Outcome::Journal | Outcome::Cut),
    }
}

fn stops_in(events: &[Event], entries: &[Entry]) -> usize
    ensures { result ≡ sums.stops_in events.now entries.now }
{
    let mut count = 0;
    let mut rest = events;
    let mut entries = entries;
    while let [event, after @ ..] = rest {
        let [entry, entries_after @ ..] = entries else {
            break;
        };
        if is_stop(event, entry.outcome) {
            count += 1;
        }
        rest = after;
        entries = entries_after;
    }
    count
}
