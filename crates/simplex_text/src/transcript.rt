//! What is printed of a whole run.
ghost use Rattle.std.specs.Prelude.{◌≡◌, ◌++◌, option_map, IfOk, OnOk, string_bytes};
ghost use Rattle.simplex_text.specs.Lines.{stop_of, stop_at, lines_at, Printed, PrintedRun};

use crate::lines::{push_calls, push_line};
use simplex_messages::Outcome;
use simplex_transcript::{Entry, Event};
use std::alloc::{AllocError, Global};

// How a node was stopped inside an entry, if it was.
fn stop(outcome: Outcome) -> Option<&'static str>
    ensures { option_map (λ s. s.now) result ≡ stop_of outcome }
{
    match outcome {
        Outcome::Done | Outcome::Idle | Outcome::Refused => None,
        Outcome::Journal => Some("stopped journal"),
        Outcome::Cut => Some("stopped cut"),
    }
}

// How a node was stopped by an event or inside it, if it was.
fn stop_by(event: &Event, outcome: Outcome) -> Option<&'static str>
    ensures { option_map (λ s. s.now) result ≡ stop_at event.now outcome }
{
    match (event, outcome) {
        (Event::Crash { .. }, Outcome::Done) => Some("stopped crash"),
        _ => stop(outcome),
    }
}

// Adds the lines of the entry's calls, then that of the stop.
fn push_entry(
    alloc: Global,
    text: &mut String,
    entry: &Entry,
    stop: Option<&str>,
) -> Result<(), AllocError>
    ensures { OnOk result (string_bytes text.new
        ≡ string_bytes text.old
        ++ lines_at entry.now.who (option_map (λ s. s.now) stop.entry) entry.now) }
{
    if let Some(node) = &entry.who {
        push_calls(alloc, text, entry.event, node, entry.calls.as_slice())?;
        push_line(alloc, text, entry.event, node, stop)?;
    }
    Ok(())
}

/// The lines of a run of which no event is a crash: for each entry, in order, its reports of finalizations and
/// evidence, and its stop.
pub fn printed(alloc: Global, entries: &[Entry]) -> Result<String, AllocError>
    ensures { IfOk result (λ text. string_bytes text ≡ Printed entries.now) }
{
    let mut text = String::new(alloc);
    let mut rest = entries;
    while let [entry, after @ ..] = rest {
        push_entry(alloc, &mut text, entry, stop(entry.outcome))?;
        rest = after;
    }
    Ok(text)
}

/// The lines of a run: those of [`printed`], and one for each crash of a node that ran. An entry alone does not
/// tell a crash from an answer, so the events are asked for too, one for each entry.
pub fn printed_run(alloc: Global, events: &[Event], entries: &[Entry]) -> Result<String, AllocError>
    ensures { IfOk result (λ text. string_bytes text ≡ PrintedRun events.now entries.now) }
{
    let mut text = String::new(alloc);
    let mut rest = events;
    let mut entries = entries;
    while let [event, after @ ..] = rest {
        let [entry, entries_after @ ..] = entries else {
            break;
        };
        push_entry(alloc, &mut text, entry, stop_by(event, entry.outcome))?;
        rest = after;
        entries = entries_after;
    }
    Ok(text)
}
