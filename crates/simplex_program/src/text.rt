//! The text of each exit.
ghost use Rattle.std.specs.Prelude.{◌≡◌, IfOk, string_bytes};
ghost use Rattle.simplex_program.specs.Exit.{told, text_of, text_of_run, bad_input_line};

use crate::exit::Exit;
use simplex_generator::summary;
use simplex_text::{printed_run, refusal_text};
use simplex_transcript::{Entry, Event, Refusal};
use std::alloc::{AllocError, Global};

// What is said of words that are not taken.
const USAGE: &str = "usage: run | par WORKERS | gen NUMBER STEPS\n";

fn bad_input(alloc: Global, place: u64) -> Result<String, AllocError>
    ensures { IfOk result (λ text. string_bytes text ≡ bad_input_line place) }
{
    format!(in alloc; "bad input at {place}\n")
}

// The text of a whole run.
fn told_run(
    alloc: Global,
    telling: Telling,
    events: &[Event],
    entries: &[Entry],
) -> Result<String, AllocError>
    ensures { IfOk result (λ text. string_bytes text ≡ text_of_run telling events.now entries.now) }
{
    match telling {
        Telling::Lines => printed_run(alloc, events, entries),
        Telling::Summary => summary(alloc, events, entries),
    }
}

/// How a whole run is told.
#[derive(Clone, Copy, Debug, PartialEq, Eq)]
pub(crate) enum Telling {
    /// By a line for each of its finalizations, evidence and stops.
    Lines,
    /// By one line with their numbers.
    Summary,
}

/// The text of an exit, and for a whole run that of its events.
pub(crate) fn text(
    alloc: Global,
    telling: Telling,
    exit: &Exit,
    events: &[Event],
) -> Result<String, AllocError>
    ensures { IfOk result (λ text. string_bytes text ≡ text_of telling events.now (told exit.now)) }
{
    match exit {
        Exit::Done(transcript) => told_run(alloc, telling, events, transcript.entries.as_slice()),
        Exit::Refused { error, event } => refusal_text(
            alloc,
            &Refusal {
                error: *error,
                event: *event,
            },
        ),
        Exit::BadWords => String::from_str(alloc, USAGE),
        Exit::BadInput { place } => bad_input(alloc, *place),
        Exit::TooLong => String::from_str(alloc, "input too long\n"),
        Exit::ReadFault | Exit::WriteFault | Exit::Memory => Ok(String::new(alloc)),
    }
}
