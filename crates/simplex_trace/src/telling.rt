//! A run, line by line.
ghost use Rattle.std.specs.Prelude.{◌≡◌, IfOk, string_bytes};
ghost use Rattle.simplex_trace.specs.Trace.{line_of};
ghost use Rattle.simplex_trace.specs.Trace.{deed_line as deed_line_of};
ghost use Rattle.simplex_trace.specs.Trace.{lines_of as lines_on};

use crate::deeds::deed_text;
use crate::items::items_of;
use simplex_transcript::{Entry, Event};
use std::alloc::{AllocError, Global};

/// The line on an event without its entry: the event's number, and what it was.
pub fn deed_line(alloc: Global, number: u64, event: &Event) -> Result<String, AllocError>
    ensures { IfOk result (λ text. string_bytes text ≡ deed_line_of number event.now) }
{
    let deed = deed_text(alloc, event)?;
    let deed = deed.as_str();
    format!(in alloc; "{number} {deed}\n")
}

/// The line on an event and its entry: the event's number, what it was, and what came of it.
pub fn line(alloc: Global, event: &Event, entry: &Entry) -> Result<String, AllocError>
    ensures { IfOk result (λ text. string_bytes text ≡ line_of event.now entry.now) }
{
    let deed = deed_text(alloc, event)?;
    let deed = deed.as_str();
    let items = items_of(alloc, entry)?;
    let items = items.as_str();
    let number = entry.event;
    format!(in alloc; "{number} {deed}{items}\n")
}

/// The lines on events and the entries that they made, one each, in order.
#[tactic(auto, unfolding(crate::specs::Trace::lines_of))]
pub fn lines(alloc: Global, events: &[Event], entries: &[Entry]) -> Result<String, AllocError>
    ensures { IfOk result (λ text. string_bytes text ≡ lines_on events.now entries.now) }
{
    let mut text = String::new(alloc);
    let mut deeds = events;
    let mut made = entries;
    while let [event, later @ ..] = deeds {
        let [entry, others @ ..] = made else {
            return Ok(text);
        };
        let told = line(alloc, event, entry)?;
        text.push_str(told.as_str())?;
        deeds = later;
        made = others;
    }
    Ok(text)
}
