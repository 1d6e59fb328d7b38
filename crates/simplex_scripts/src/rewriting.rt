//! A script with what came out.
ghost use Rattle.std.specs.Prelude.{◌≡◌, ◌++◌, IfOk, OnOk, map, string_bytes};
ghost use Rattle.simplex_scripts.specs.Rewriting as texts;

use simplex_messages::Outcome;
use simplex_script::{is_told, lines_of};
use simplex_trace::line as told_line;
use simplex_transcript::{Entry, Event};
use std::alloc::{AllocError, Global};

fn is_done(outcome: Outcome) -> bool
    ensures { result ≡ texts.is_done outcome }
{
    match outcome {
        Outcome::Done => true,
        Outcome::Idle => false,
        Outcome::Refused => false,
        Outcome::Journal => false,
        Outcome::Cut => false,
    }
}

// Whether nothing came of an event.
fn is_quiet(entry: &Entry) -> bool
    ensures { result ≡ texts.is_quiet entry.now }
{
    entry.calls.is_empty()
        && entry.handed.is_empty()
        && entry.asked.is_empty()
        && entry.packets.is_empty()
        && is_done(entry.outcome)
}

// What came of an event, behind a bar.
fn push_told(
    alloc: Global,
    text: &mut String,
    event: &Event,
    entry: &Entry,
) -> Result<(), AllocError>
    ensures { OnOk result (string_bytes text.new
        ≡ string_bytes text.old ++ texts.told_of event.now entry.now) }
{
    if is_quiet(entry) {
        return Ok(());
    }
    let told = told_line(alloc, event, entry)?;
    text.push_str("  | ")?;
    text.push_str(told.as_str())
}

// What came of the events of the line of this number.
fn push_below(
    alloc: Global,
    text: &mut String,
    number: u64,
    lines: &[u64],
    events: &[Event],
    entries: &[Entry],
) -> Result<(), AllocError>
    ensures { OnOk result (string_bytes text.new ≡ string_bytes text.old
        ++ texts.told_below number lines.now events.now entries.now) }
{
    let mut numbers = lines;
    let mut deeds = events;
    let mut made = entries;
    while let [line, after @ ..] = numbers {
        let [event, later @ ..] = deeds else {
            return Ok(());
        };
        let [entry, others @ ..] = made else {
            return Ok(());
        };
        if *line == number {
            push_told(alloc, text, event, entry)?;
        }
        numbers = after;
        deeds = later;
        made = others;
    }
    Ok(())
}

// A line, with what came of its events below.
fn push_line(
    alloc: Global,
    text: &mut String,
    number: u64,
    line: &str,
    lines: &[u64],
    events: &[Event],
    entries: &[Entry],
) -> Result<(), AllocError>
    ensures { OnOk result (string_bytes text.new ≡ string_bytes text.old
        ++ texts.told_at number line.now lines.now events.now entries.now) }
{
    if is_told(line) {
        return Ok(());
    }
    text.push_str(line)?;
    text.push_str("\n")?;
    push_below(alloc, text, number, lines, events, entries)
}

// All lines of a script.
fn rewritten_lines(
    alloc: Global,
    script: &[&str],
    lines: &[u64],
    events: &[Event],
    entries: &[Entry],
) -> Result<String, AllocError>
    ensures { IfOk result (λ text. string_bytes text
        ≡ texts.rewritten_from 0
        (map (λ line. line.now) script.now) lines.now events.now entries.now) }
{
    let mut text = String::new(alloc);
    let mut number = 0u64;
    let mut rest = script;
    while let [line, after @ ..] = rest {
        // No memory has room for so many.
        number = number.checked_add(1).ok_or(AllocError)?;
        push_line(alloc, &mut text, number, line, lines, events, entries)?;
        rest = after;
    }
    Ok(text)
}

/// The text of a script, with what its events came to below the lines of their commands. What was told there before is left out, and
/// events of which nothing came are not told.
#[tactic(auto, unfolding(crate::specs::Rewriting::rewritten))]
pub fn rewritten(
    alloc: Global,
    script: &str,
    lines: &[u64],
    events: &[Event],
    entries: &[Entry],
) -> Result<String, AllocError>
    ensures { IfOk result (λ text. string_bytes text
        ≡ texts.rewritten script.now lines.now events.now entries.now) }
{
    let them = lines_of(alloc, script)?;
    rewritten_lines(alloc, them.as_slice(), lines, events, entries)
}
