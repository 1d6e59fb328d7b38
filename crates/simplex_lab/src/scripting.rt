//! Runs a script, and tells it with what came out.
ghost use Rattle.std.specs.Prelude.{◌≡◌, Ok, IfOk, string_bytes};
ghost use Rattle.simplex_script.specs.Scripts.{script_of};
ghost use Rattle.simplex_lab.specs.declared.words.Word.TheVariants as asks;
ghost use Rattle.simplex_lab.specs.Says as says;
ghost use Rattle.simplex_lab.specs.Says.{Answers, ComesTo};

use crate::reason::LabReason;
use crate::reasons::reason_line;
use crate::told::Told;
use simplex_front::Answer;
use simplex_run::{Transcript, run_network};
use simplex_script::{BadLine, Script, fault_text, read_script};
use simplex_scripts::{Compiled, compile, rewritten};
use simplex_text::refusal_text;
use simplex_transcript::{Refusal, RunError};
use simplex_writer::write_input;
use std::alloc::{AllocError, Global};
use std::str::from_utf8;

// The input that has the events of a script, or the script with what came out.
fn scripted_text(
    alloc: Global,
    shows_events: bool,
    text: &str,
    script: &Script,
    compiled: &Compiled,
    transcript: &Transcript,
) -> Result<String, AllocError>
    ensures { IfOk result (λ it. string_bytes it
        ≡ says.scripted_text shows_events text.now script.now compiled.now transcript.now.entries) }
{
    let events = compiled.events.as_slice();
    if shows_events {
        return write_input(alloc, &script.setup, events);
    }
    rewritten(
        alloc,
        text,
        compiled.lines.as_slice(),
        events,
        transcript.entries.as_slice(),
    )
}

// The line of the event of this number, which is counted from 1.
fn line_at(lines: &[u64], number: u64) -> Option<u64>
    ensures { result ≡ says.line_at lines.now number }
{
    let place = number.checked_sub(1)?;
    lines.get(place as usize).copied()
}

// Which line it is, if there is one.
fn in_line(alloc: Global, line: Option<u64>) -> Result<String, AllocError>
    ensures { IfOk result (λ text. string_bytes text ≡ says.in_line line) }
{
    match line {
        None => Ok(String::new(alloc)),
        Some(line) => format!(in alloc; "in line {line}\n"),
    }
}

// The refusal, the line of its event, and why it is refused.
fn refused_in(alloc: Global, lines: &[u64], refusal: &Refusal) -> Result<String, AllocError>
    ensures { IfOk result (λ text. string_bytes text ≡ says.refused_in lines.now refusal.now) }
{
    let line = in_line(alloc, line_at(lines, refusal.event))?;
    let mut text = refusal_text(alloc, refusal)?;
    text.push_str(line.as_str())?;
    text.push_str(reason_line(alloc, &refusal.error)?.as_str())?;
    Ok(text)
}

// What the run of a script comes to.
#[tactic(auto, using(crate::proofs::Traced::made_whole, crate::proofs::Scripted::scripted, crate::proofs::Scripted::script_refused))]
fn run(
    alloc: Global,
    shows_events: bool,
    text: &str,
    script: &Script,
    compiled: &Compiled,
) -> Result<Answer<Told, LabReason>, AllocError>
    requires { ComesTo text.now script.now compiled.now }
    ensures { IfOk result (Answers (asks.Script shows_events) text.now) }
{
    match run_network(alloc, &script.setup, compiled.events.as_slice()) {
        Ok(transcript) => {
            let text = scripted_text(alloc, shows_events, text, script, compiled, &transcript)?;
            Ok(Answer::Done {
                done: Told::Run(transcript),
                text,
            })
        }
        Err(refusal) => {
            if matches!(refusal.error, RunError::Memory) {
                return Err(AllocError);
            }
            let text = refused_in(alloc, compiled.lines.as_slice(), &refusal)?;
            Ok(Answer::Refused {
                reason: LabReason::Refused(refusal),
                text,
            })
        }
    }
}

// What a script comes to that was read.
#[tactic(auto, using(crate::proofs::Scripted::comes_to, crate::proofs::Scripted::not_there))]
fn played(
    alloc: Global,
    shows_events: bool,
    text: &str,
    script: &Script,
) -> Result<Answer<Told, LabReason>, AllocError>
    requires { script_of text.now ≡ Ok script.now }
    ensures { IfOk result (Answers (asks.Script shows_events) text.now) }
{
    match compile(alloc, script)? {
        Err(bad) => Ok(Answer::BadInput { place: bad.line }),
        Ok(compiled) => run(alloc, shows_events, text, script, &compiled),
    }
}

// What the text of a script comes to.
#[tactic(auto, using(crate::proofs::Scripted::not_read))]
fn told(
    alloc: Global,
    shows_events: bool,
    text: &str,
) -> Result<Answer<Told, LabReason>, AllocError>
    ensures { IfOk result (Answers (asks.Script shows_events) text.now) }
{
    match read_script(alloc, text)? {
        Err(bad) => Ok(Answer::BadInput { place: bad.line }),
        Ok(script) => played(alloc, shows_events, text, &script),
    }
}

/// What the bytes of a script come to.
#[tactic(auto, using(crate::proofs::Scripted::no_text))]
pub(crate) fn scripted(
    alloc: Global,
    shows_events: bool,
    bytes: &[u8],
) -> Result<Answer<Told, LabReason>, AllocError>
    ensures { IfOk result (Answers (asks.Script shows_events) bytes.now) }
{
    match from_utf8(bytes) {
        Err(_) => Ok(Answer::BadInput { place: 0 }),
        Ok(text) => told(alloc, shows_events, text),
    }
}

// The first line of a script that is refused, if there is one.
fn first_bad(alloc: Global, text: &str) -> Result<Option<BadLine>, AllocError> {
    match read_script(alloc, text)? {
        Err(bad) => Ok(Some(bad)),
        Ok(script) => Ok(compile(alloc, &script)?.err()),
    }
}

/// Why the bytes are no script that can be run, in words: its first bad line. Where there is none, nothing.
pub fn script_fault(alloc: Global, bytes: &[u8]) -> Result<Option<String>, AllocError> {
    let Ok(text) = from_utf8(bytes) else {
        return Ok(Some(String::from_str(alloc, "it is no text in UTF-8")?));
    };
    match first_bad(alloc, text)? {
        None => Ok(None),
        Some(bad) => {
            let why = fault_text(alloc, &bad.fault)?;
            let why = why.as_str();
            let line = bad.line;
            Ok(Some(format!(in alloc; "line {line}: {why}")?))
        }
    }
}
