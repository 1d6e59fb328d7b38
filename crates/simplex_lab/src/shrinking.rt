//! Leaves events out of an input while its run still makes a line.
ghost use Rattle.std.specs.Prelude.{◌≡◌, ◌++◌, IfOk, string_bytes};
ghost use Rattle.simplex_lab.specs.Lines.{makes_as_written, makes_line, occurs, read_makes_line, run_text, says_line};
ghost use Rattle.simplex_lab.specs.declared.words.Word.TheVariants as asks;
ghost use Rattle.simplex_lab.specs.Says.{AnswersOn};

use crate::reason::LabReason;
use crate::told::Told;
use simplex_form::{Input, read_input};
use simplex_front::Answer;
use simplex_run::run_network;
use simplex_shrinker::{Probe, shrink};
use simplex_text::{printed_run, refusal_text};
use simplex_transcript::{Event, RunError, Setup};
use simplex_writer::write_input;
use std::alloc::{AllocError, Global};

// Whether the bytes stand somewhere in the text.
fn occurs(wanted: &[u8], text: &[u8]) -> bool
    ensures { result ≡ occurs wanted.now text.now }
{
    let mut rest = text;
    while let [_, after @ ..] = rest {
        if rest.starts_with(wanted) {
            return true;
        }
        rest = after;
    }
    false
}

// Whether a text of a run says the line.
fn says_line(alloc: Global, line: &[u8], text: &[u8]) -> Result<bool, AllocError>
    ensures { IfOk result (λ yes. yes ≡ says_line line.now text.now) }
{
    let reported = between(alloc, b" ", line, b"\n")?;
    if occurs(&reported, text) {
        return Ok(true);
    }
    let refused = between(alloc, b"", line, b" at ")?;
    Ok(text.starts_with(&refused))
}

fn between(alloc: Global, before: &[u8], line: &[u8], behind: &[u8]) -> Result<Vec<u8>, AllocError>
    ensures { IfOk result (λ all. all.items ≡ (before.now ++ line.now) ++ behind.now) }
{
    let mut all = before.to_vec(alloc)?;
    all.extend_from_slice(line)?;
    all.extend_from_slice(behind)?;
    Ok(all)
}

// What `run` writes of a run.
#[tactic(auto, unfolding(crate::specs::Lines::run_text))]
fn run_text(alloc: Global, setup: &Setup, events: &[Event]) -> Result<String, AllocError>
    ensures { IfOk result (λ text. string_bytes text ≡ run_text setup.now events.now) }
{
    match run_network(alloc, setup, events) {
        Ok(transcript) => printed_run(alloc, events, transcript.entries.as_slice()),
        Err(refusal) => {
            if matches!(refusal.error, RunError::Memory) {
                return Err(AllocError);
            }
            refusal_text(alloc, &refusal)
        }
    }
}

// Whether the run of an input makes the line.
fn makes_line(alloc: Global, line: &[u8], input: &Input) -> Result<bool, AllocError>
    ensures { IfOk result (λ yes. yes ≡ makes_line line.now input.now) }
{
    let text = run_text(alloc, &input.setup, input.events.as_slice())?;
    says_line(alloc, line, text.as_bytes())
}

// Whether the run of what was read makes the line.
fn read_makes_line(
    alloc: Global,
    line: &[u8],
    read: &Result<Input, u64>,
) -> Result<bool, AllocError>
    ensures { IfOk result (λ yes. yes ≡ read_makes_line line.now read.now) }
{
    match read {
        Ok(made) => makes_line(alloc, line, made),
        Err(_) => Ok(false),
    }
}

/// Whether an input of a setup, as it is written and read, makes a line.
#[derive(Drop)]
struct LineProbe<'a> {
    setup: &'a Setup,
    line: &'a [u8],
}

impl Probe for LineProbe<'_> {
    ghost stays = { λ probe. makes_as_written probe.setup.now probe.line.now };

    fn try_on(&self, alloc: Global, events: &[Event]) -> Result<bool, AllocError> {
        let text = write_input(alloc, self.setup, events)?;
        let read = read_input(alloc, text.as_bytes())?;
        let makes = read_makes_line(alloc, self.line, &read)?;
        Ok(makes)
    }
}

/// The input with fewer events that is found, where the run of an input makes the line.
#[tactic(auto, using(crate::proofs::Saying::shrunk))]
pub(crate) fn shrunk(
    alloc: Global,
    line: &[u8],
    input: Input,
) -> Result<Answer<Told, LabReason>, AllocError>
    ensures { IfOk result (AnswersOn (asks.Shrink line.now) input) }
{
    let Input { setup, events } = input;
    let probe = LineProbe {
        setup: &setup,
        line,
    };
    if !probe.try_on(alloc, events.as_slice())? {
        return Ok(Answer::Refused {
            reason: LabReason::NotMade,
            text: String::from_str(alloc, "not made\n")?,
        });
    }
    let left = shrink(alloc, &probe, events)?;
    let text = write_input(alloc, &setup, left.as_slice())?;
    Ok(Answer::Done {
        done: Told::Shrunk(left),
        text,
    })
}
