//! What is told of an input.
ghost use Rattle.std.specs.Prelude.{Err, IfOk};
ghost use Rattle.model_run.specs.Run.{Run};
ghost use Rattle.simplex_c.specs.Told.{told_of, told_of_input, told_of_run};
ghost use Rattle.simplex_c.specs.Answer.{Tells};

use simplex_form::{Input, read_input};
use simplex_io::LIMIT;
use simplex_run::run_network;
use simplex_text::{printed_run, refusal_text};
use simplex_transcript::{Event, RunError, Setup};
use std::alloc::{AllocError, Global};

/// A status, and a text.
#[derive(Drop)]
pub(crate) struct Answer {
    pub(crate) status: u8,
    pub(crate) text: String,
}

// What is told of the run of these events.
fn answer_of_run(alloc: Global, setup: &Setup, events: &[Event]) -> Result<Answer, AllocError>
    ensures { IfOk result
        (λ answer. Tells answer (told_of_run events.now (Run setup.now events.now))) }
{
    match run_network(alloc, setup, events) {
        Ok(transcript) => {
            let text = printed_run(alloc, events, transcript.entries.as_slice())?;
            Ok(Answer { status: 0, text })
        }
        Err(refusal) => {
            if matches!(refusal.error, RunError::Memory) {
                return Err(AllocError);
            }
            let text = refusal_text(alloc, &refusal)?;
            Ok(Answer { status: 1, text })
        }
    }
}

// What is told of an input that is not of the form at this place.
fn bad_input(alloc: Global, place: u64) -> Result<Answer, AllocError>
    ensures { IfOk result (λ answer. Tells answer (told_of_input (Err place))) }
{
    let text = format!(in alloc; "bad input at {place}\n")?;
    Ok(Answer { status: 3, text })
}

/// What is told of the input.
pub(crate) fn answer_to(alloc: Global, input: &[u8]) -> Result<Answer, AllocError>
    ensures { IfOk result (λ answer. Tells answer (told_of input.now)) }
{
    if input.len() > LIMIT as usize {
        let text = String::from_str(alloc, "input too long\n")?;
        return Ok(Answer { status: 4, text });
    }
    match read_input(alloc, input)? {
        Ok(Input { setup, events }) => answer_of_run(alloc, &setup, events.as_slice()),
        Err(place) => bad_input(alloc, place),
    }
}
