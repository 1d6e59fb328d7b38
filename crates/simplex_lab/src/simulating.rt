//! Makes the events of a run, and tells what comes of them.
ghost use Rattle.std.specs.Prelude.{◌≡◌, ◌≤◌, [], Ok, Err, IfOk, length, string_bytes};
ghost use Rattle.simplex_form.specs.Input.{input_of};
ghost use Rattle.simplex_simulator.specs.Going.{IsRunnable};
ghost use Rattle.simplex_lab.specs.declared.words.Word.TheVariants as asks;
ghost use Rattle.simplex_lab.specs.Says.{AnswersOn, IsMadeFor, simulated_text};

use crate::reason::LabReason;
use crate::told::Told;
use crate::words::Order;
use simplex_form::{Input, read_input};
use simplex_front::Answer;
use simplex_run::{Transcript, run_network};
use simplex_simulator::simulate;
use simplex_text::{printed_run, refusal_text};
use simplex_transcript::{Event, RunError, Setup};
use simplex_types::Sequence;
use simplex_writer::write_input;
use std::alloc::{AllocError, Global};

/// The place of the first event.
const FIRST_EVENT: u64 = 2;

// The events that are made of a setup: none, where it is refused.
#[tactic(auto, using(crate::proofs::Saying::none_refused))]
fn events_of(alloc: Global, setup: &Setup, order: &Order) -> Result<Sequence<Event>, AllocError>
    ensures few { IfOk result (λ events. length events ≤ order.now.plan.steps) }
    ensures runnable { IfOk result (λ events. IsRunnable setup.now events) }
{
    match simulate(alloc, setup, &order.plan) {
        Ok(events) => Ok(events),
        Err(RunError::Memory) => Err(AllocError),
        Err(_) => Ok(Sequence::new(alloc)),
    }
}

// The text of an input with these events.
#[tactic(auto, using(crate::proofs::Saying::made_for))]
fn written(alloc: Global, setup: &Setup, order: &Order) -> Result<String, AllocError>
    ensures { IfOk result (λ text. IsMadeFor order.now setup.now (string_bytes text)) }
{
    let events = events_of(alloc, setup, order)?;
    write_input(alloc, setup, events.as_slice())
}

// What is told of the whole run of what was written and read.
fn told(
    alloc: Global,
    order: &Order,
    written: String,
    made: &Input,
    transcript: &Transcript,
) -> Result<String, AllocError>
    ensures { IfOk result (λ text. string_bytes text
        ≡ simulated_text order.now (string_bytes written) made.now transcript.now) }
{
    if order.shows_events {
        return Ok(written);
    }
    printed_run(alloc, made.events.as_slice(), transcript.entries.as_slice())
}

// Runs what was written and read.
#[tactic(auto, using(crate::proofs::Traced::made_whole, crate::proofs::Saying::simulated, crate::proofs::Saying::refused_behind))]
fn run(
    alloc: Global,
    order: &Order,
    given: &Input,
    written: String,
    made: &Input,
) -> Result<Answer<Told, LabReason>, AllocError>
    requires empty { given.now.events ≡ [] }
    requires written { IsMadeFor order.now given.now.setup (string_bytes written) }
    requires read { input_of (string_bytes written) ≡ Ok made.now }
    ensures { IfOk result (AnswersOn (asks.Simulate order.now) given.now) }
{
    match run_network(alloc, &made.setup, made.events.as_slice()) {
        Ok(transcript) => {
            let text = told(alloc, order, written, made, &transcript)?;
            Ok(Answer::Done {
                done: Told::Run(transcript),
                text,
            })
        }
        Err(refusal) => {
            if matches!(refusal.error, RunError::Memory) {
                return Err(AllocError);
            }
            let text = refusal_text(alloc, &refusal)?;
            Ok(Answer::Refused {
                reason: LabReason::Refused(refusal),
                text,
            })
        }
    }
}

// What was written is not read at this place.
#[tactic(auto, using(crate::proofs::Saying::unread))]
fn unread(
    alloc: Global,
    order: &Order,
    given: &Input,
    written: &str,
    place: u64,
) -> Result<Answer<Told, LabReason>, AllocError>
    requires empty { given.now.events ≡ [] }
    requires written { IsMadeFor order.now given.now.setup written.now }
    requires unread { input_of written.now ≡ Err place }
    ensures { IfOk result (AnswersOn (asks.Simulate order.now) given.now) }
{
    let _written = written;
    let _order = order;
    let _given = given;
    let text = format!(in alloc; "unread at {place}\n")?;
    Ok(Answer::Refused {
        reason: LabReason::Unread { place },
        text,
    })
}

/// What a simulation for the setup of an input comes to. The input is to have no events.
pub(crate) fn simulated(
    alloc: Global,
    order: &Order,
    given: &Input,
) -> Result<Answer<Told, LabReason>, AllocError>
    ensures { IfOk result (AnswersOn (asks.Simulate order.now) given.now) }
{
    if !given.events.is_empty() {
        return Ok(Answer::BadInput { place: FIRST_EVENT });
    }
    let text = written(alloc, &given.setup, order)?;
    match read_input(alloc, text.as_bytes())? {
        Ok(made) => run(alloc, order, given, text, &made),
        Err(place) => unread(alloc, order, given, text.as_str(), place),
    }
}
