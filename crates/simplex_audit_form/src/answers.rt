//! Writes an application's answers.
ghost use Rattle.std.specs.Prelude.{◌≡◌, IfOk};
ghost use Rattle.serde_json.specs.View.{view};
ghost use Rattle.simplex_audit_form.specs.Took.{payload_data, answer_data};
ghost use Rattle.simplex_values.specs.declared.answer.Answer.TheVariants as answers;

use crate::pieces::{write_hex, write_name};
use serde_json::{Value, json};
use simplex_types::{Answer, Digest, Handoff};
use std::alloc::{AllocError, Global};

// An object of one member, which is a payload.
fn write_payload(alloc: Global, name: &str, payload: &Digest) -> Result<Value, AllocError>
    ensures { IfOk result (λ value. view value ≡ payload_data name.now payload.now) }
{
    let spelled = write_hex(alloc, payload.0.as_slice())?;
    json!(in alloc; {name: spelled})
}

// How a proposal is handed on.
fn write_handoff(alloc: Global, handoff: &Handoff<Digest>) -> Result<Value, AllocError>
    ensures { IfOk result (λ value. view value ≡ answer_data (answers.Handoff handoff.now)) }
{
    match handoff {
        Handoff::Stage(payload) => write_payload(alloc, "stage", payload),
        Handoff::Vote(payload) => write_payload(alloc, "vote", payload),
        Handoff::Wait => write_name(alloc, "wait"),
    }
}

fn write_verdict(alloc: Global, good: bool) -> Result<Value, AllocError>
    ensures { IfOk result (λ value. view value ≡ answer_data (answers.Verdict good)) }
{
    json!(in alloc; {"verdict": good})
}

/// An answer of any kind.
pub(crate) fn write_answer(alloc: Global, answer: &Answer) -> Result<Value, AllocError>
    ensures { IfOk result (λ value. view value ≡ answer_data answer.now) }
{
    match answer {
        Answer::Payload(payload) => write_payload(alloc, "payload", payload),
        Answer::Handoff(handoff) => write_handoff(alloc, handoff),
        Answer::Verdict(good) => write_verdict(alloc, *good),
        Answer::Closed => write_name(alloc, "closed"),
    }
}
