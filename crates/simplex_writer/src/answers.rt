//! Writes an application's answer.
ghost use Rattle.std.specs.Prelude.{◌≡◌, IfOk, string_bytes};
ghost use Rattle.simplex_writer.specs.Pieces.{hex_text as text_of_hex};
ghost use Rattle.simplex_writer.specs.Events as events;

use crate::names::flag_name;
use crate::values::hex_text;
use simplex_types::{Answer, Digest, Handoff};
use std::alloc::{AllocError, Global};

// `{NAME:HEX}`.
fn with_payload(alloc: Global, name: &str, payload: &Digest) -> Result<String, AllocError>
    ensures { IfOk result (λ text. string_bytes text
        ≡ events.one_member name.now (text_of_hex payload.now)) }
{
    let payload = hex_text(alloc, payload.0.as_slice())?;
    let payload = payload.as_str();
    format!(in alloc; "{{\"{name}\":{payload}}}")
}

fn verdict_text(alloc: Global, verdict: bool) -> Result<String, AllocError>
    ensures { IfOk result (λ text. string_bytes text ≡ events.verdict_text verdict) }
{
    let verdict = flag_name(verdict);
    format!(in alloc; "{{\"verdict\":{verdict}}}")
}

/// An answer of any kind.
pub(crate) fn answer_text(alloc: Global, answer: &Answer) -> Result<String, AllocError>
    ensures { IfOk result (λ text. string_bytes text ≡ events.answer_text answer.now) }
{
    match answer {
        Answer::Payload(payload) => with_payload(alloc, "payload", payload),
        Answer::Handoff(Handoff::Wait) => String::from_str(alloc, "\"wait\""),
        Answer::Handoff(Handoff::Stage(payload)) => with_payload(alloc, "stage", payload),
        Answer::Handoff(Handoff::Vote(payload)) => with_payload(alloc, "vote", payload),
        Answer::Verdict(verdict) => verdict_text(alloc, *verdict),
        Answer::Closed => String::from_str(alloc, "\"closed\""),
    }
}
