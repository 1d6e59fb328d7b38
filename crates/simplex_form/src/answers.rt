//! Reads an application's answers.
ghost use Rattle.std.specs.Prelude.{◌≡◌};
ghost use Rattle.serde_json.specs.View.{view};
ghost use Rattle.simplex_form.specs.Events.{payload_of, stage_of, vote_of, verdict_of, valued_answer_of, named_answer_of, answer_of};

use crate::hex_text::read_digest;
use crate::pieces::{flag_at, has_members, text_at};
use serde_json::Value;
use simplex_types::{Answer, Handoff};

fn read_payload(value: &Value) -> Option<Answer>
    ensures { result ≡ payload_of (view value.now) }
{
    let payload = read_digest(text_at(value, "payload")?)?;
    Some(Answer::Payload(payload))
}

fn read_stage(value: &Value) -> Option<Answer>
    ensures { result ≡ stage_of (view value.now) }
{
    let payload = read_digest(text_at(value, "stage")?)?;
    Some(Answer::Handoff(Handoff::Stage(payload)))
}

fn read_vote(value: &Value) -> Option<Answer>
    ensures { result ≡ vote_of (view value.now) }
{
    let payload = read_digest(text_at(value, "vote")?)?;
    Some(Answer::Handoff(Handoff::Vote(payload)))
}

fn read_verdict(value: &Value) -> Option<Answer>
    ensures { result ≡ verdict_of (view value.now) }
{
    let verdict = flag_at(value, "verdict")?;
    Some(Answer::Verdict(verdict))
}

fn read_valued_answer(value: &Value) -> Option<Answer>
    ensures { result ≡ valued_answer_of (view value.now) }
{
    if !has_members(value, 1) {
        return None;
    }
    if let Some(payload) = read_payload(value) {
        return Some(payload);
    }
    if let Some(stage) = read_stage(value) {
        return Some(stage);
    }
    if let Some(vote) = read_vote(value) {
        return Some(vote);
    }
    read_verdict(value)
}

fn read_named_answer(name: &str) -> Option<Answer>
    ensures { result ≡ named_answer_of name.now }
{
    match name {
        "wait" => Some(Answer::Handoff(Handoff::Wait)),
        "closed" => Some(Answer::Closed),
        _ => None,
    }
}

/// An answer of any kind.
pub fn read_answer(value: &Value) -> Option<Answer>
    ensures { result ≡ answer_of (view value.now) }
{
    match value.as_str() {
        Some(name) => read_named_answer(name),
        None => read_valued_answer(value),
    }
}
