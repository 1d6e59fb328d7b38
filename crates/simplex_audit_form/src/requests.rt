//! Reads and writes requests to an application.
ghost use Rattle.std.specs.Prelude.{◌≡◌, IfOk, Option, option_map};
ghost use Rattle.serde_json.specs.View.{view};
ghost use Rattle.simplex_audit_form.specs.Requests.{round_at, payload_at, parent_of, leader_at, context_of, is_null_at, wanted_of, verify_of, certify_of, kind_asked_of, asked_of, parent_data, request_data, context_data, asked_data};

use crate::form::Form;
use crate::pieces::{read_round, write_hex, write_round};
use model_rules::Asked;
use serde_json::{Value, json};
use simplex_form::{has_items, has_members, number_at, read_digest, text_at};
use simplex_types::{Context, Digest, Parent, Participant, Round, View};
use std::alloc::{AllocError, Global};

fn round_at(value: &Value) -> Option<Round>
    ensures { result ≡ round_at (view value.now) }
{
    read_round(value.get("round")?)
}

fn payload_at(value: &Value) -> Option<Digest>
    ensures { result ≡ payload_at (view value.now) }
{
    read_digest(text_at(value, "payload")?)
}

fn read_parent(value: &Value) -> Option<Parent>
    ensures { result ≡ parent_of (view value.now) }
{
    if !has_items(value, 2) {
        return None;
    }
    let view = value.get(0usize)?.as_u64()?;
    let payload = read_digest(value.get(1usize)?.as_str()?)?;
    Some(Parent {
        view: View(view),
        payload,
    })
}

// The leader has the number of a member.
fn leader_at(value: &Value) -> Option<Participant>
    ensures { result ≡ leader_at (view value.now) }
{
    let leader = number_at(value, "leader")?;
    if leader >= 1 << 32 {
        return None;
    }
    Some(Participant(leader as u32))
}

fn read_context(value: &Value) -> Option<Context>
    ensures { result ≡ context_of (view value.now) }
{
    let round = round_at(value)?;
    let leader = leader_at(value)?;
    let parent = read_parent(value.get("parent")?)?;
    Some(Context {
        round,
        leader,
        parent,
    })
}

// Whether the member of this name is there, and null.
fn is_null_at(value: &Value, name: &str) -> bool
    ensures { result ≡ is_null_at name.now (view value.now) }
{
    match value.get(name) {
        Some(it) => it.is_null(),
        None => false,
    }
}

// Of a payload that is wanted there is none yet.
fn read_wanted(value: &Value) -> Option<Context>
    ensures { result ≡ wanted_of (view value.now) }
{
    if !is_null_at(value, "payload") {
        return None;
    }
    read_context(value)
}

fn read_verify(value: &Value) -> Option<Asked>
    ensures { result ≡ verify_of (view value.now) }
{
    let context = read_context(value)?;
    let payload = payload_at(value)?;
    Some(Asked::Verify(context, payload))
}

fn read_certify(value: &Value) -> Option<Asked>
    ensures { result ≡ certify_of (view value.now) }
{
    if !is_null_at(value, "leader") {
        return None;
    }
    if !is_null_at(value, "parent") {
        return None;
    }
    let round = round_at(value)?;
    let payload = payload_at(value)?;
    Some(Asked::Certify(round, payload))
}

fn read_prepare(value: &Value) -> Option<Asked>
    ensures { result ≡ option_map Asked.Prepare (wanted_of (view value.now)) }
{
    let context = read_wanted(value)?;
    Some(Asked::Prepare(context))
}

fn read_propose(value: &Value) -> Option<Asked>
    ensures { result ≡ option_map Asked.Propose (wanted_of (view value.now)) }
{
    let context = read_wanted(value)?;
    Some(Asked::Propose(context))
}

fn read_kind(kind: &str, value: &Value) -> Option<Asked>
    ensures { result ≡ kind_asked_of kind.now (view value.now) }
{
    match kind {
        "prepare" => read_prepare(value),
        "propose" => read_propose(value),
        "verify" => read_verify(value),
        "certify" => read_certify(value),
        _ => None,
    }
}

fn read_asked(value: &Value) -> Option<Asked>
    ensures { result ≡ asked_of (view value.now) }
{
    if !has_members(value, 5) {
        return None;
    }
    read_kind(text_at(value, "kind")?, value)
}

fn write_parent(alloc: Global, parent: &Parent) -> Result<Value, AllocError>
    ensures { IfOk result (λ value. view value ≡ parent_data parent.now) }
{
    let payload = write_hex(alloc, parent.payload.0.as_slice())?;
    let view = parent.view.0;
    json!(in alloc; [view, payload])
}

fn write_request(
    alloc: Global,
    kind: &str,
    leader: Value,
    parent: Value,
    payload: Value,
    round: &Round,
) -> Result<Value, AllocError>
    ensures { IfOk result (λ value. view value
        ≡ request_data kind.now (view leader) (view parent) (view payload) round.now) }
{
    let round = write_round(alloc, round)?;
    json!(in alloc; {"kind": kind, "leader": leader, "parent": parent, "payload": payload, "round": round})
}

fn write_context(
    alloc: Global,
    kind: &str,
    context: &Context,
    payload: Value,
) -> Result<Value, AllocError>
    ensures { IfOk result (λ value. view value ≡ context_data kind.now context.now (view payload)) }
{
    let leader = u64::from(context.leader.0).write(alloc)?;
    let parent = write_parent(alloc, &context.parent)?;
    write_request(alloc, kind, leader, parent, payload, &context.round)
}

fn write_asked(alloc: Global, asked: &Asked) -> Result<Value, AllocError>
    ensures { IfOk result (λ value. view value ≡ asked_data asked.now) }
{
    match asked {
        Asked::Prepare(context) => write_context(alloc, "prepare", context, Value::Null),
        Asked::Propose(context) => write_context(alloc, "propose", context, Value::Null),
        Asked::Verify(context, payload) => {
            let payload = write_hex(alloc, payload.0.as_slice())?;
            write_context(alloc, "verify", context, payload)
        }
        Asked::Certify(round, payload) => {
            let payload = write_hex(alloc, payload.0.as_slice())?;
            write_request(alloc, "certify", Value::Null, Value::Null, payload, round)
        }
    }
}

impl Form for Asked {
    ghost of = { asked_of };

    ghost data_of = { asked_data };

    fn read(_alloc: Global, value: &Value) -> Result<Option<Asked>, AllocError> {
        Ok(read_asked(value))
    }

    fn write(&self, alloc: Global) -> Result<Value, AllocError> {
        write_asked(alloc, self)
    }
}
