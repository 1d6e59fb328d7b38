//! Reads and writes the entries of a record.
ghost use Rattle.std.specs.Prelude.{◌≡◌, IfOk, Option, Some};
ghost use Rattle.serde_json.specs.Find.{get};
ghost use Rattle.serde_json.specs.View.{view};
ghost use Rattle.simplex_audit_form.specs.Entries.{outcome_of, who_of, list_at, entry_of, outcome_name, who_data, entry_data};
ghost use Rattle.simplex_audit_form.specs.Entries as form;

use crate::form::{Form, read_list, write_list};
use crate::took::{read_took, write_took};
use model_audit::{AuditEntry, AuditTook};
use serde_json::{Value, json};
use simplex_form::{has_members, number_at, text_at};
use simplex_messages::Outcome;
use simplex_transcript::Node;
use simplex_types::Sequence;
use std::alloc::{AllocError, Global};

fn read_outcome(name: &str) -> Option<Outcome>
    ensures { result ≡ outcome_of name.now }
{
    match name {
        "done" => Some(Outcome::Done),
        "idle" => Some(Outcome::Idle),
        "journal" => Some(Outcome::Journal),
        "cut" => Some(Outcome::Cut),
        "refused" => Some(Outcome::Refused),
        _ => None,
    }
}

fn outcome_at(value: &Value) -> Option<Outcome>
    ensures { result ≡ form.outcome_at (view value.now) }
{
    read_outcome(text_at(value, "outcome")?)
}

fn read_who(alloc: Global, value: &Value) -> Result<Option<Option<Node>>, AllocError>
    ensures { IfOk result (λ o. o ≡ who_of (view value.now)) }
{
    if value.is_null() {
        return Ok(Some(None));
    }
    match <Node as Form>::read(alloc, value)? {
        Some(node) => Ok(Some(Some(node))),
        None => Ok(None),
    }
}

fn who_at(alloc: Global, value: &Value) -> Result<Option<Option<Node>>, AllocError>
    ensures { IfOk result (λ o. o ≡ form.who_at (view value.now)) }
{
    match value.get("who") {
        Some(part) => read_who(alloc, part),
        None => Ok(None),
    }
}

fn took_at(alloc: Global, value: &Value) -> Result<Option<AuditTook>, AllocError>
    ensures { IfOk result (λ o. o ≡ form.took_at (view value.now)) }
{
    match value.get("took") {
        Some(part) => read_took(alloc, part),
        None => Ok(None),
    }
}

fn list_at<T: Form>(
    alloc: Global,
    value: &Value,
    name: &str,
) -> Result<Option<Sequence<T>>, AllocError>
    ensures { IfOk result (λ o. o ≡ list_at T.of name.now (view value.now)) }
{
    match value.get(name) {
        Some(part) => read_list::<T>(alloc, part),
        None => Ok(None),
    }
}

// What an entry has besides its lists.
#[derive(Drop)]
struct Head {
    event: u64,
    who: Option<Node>,
    took: AuditTook,
    outcome: Outcome,
}

fn read_head(alloc: Global, value: &Value) -> Result<Option<Head>, AllocError>
    ensures { IfOk result (λ o. o ≡ form.head_of (view value.now)) }
{
    let Some(event) = number_at(value, "event") else {
        return Ok(None);
    };
    let Some(who) = who_at(alloc, value)? else {
        return Ok(None);
    };
    let Some(took) = took_at(alloc, value)? else {
        return Ok(None);
    };
    let Some(outcome) = outcome_at(value) else {
        return Ok(None);
    };
    Ok(Some(Head {
        event,
        who,
        took,
        outcome,
    }))
}

fn read_lists(alloc: Global, value: &Value, head: Head) -> Result<Option<AuditEntry>, AllocError>
    ensures { IfOk result (λ o. o ≡ form.with_lists (view value.now) head) }
{
    let Some(added) = list_at(alloc, value, "added")? else {
        return Ok(None);
    };
    let Some(asked) = list_at(alloc, value, "asked")? else {
        return Ok(None);
    };
    let Some(dropped) = list_at(alloc, value, "dropped")? else {
        return Ok(None);
    };
    let Some(calls) = list_at(alloc, value, "calls")? else {
        return Ok(None);
    };
    let Some(packets) = list_at(alloc, value, "packets")? else {
        return Ok(None);
    };
    let Head {
        event,
        who,
        took,
        outcome,
    } = head;
    Ok(Some(AuditEntry {
        event,
        who,
        took,
        added,
        asked,
        dropped,
        calls,
        packets,
        outcome,
    }))
}

fn read_entry(alloc: Global, value: &Value) -> Result<Option<AuditEntry>, AllocError>
    ensures { IfOk result (λ o. o ≡ entry_of (view value.now)) }
{
    if !has_members(value, 9) {
        return Ok(None);
    }
    match read_head(alloc, value)? {
        Some(head) => read_lists(alloc, value, head),
        None => Ok(None),
    }
}

// The name of an outcome.
fn outcome_name(outcome: Outcome) -> &'static str
    ensures { result.now ≡ outcome_name outcome }
{
    match outcome {
        Outcome::Done => "done",
        Outcome::Idle => "idle",
        Outcome::Journal => "journal",
        Outcome::Cut => "cut",
        Outcome::Refused => "refused",
    }
}

fn write_who(alloc: Global, who: &Option<Node>) -> Result<Value, AllocError>
    ensures { IfOk result (λ value. view value ≡ who_data who.now) }
{
    match who {
        Some(node) => node.write(alloc),
        None => Ok(Value::Null),
    }
}

impl Form for AuditEntry {
    ghost of = { entry_of };

    ghost data_of = { entry_data };

    fn read(alloc: Global, value: &Value) -> Result<Option<AuditEntry>, AllocError> {
        read_entry(alloc, value)
    }

    fn write(&self, alloc: Global) -> Result<Value, AllocError> {
        let added = write_list(alloc, self.added.as_slice())?;
        let asked = write_list(alloc, self.asked.as_slice())?;
        let calls = write_list(alloc, self.calls.as_slice())?;
        let dropped = write_list(alloc, self.dropped.as_slice())?;
        let event = self.event;
        let outcome = outcome_name(self.outcome);
        let packets = write_list(alloc, self.packets.as_slice())?;
        let took = write_took(alloc, &self.took)?;
        let who = write_who(alloc, &self.who)?;
        json!(in alloc; {"added": added, "asked": asked, "calls": calls, "dropped": dropped, "event": event, "outcome": outcome, "packets": packets, "took": took, "who": who})
    }
}
