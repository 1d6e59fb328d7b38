//! Reads and writes a record with the input of its run.
ghost use Rattle.std.specs.Prelude.{◌≡◌, ◌+◌, ◌<◌, ◌^◌, length, IfOk};
ghost use Rattle.serde_json.specs.View.{view, items_view};
ghost use Rattle.simplex_audit_form.specs.Document.{with_events, form_of, document_of, document_data};

use crate::form::{read_items, write_list};
use model_audit::AuditEntry;
use serde_json::{Value, json};
use simplex_form::{InputFault, has_members, read_setup, read_value};
use simplex_transcript::{Event, Setup};
use simplex_types::Sequence;
use std::alloc::{AllocError, Global};

/// A setup, what happens in the run, and a record of it.
#[derive(Debug, PartialEq, Eq, Drop)]
pub struct Document {
    /// What all members are made with.
    pub setup: Setup,
    /// What happens, in order.
    pub events: Sequence<Event>,
    /// What is said to have come of it.
    pub entries: Sequence<AuditEntry>,
}

// The entries, which are counted behind the events.
fn read_entries(
    alloc: Global,
    setup: Setup,
    events: Sequence<Event>,
    values: &[Value],
) -> Result<Result<Document, u64>, AllocError>
    requires { length events < 2 ^ 61 }
    ensures { IfOk result (λ r. r ≡ with_events setup (items_view values.now) (Ok events)) }
{
    let first = 2 + events.len() as u64;
    match read_items::<AuditEntry>(alloc, values, first)? {
        Ok(entries) => Ok(Ok(Document {
            setup,
            events,
            entries,
        })),
        Err(place) => Ok(Err(place)),
    }
}

// What the value says, or the place of the first part that is not of the form.
fn read_form(alloc: Global, value: &Value) -> Result<Result<Document, u64>, AllocError>
    ensures { IfOk result (λ r. r ≡ form_of (view value.now)) }
{
    if !has_members(value, 3) {
        return Ok(Err(1));
    }
    let Some(part) = value.get("setup") else {
        return Ok(Err(1));
    };
    let Some(setup) = read_setup(alloc, part)? else {
        return Ok(Err(1));
    };
    let Some(part) = value.get("events") else {
        return Ok(Err(1));
    };
    let Some(happened) = part.as_array() else {
        return Ok(Err(1));
    };
    let Some(part) = value.get("entries") else {
        return Ok(Err(1));
    };
    let Some(told) = part.as_array() else {
        return Ok(Err(1));
    };
    match simplex_form::read_items::<Event>(alloc, happened, 2)? {
        Ok(events) => read_entries(alloc, setup, events, told),
        Err(place) => Ok(Err(place)),
    }
}

/// What the bytes say, or the place of the first part that is not of the form: 0 where they are no JSON, or nest too deep, 1 for
/// the top object and its setup, 1 + k for event k, and 1 + e + k for entry k behind e events, both counted from 1.
pub fn read_document(alloc: Global, bytes: &[u8]) -> Result<Result<Document, u64>, AllocError>
    ensures { IfOk result (λ r. r ≡ document_of bytes.now) }
{
    match read_value(alloc, bytes) {
        Ok(value) => read_form(alloc, &value),
        Err(InputFault::At(place)) => Ok(Err(place)),
        Err(InputFault::Memory) => Err(AllocError),
    }
}

/// The JSON value of a record, over the setup and the events as they were read.
pub fn document_value(
    alloc: Global,
    setup: Value,
    events: Value,
    entries: &[AuditEntry],
) -> Result<Value, AllocError>
    ensures { IfOk result (λ value. view value
        ≡ document_data (view setup) (view events) entries.now) }
{
    let entries = write_list(alloc, entries)?;
    json!(in alloc; {"entries": entries, "events": events, "setup": setup})
}
