//! What is wrong, and where.
use crate::shapes::{Shape, is_fit};
use crate::spans::{Member, Span, items, members};
use crate::tables::{KINDS, SETUP, Wanted, event_table};
use serde_json::Value;
use simplex_form::{read_event, read_setup};
use std::alloc::{AllocError, Global};
use std::str;

/// How much is shown of what was found, in bytes.
const SHOWN: usize = 60;

/// What a sample is read as.
#[derive(Clone, Copy, Debug, PartialEq, Eq)]
enum Form {
    Setup,
    Event,
}

impl Form {
    /// Whether the text is of the form.
    fn is_of(self, alloc: Global, text: &str) -> Result<bool, AllocError> {
        let value = match Value::from_str(alloc, text) {
            Ok(value) => value,
            Err(error) if error.is_memory() => return Err(AllocError),
            Err(_) => return Ok(false),
        };
        match self {
            Form::Setup => Ok(read_setup(alloc, &value)?.is_some()),
            Form::Event => Ok(read_event(alloc, &value)?.is_some()),
        }
    }
}

/// The bytes as text, where they are that.
fn text_of(bytes: &[u8]) -> &str {
    str::from_utf8(bytes).unwrap_or("?")
}

/// The front of what was found.
fn shown(bytes: &[u8]) -> &str {
    match bytes.get(..SHOWN) {
        Some(front) => text_of(front),
        None => text_of(bytes),
    }
}

/// An object of the form, but for this member, which has this value.
fn sample_with(
    alloc: Global,
    table: &[Wanted],
    name: &str,
    value: &str,
) -> Result<String, AllocError> {
    let mut text = String::new(alloc);
    for wanted in table {
        text.push_str(if text.is_empty() { "{\"" } else { ",\"" })?;
        text.push_str(wanted.name)?;
        text.push_str("\":")?;
        text.push_str(if wanted.name == name {
            value
        } else {
            wanted.sample
        })?;
    }
    text.push_str("}")?;
    Ok(text)
}

/// What is said of a member.
fn says(
    alloc: Global,
    at: usize,
    wanted: &Wanted,
    found: Option<&[u8]>,
) -> Result<String, AllocError> {
    let (name, words) = (wanted.name, wanted.words);
    match found {
        Some(bytes) => {
            let value = shown(bytes);
            Ok(format!(in alloc; "byte {at}: \"{name}\" is {value}, wanted {words}")?)
        }
        None => Ok(format!(in alloc; "byte {at}: \"{name}\" is missing, wanted {words}")?),
    }
}

/// The member of this name: the last, whose value counts, where several have it.
fn find(bytes: &[u8], all: &[Member], name: &str) -> Option<Member> {
    let mut found = None;
    for member in all {
        if member.name.of(bytes) == name.as_bytes() {
            found = Some(*member);
        }
    }
    found
}

/// The first member of the table that is missing, or whose value is not of the form.
fn bad_member(
    alloc: Global,
    bytes: &[u8],
    object: Span,
    all: &[Member],
    table: &[Wanted],
    form: Form,
) -> Result<Option<String>, AllocError> {
    for wanted in table {
        let Some(member) = find(bytes, all, wanted.name) else {
            return Ok(Some(says(alloc, object.start, wanted, None)?));
        };
        let found = member.value.of(bytes);
        let sample = sample_with(alloc, table, wanted.name, text_of(found))?;
        if !form.is_of(alloc, &sample)? {
            return Ok(Some(says(alloc, member.value.start, wanted, Some(found))?));
        }
    }
    Ok(None)
}

/// Whether the table has the name.
fn has_name(table: &[Wanted], name: &[u8]) -> bool {
    table.iter().any(|wanted| wanted.name.as_bytes() == name)
}

/// The first member that the table does not have.
fn unknown_member(
    alloc: Global,
    bytes: &[u8],
    all: &[Member],
    table: &[Wanted],
) -> Result<Option<String>, AllocError> {
    for member in all {
        let name = member.name.of(bytes);
        if !has_name(table, name) {
            let at = member.name.start;
            let name = shown(name);
            return Ok(Some(format!(in alloc; "byte {at}: no key \"{name}\" is wanted here")?));
        }
    }
    Ok(None)
}

/// What is wrong with an object, if anything is.
fn object_fault(
    alloc: Global,
    bytes: &[u8],
    object: Span,
    table: &[Wanted],
    form: Form,
) -> Result<Option<String>, AllocError> {
    let at = object.start;
    if object.of(bytes).first() != Some(&b'{') {
        let found = shown(object.of(bytes));
        return Ok(Some(format!(in alloc; "byte {at}: found {found}, wanted an object")?));
    }
    let all = members(alloc, bytes, object)?;
    if let Some(fault) = unknown_member(alloc, bytes, &all, table)? {
        return Ok(Some(fault));
    }
    bad_member(alloc, bytes, object, &all, table, form)
}

/// What is wrong with an event.
fn event_fault(alloc: Global, bytes: &[u8], event: Span) -> Result<String, AllocError> {
    let kind = Wanted {
        name: "do",
        sample: "",
        words: KINDS,
    };
    let all = members(alloc, bytes, event)?;
    let Some(member) = find(bytes, &all, "do") else {
        return says(alloc, event.start, &kind, None);
    };
    let found = member.value.of(bytes);
    let name = text_of(found).trim_matches('"');
    match event_table(name) {
        Some(table) => match object_fault(alloc, bytes, event, table, Form::Event)? {
            Some(fault) => Ok(fault),
            // A command that wants no events refuses one that is of the form.
            None => {
                let at = event.start;
                Ok(format!(in alloc;
                    "byte {at}: this is of the form, but not wanted here: the list of events has to be empty"
                )?)
            }
        },
        None => says(alloc, member.value.start, &kind, Some(found)),
    }
}

/// What is wrong with the top object of this shape, or with the setup in it.
fn top_fault(alloc: Global, bytes: &[u8], top: Span, shape: Shape) -> Result<String, AllocError> {
    let at = top.start;
    if top.of(bytes).first() != Some(&b'{') {
        let found = shown(top.of(bytes));
        return Ok(format!(in alloc; "byte {at}: found {found}, wanted an object")?);
    }
    let (all, table) = (members(alloc, bytes, top)?, shape.table());
    if let Some(fault) = unknown_member(alloc, bytes, &all, table)? {
        return Ok(fault);
    }
    for wanted in table {
        if find(bytes, &all, wanted.name).is_none() {
            return says(alloc, at, wanted, None);
        }
    }
    for wanted in table.iter().rev() {
        if let Some(fault) = part_fault(alloc, bytes, &all, wanted)? {
            return Ok(fault);
        }
    }
    Ok(format!(in alloc; "byte {at}: one of its parts is not of the form")?)
}

/// What is wrong with a part of the top object, if anything is.
fn part_fault(
    alloc: Global,
    bytes: &[u8],
    all: &[Member],
    wanted: &Wanted,
) -> Result<Option<String>, AllocError> {
    let Some(member) = find(bytes, all, wanted.name) else {
        return Ok(None);
    };
    let part = member.value;
    if wanted.name == "setup" {
        return object_fault(alloc, bytes, part, &SETUP, Form::Setup);
    }
    if is_fit(alloc, bytes, wanted.name, part)? {
        return Ok(None);
    }
    Ok(Some(says(alloc, part.start, wanted, Some(part.of(bytes)))?))
}

/// The items of the list of this name in an object.
fn list_of(alloc: Global, bytes: &[u8], object: Span, name: &str) -> Result<Vec<Span>, AllocError> {
    let all = members(alloc, bytes, object)?;
    match find(bytes, &all, name) {
        Some(list) => items(alloc, bytes, list.value),
        None => Ok(Vec::new(alloc)),
    }
}

/// The first event that is not of the form, with its number, if there is one.
fn bad_event(
    alloc: Global,
    bytes: &[u8],
    events: &[Span],
) -> Result<Option<(u64, Span)>, AllocError> {
    let mut number = 0u64;
    for event in events {
        number = number.saturating_add(1);
        if !Form::Event.is_of(alloc, text_of(event.of(bytes)))? {
            return Ok(Some((number, *event)));
        }
    }
    Ok(None)
}

/// What is wrong with a part of an input: the event of this number, an epoch, or an entry of a record behind the events. Numbers count
/// from 1.
fn numbered_fault(
    alloc: Global,
    bytes: &[u8],
    shape: Shape,
    number: u64,
) -> Result<String, AllocError> {
    let top = Span::whole(bytes).trimmed(bytes);
    let place = usize::try_from(number).unwrap_or(0).saturating_sub(1);
    if shape == Shape::Epochs {
        let epochs = list_of(alloc, bytes, top, "epochs")?;
        return match epochs.get(place) {
            Some(epoch) => epoch_fault(alloc, bytes, *epoch, number),
            None => Ok(format!(in alloc; "epoch {number} is not of the form")?),
        };
    }
    let events = list_of(alloc, bytes, top, "events")?;
    if let Some(event) = events.get(place) {
        let fault = event_fault(alloc, bytes, *event)?;
        return Ok(format!(in alloc; "event {number}, {fault}")?);
    }
    if shape == Shape::Record {
        let entry = number.saturating_sub(events.len() as u64);
        return Ok(format!(in alloc; "entry {entry} is not of the form")?);
    }
    Ok(format!(in alloc; "event {number} is not of the form")?)
}

/// What is wrong with an epoch.
fn epoch_fault(
    alloc: Global,
    bytes: &[u8],
    epoch: Span,
    number: u64,
) -> Result<String, AllocError> {
    let events = list_of(alloc, bytes, epoch, "events")?;
    match bad_event(alloc, bytes, &events)? {
        Some((place, event)) => {
            let fault = event_fault(alloc, bytes, event)?;
            Ok(format!(in alloc; "epoch {number}, event {place}, {fault}")?)
        }
        None => {
            let fault = top_fault(alloc, bytes, epoch, Shape::Run)?;
            Ok(format!(in alloc; "epoch {number}, {fault}")?)
        }
    }
}

/// What is wrong with a text that is no JSON.
fn text_fault(alloc: Global, bytes: &[u8]) -> Result<String, AllocError> {
    if Span::whole(bytes).trimmed(bytes).of(bytes).is_empty() {
        return String::from_str(alloc, "the input is empty");
    }
    match Value::from_slice(alloc, bytes) {
        Err(error) if error.is_memory() => Err(AllocError),
        Err(error) => Ok(format!(in alloc; "the input is no JSON: {error}")?),
        Ok(_) => Ok(format!(in alloc; "the input is no JSON")?),
    }
}

/// What is wrong with an input of a run, as [`explain_as`] says it.
pub fn explain(alloc: Global, bytes: &[u8], place: u64) -> Result<String, AllocError> {
    explain_as(alloc, Shape::Run, bytes, place)
}

/// What is wrong with an input whose first part that is not of the form is at this place, as its reader answers it: 0 where it is no
/// JSON, 1 for the top object and its setup, and 1 + k for event k, where events are counted from 1; or for epoch k, or entry k - e of a
/// record with e events. Bytes are counted from 0. Where nothing can be found in these bytes, the place alone is told.
pub fn explain_as(
    alloc: Global,
    shape: Shape,
    bytes: &[u8],
    place: u64,
) -> Result<String, AllocError> {
    if place == 0 {
        return text_fault(alloc, bytes);
    }
    let number = place.saturating_sub(1);
    if number > 0 {
        return numbered_fault(alloc, bytes, shape, number);
    }
    let fault = top_fault(alloc, bytes, Span::whole(bytes).trimmed(bytes), shape)?;
    match shape {
        Shape::Epochs => Ok(format!(in alloc; "the input, {fault}")?),
        _ => Ok(format!(in alloc; "the setup, {fault}")?),
    }
}
