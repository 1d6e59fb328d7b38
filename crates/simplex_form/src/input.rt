//! Reads an input: a setup and its events.
ghost use Rattle.std.specs.Prelude.{◌≡◌, ◌⊎◌, Some, None, option_map, IfOk, IfErr};
ghost use Rattle.serde_json.specs.View.{view};
ghost use Rattle.simplex_form.specs.declared.fault.InputFault.TheVariants.{At, Memory};
ghost use Rattle.simplex_form.specs.Form.{made};
ghost use Rattle.simplex_form.specs.Input.{form_of, json_of, input_of, Says};

use crate::fault::InputFault;
use crate::pieces::{FromData, has_members, read_items};
use crate::setup::read_setup;
use crate::stream::read_usual;
use serde_json::Value;
use simplex_transcript::{Event, Setup};
use simplex_types::Sequence;
use std::alloc::{AllocError, Global};

/// A setup, and what happens in the run.
#[derive(Debug, PartialEq, Eq, Drop)]
pub struct Input {
    /// What all members are made with.
    pub setup: Setup,
    /// What happens, in order.
    pub events: Sequence<Event>,
}

// The JSON value, if the bytes are one.
fn parse(alloc: Global, bytes: &[u8]) -> Result<Option<Value>, AllocError>
    ensures { IfOk result (λ o. option_map view o ≡ json_of bytes.now) }
{
    match Value::from_slice(alloc, bytes) {
        Ok(value) => Ok(Some(value)),
        Err(error) => {
            if error.is_memory() {
                Err(AllocError)
            } else {
                Ok(None)
            }
        }
    }
}

// The input, or the place of the first part that is not of the form.
fn read_form(alloc: Global, value: &Value) -> Result<Result<Input, u64>, AllocError>
    ensures { IfOk result (λ r. r ≡ form_of (view value.now)) }
{
    if !has_members(value, 2) {
        return Ok(Err(1));
    }
    let Some(part) = value.get("setup") else {
        return Ok(Err(1));
    };
    let Some(setup) = read_setup(alloc, part)? else {
        return Ok(Err(1));
    };
    let Some(part) = value.get("events") else {
        return Ok(Err(1));
    };
    let Some(values) = part.as_array() else {
        return Ok(Err(1));
    };
    match read_items(alloc, values, 2)? {
        Ok(events) => Ok(Ok(Input { setup, events })),
        Err(place) => Ok(Err(place)),
    }
}

/// An input as a part of a greater value: all of it, or nothing.
impl FromData for Input {
    ghost of = { λ d. made (form_of d) };

    fn read(alloc: Global, value: &Value) -> Result<Option<Input>, AllocError> {
        Ok(read_form(alloc, value)?.ok())
    }
}

/// What the bytes say, or the place of the first part that is not of the form: 0 where they are no JSON, or nest
/// too deep, 1 for the top object and its setup, and 1 + k for event k, where events are counted from 1.
pub fn read_input(alloc: Global, bytes: &[u8]) -> Result<Result<Input, u64>, AllocError>
    ensures { IfOk result (λ r. r ≡ input_of bytes.now) }
{
    if let Some(input) = read_usual(alloc, bytes)? {
        return Ok(Ok(input));
    }
    match parse(alloc, bytes)? {
        Some(value) => read_form(alloc, &value),
        None => Ok(Err(0)),
    }
}

/// The JSON value that the bytes are, or place 0.
pub fn read_value(alloc: Global, bytes: &[u8]) -> Result<Value, InputFault>
    ensures value { IfOk result (λ value. json_of bytes.now ≡ Some (view value)) }
    ensures fault { IfErr result (λ e. (e ≡ Memory) ⊎ ((e ≡ At 0) × (json_of bytes.now ≡ None))) }
{
    match parse(alloc, bytes)? {
        Some(value) => Ok(value),
        None => Err(InputFault::At(0)),
    }
}

/// What the bytes say, as [`read_input`] reads them, with one error for all that may be wrong.
pub fn read_run(alloc: Global, bytes: &[u8]) -> Result<Input, InputFault>
    ensures { Says result (input_of bytes.now) }
{
    match read_input(alloc, bytes)? {
        Ok(input) => Ok(input),
        Err(place) => Err(InputFault::At(place)),
    }
}
