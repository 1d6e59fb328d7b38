//! The form of an input of epochs.
ghost use Rattle.std.specs.Prelude.{◌≡◌, ◌<◌, IfOk, IfSome};
ghost use Rattle.serde_json.specs.View.{view};
ghost use Rattle.simplex_epochs.specs.Form.{chain_form_of, chain_input_of, height_of};

use crate::epoch::EpochInput;
use serde_json::Value;
use simplex_form::{InputFault, has_members, number_at, read_items, read_value};
use simplex_types::Sequence;
use std::alloc::{AllocError, Global};

/// The greatest height at which epochs may be closed: 2^20.
pub const MOST_HEIGHT: u64 = 1 << 20;

/// Epochs, and the height at which each is closed.
#[derive(Debug, PartialEq, Eq, Drop)]
pub struct ChainInput {
    /// From 1 to [`MOST_HEIGHT`].
    pub height: u64,
    /// At least one.
    pub epochs: Sequence<EpochInput>,
}

// The height, if it is one.
fn read_height(value: &Value) -> Option<u64>
    ensures told { result ≡ height_of (view value.now) }
    ensures positive { IfSome result (λ height. 0 < height) }
{
    let height = number_at(value, "height")?;
    if 1 <= height && height <= MOST_HEIGHT {
        Some(height)
    } else {
        None
    }
}

// The input, or the place of the first part that is not of the form.
fn read_form(alloc: Global, value: &Value) -> Result<Result<ChainInput, u64>, AllocError>
    ensures told { IfOk result (λ r. r ≡ chain_form_of (view value.now)) }
    ensures positive { IfOk result (λ r. IfOk r (λ input. 0 < input.height)) }
{
    if !has_members(value, 2) {
        return Ok(Err(1));
    }
    let Some(height) = read_height(value) else {
        return Ok(Err(1));
    };
    let Some(part) = value.get("epochs") else {
        return Ok(Err(1));
    };
    let Some(values) = part.as_array() else {
        return Ok(Err(1));
    };
    match read_items::<EpochInput>(alloc, values, 2)? {
        Ok(epochs) if epochs.is_empty() => Ok(Err(1)),
        Ok(epochs) => Ok(Ok(ChainInput { height, epochs })),
        Err(place) => Ok(Err(place)),
    }
}

/// What the bytes say, or the place of the first part that is not of the form: 0 where they are no JSON, or nest too deep, 1 for
/// the top object, its height and an empty list of epochs, and 1 + k for epoch k, all of it, where epochs are counted from 1.
pub fn read_chain_input(alloc: Global, bytes: &[u8]) -> Result<Result<ChainInput, u64>, AllocError>
    ensures told { IfOk result (λ r. r ≡ chain_input_of bytes.now) }
    ensures positive { IfOk result (λ r. IfOk r (λ input. 0 < input.height)) }
{
    match read_value(alloc, bytes) {
        Ok(value) => read_form(alloc, &value),
        Err(InputFault::At(place)) => Ok(Err(place)),
        Err(InputFault::Memory) => Err(AllocError),
    }
}
