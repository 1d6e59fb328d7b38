//! Reads the floor at which a node starts.
ghost use Rattle.std.specs.Prelude.{◌≡◌, IfOk};
ghost use Rattle.serde_json.specs.View.{view};
ghost use Rattle.simplex_form.specs.Events.{finalization_in, finalization_of, spelled_floor_of, floor_of};

use crate::hex_text::read_hex;
use serde_json::Value;
use simplex_types::{Certificate, DecodeError, Finalization};
use std::alloc::{AllocError, Global};

fn finalization_in(certificate: Certificate) -> Option<Finalization>
    ensures { result ≡ finalization_in certificate }
{
    match certificate {
        Certificate::Finalization(it) => Some(it),
        Certificate::Notarization(_) | Certificate::Nullification(_) => None,
    }
}

// [hex-and-floors]
fn decode_finalization(alloc: Global, bytes: &[u8]) -> Result<Option<Finalization>, AllocError>
    ensures { IfOk result (λ o. o ≡ finalization_of bytes.now) }
{
    match Certificate::decode(alloc, bytes) {
        Ok(certificate) => Ok(finalization_in(certificate)),
        Err(DecodeError::Fault { .. }) => Ok(None),
        Err(DecodeError::Memory) => Err(AllocError),
    }
}

fn read_spelled_floor(alloc: Global, value: &Value) -> Result<Option<Finalization>, AllocError>
    ensures { IfOk result (λ o. o ≡ spelled_floor_of (view value.now)) }
{
    let Some(text) = value.as_str() else {
        return Ok(None);
    };
    let Some(bytes) = read_hex(alloc, text)? else {
        return Ok(None);
    };
    decode_finalization(alloc, bytes.as_slice())
}

// The floor, where none is genesis.
pub fn read_floor(alloc: Global, value: &Value) -> Result<Option<Option<Finalization>>, AllocError>
    ensures { IfOk result (λ o. o ≡ floor_of (view value.now)) }
{
    if value.is_null() {
        return Ok(Some(None));
    }
    match read_spelled_floor(alloc, value)? {
        Some(floor) => Ok(Some(Some(floor))),
        None => Ok(None),
    }
}
