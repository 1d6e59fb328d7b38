//! Reads bytes that are written in hex.
ghost use Rattle.std.specs.Prelude.{◌≡◌, IfOk};
ghost use Rattle.std.specs.List.{list_any};
ghost use Rattle.std.specs.Char.{is_ascii_uppercase};
ghost use Rattle.simplex_form.specs.Events.{bytes_of, digest_of, hex_of};

use crate::pieces::FromData;
use hex::{FromHex, FromHexError};
use serde_json::Value;
use simplex_types::{Bytes, Digest, Sequence};
use std::alloc::{AllocError, Global};

// Whether some letter of the text is in upper case. [hex-and-floors]
fn has_upper_case(text: &str) -> bool
    ensures { result ≡ list_any is_ascii_uppercase text.now }
{
    let mut rest = text.as_bytes();
    while let [byte, after @ ..] = rest {
        if byte.is_ascii_uppercase() {
            return true;
        }
        rest = after;
    }
    false
}

// The bytes that the text spells.
pub fn read_hex(alloc: Global, text: &str) -> Result<Option<Bytes>, AllocError>
    ensures { IfOk result (λ o. o ≡ bytes_of text.now) }
{
    if has_upper_case(text) {
        return Ok(None);
    }
    match hex::decode(alloc, text) {
        Ok(bytes) => Ok(Some(Sequence::from_vec(bytes))),
        Err(FromHexError::OutOfMemory) => Err(AllocError),
        Err(_) => Ok(None),
    }
}

/// The digest that the text spells.
pub fn read_digest(text: &str) -> Option<Digest>
    ensures { result ≡ digest_of text.now }
{
    if has_upper_case(text) {
        return None;
    }
    let bytes = <[u8; 32]>::from_hex(text).ok()?;
    Some(Digest(bytes))
}

impl FromData for Bytes {
    ghost of = { hex_of };

    fn read(alloc: Global, value: &Value) -> Result<Option<Bytes>, AllocError> {
        match value.as_str() {
            Some(text) => read_hex(alloc, text),
            None => Ok(None),
        }
    }
}
