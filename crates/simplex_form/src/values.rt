//! Reads one JSON value of a text of many. `serde_json` reads whole texts alone.
ghost use Rattle.std.specs.Prelude.{◌≡◌, ℕ, ◌<◌, ◌≤◌, ◌==◌, length, slice_index, Some, IfOk, IfSome, OnOk};
ghost use Rattle.serde_json.specs.Read.{number_of};
ghost use Rattle.serde_json.specs.View.{view, number_view, items_view, members_view};
ghost use Rattle.simplex_form.specs.Stream.{Reads, ReadsItems, ReadsMembers};

use fast_float::Numeral;
use json::{Invalid, Reader, Token};
use serde_json::{Map, Number, Value};
use std::alloc::{AllocError, AllocFailed, Global};

/// Why a value was not read.
#[derive(Drop)]
pub(crate) enum Halt {
    Memory,
    /// The text is none, or not spelled in the usual way.
    Other,
}

impl From<AllocError> for Halt {
    fn from(_error: AllocError) -> Halt {
        Halt::Memory
    }
}

impl<T: Drop> From<AllocFailed<T>> for Halt {
    fn from(_refused: AllocFailed<T>) -> Halt {
        Halt::Memory
    }
}

impl From<Invalid> for Halt {
    fn from(_error: Invalid) -> Halt {
        Halt::Other
    }
}

/// The next value of the text, where it nests no deeper than `depth` and its numbers are whole, from 0 and below 2^64.
#[cycle(next_value)]
pub(crate) fn next_value(
    alloc: Global,
    reader: &mut Reader<'_>,
    depth: usize,
) -> Result<Value, Halt>
    ensures said { IfOk result (λ v. Reads depth reader.old (view v) reader.new) }
    ensures shorter { OnOk result (length reader.new < length reader.old) }
{
    let token = reader.next().ok_or(Halt::Other)?;
    match token {
        Token::String(text) => Ok(Value::String(String::from_str(alloc, text)?)),
        Token::Number(text) => Ok(Value::Number(read_number(text).ok_or(Halt::Other)?)),
        Token::Bool(b) => Ok(Value::Bool(b)),
        Token::Null => Ok(Value::Null),
        Token::EndObject | Token::EndArray | Token::Key(_) | Token::Bad => Err(Halt::Other),
        Token::BeginArray => {
            if depth == 0 {
                return Err(Halt::Other);
            }
            Ok(Value::Array(next_items(alloc, reader, depth - 1)?))
        }
        Token::BeginObject => {
            if depth == 0 {
                return Err(Halt::Other);
            }
            let found = Map::new(alloc);
            Ok(Value::Object(rest_of_members(alloc, reader, depth - 1, found)?))
        }
    }
}

/// The items up to the bracket that closes their list.
#[cycle(next_value)]
fn next_items(alloc: Global, reader: &mut Reader<'_>, depth: usize) -> Result<Vec<Value>, Halt>
    ensures said { IfOk result
        (λ v. ReadsItems depth (length reader.old) reader.old (items_view v.items) reader.new) }
    ensures shorter { OnOk result (length reader.new < length reader.old) }
{
    let mut found = Vec::new(alloc);
    'items: while !reader.take_end_array() {
        let item = next_value(alloc, reader, depth)?;
        found.push(item)?;
    }
    Ok(found)
}

/// The members up to the brace that closes their object, behind those found. Of a name that comes twice the last value
/// stays.
#[cycle(next_value)]
pub(crate) fn rest_of_members(
    alloc: Global,
    reader: &mut Reader<'_>,
    depth: usize,
    found: Map<String, Value>,
) -> Result<Map<String, Value>, Halt>
    ensures said { IfOk result (λ m. (n : ℕ) → length reader.old ≤ n
        → ReadsMembers depth n reader.old (members_view found.entries)
        (members_view m.entries) reader.new) }
    ensures shorter { OnOk result (length reader.new < length reader.old) }
{
    let mut found = found;
    'members: while let Some(name) = reader.next_key()? {
        let key = String::from_str(alloc, name)?;
        let member = next_value(alloc, reader, depth)?;
        drop(found.insert(key, member)?);
    }
    Ok(found)
}

/// The number that a numeral writes, where it is whole, from 0 and below 2^64. [whole-numbers]
#[tactic(auto, using(crate::proofs::Numbers::whole_number))]
pub(crate) fn read_number(text: &str) -> Option<Number>
    ensures { IfSome result (λ number. number_of text.now ≡ Some (number_view number)) }
{
    let bytes = text.as_bytes();
    if has_minus(bytes) {
        return None;
    }
    let number = Numeral::scan(bytes).to_u64()?;
    Number::from_u128(u128::from(number))
}

/// Whether a numeral begins with a minus.
fn has_minus(bytes: &[u8]) -> bool
    ensures { result ≡ (slice_index bytes.now 0 == 45) }
{
    !bytes.is_empty() && bytes[0] == b'-'
}
