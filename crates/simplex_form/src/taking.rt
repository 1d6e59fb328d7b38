//! Takes the tokens of a text that must stand there.
ghost use Rattle.std.specs.Prelude.{◌≡◌, ◌∷◌, true, IfOk, OnOk};
ghost use Rattle.json.specs.Token.{Token as kind};
ghost use Rattle.simplex_form.specs.Stream.{TakesNumber};

use crate::values::{Halt, read_number};
use json::{Reader, Token};

/// Takes the brace that opens an object.
pub(crate) fn take_open_object(reader: &mut Reader<'_>) -> Result<(), Halt>
    ensures { OnOk result (reader.old ≡ kind.begin_object ∷ reader.new) }
{
    match reader.next() {
        Some(Token::BeginObject) => Ok(()),
        _ => Err(Halt::Other),
    }
}

/// Takes the brace that closes an object.
pub(crate) fn take_close_object(reader: &mut Reader<'_>) -> Result<(), Halt>
    ensures { OnOk result (reader.old ≡ kind.end_object ∷ reader.new) }
{
    match reader.next() {
        Some(Token::EndObject) => Ok(()),
        _ => Err(Halt::Other),
    }
}

/// Takes the bracket that opens a list.
pub(crate) fn take_open_list(reader: &mut Reader<'_>) -> Result<(), Halt>
    ensures { OnOk result (reader.old ≡ kind.begin_array ∷ reader.new) }
{
    match reader.next() {
        Some(Token::BeginArray) => Ok(()),
        _ => Err(Halt::Other),
    }
}

/// Takes the bracket that closes a list.
pub(crate) fn take_close_list(reader: &mut Reader<'_>) -> Result<(), Halt>
    ensures { OnOk result (reader.old ≡ kind.end_array ∷ reader.new) }
{
    match reader.next() {
        Some(Token::EndArray) => Ok(()),
        _ => Err(Halt::Other),
    }
}

/// Takes this key.
pub(crate) fn take_key(reader: &mut Reader<'_>, name: &str) -> Result<(), Halt>
    ensures { OnOk result (reader.old ≡ kind.key name.now ∷ reader.new) }
{
    match reader.next() {
        Some(Token::Key(key)) if key == name => Ok(()),
        _ => Err(Halt::Other),
    }
}

/// Whether they are one text.
pub(crate) fn is_same(text: &str, other: &str) -> bool
    ensures { result ≡ true → text.now ≡ other.now }
{
    text == other
}

/// Takes a text.
pub(crate) fn take_text<'a>(reader: &mut Reader<'a>) -> Result<&'a str, Halt>
    ensures { IfOk result (λ text. reader.old ≡ kind.string text.now ∷ reader.new) }
{
    match reader.next() {
        Some(Token::String(text)) => Ok(text),
        _ => Err(Halt::Other),
    }
}

/// Takes a number that is whole, from 0 and below 2^64.
pub(crate) fn take_number(reader: &mut Reader<'_>) -> Result<u64, Halt>
    ensures { IfOk result (λ n. TakesNumber reader.old n reader.new) }
{
    let Some(Token::Number(text)) = reader.next() else {
        return Err(Halt::Other);
    };
    let number = read_number(text).ok_or(Halt::Other)?;
    number.as_u64().ok_or(Halt::Other)
}
