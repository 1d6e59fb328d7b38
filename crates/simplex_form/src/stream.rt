//! Reads an input event by event, so that no tree of the whole text stands: the text of a long run is a tree of many
//! times its size. Only the usual spelling is read so, an object with the setup and then the events, each of its form;
//! of any other text, also one that is no JSON, nothing is said here, and the whole tree is read.
ghost use Rattle.std.specs.Prelude.{◌≡◌, [], ◌∷◌, length, Some, Ok, IfOk, IfSome, OnOk};
ghost use Rattle.json.specs.Token.{Token as kind};
ghost use Rattle.serde_json.specs.Data.{Data, Items, array};
ghost use Rattle.simplex_form.specs.Form.{list_from};
ghost use Rattle.simplex_form.specs.Setup.{setup_of};
ghost use Rattle.simplex_form.specs.Events.{event_of};
ghost use Rattle.simplex_form.specs.Input.{input_of};
ghost use Rattle.simplex_form.specs.Stream.{Reads, ReadsItems, IsUsual};

use crate::input::Input;
use crate::next_event::next_event;
use crate::setup::read_setup;
use crate::taking::{take_key, take_open_list, take_open_object};
use crate::values::{Halt, next_value};
use json::{Reader, Scratch, Token};
use simplex_transcript::{Event, Setup};
use simplex_types::Sequence;
use std::alloc::{AllocError, Global};

/// How deep a value under the top object may nest.
const DEPTH: usize = 126;

/// What the bytes say, where they spell it in the usual way. `None` says nothing. [events-one-by-one]
pub(crate) fn read_usual(alloc: Global, bytes: &[u8]) -> Result<Option<Input>, AllocError>
    ensures { IfOk result (λ found. IfSome found (λ input. input_of bytes.now ≡ Ok input)) }
{
    let Ok(text) = simdutf8::compat::from_utf8(bytes) else {
        return Ok(None);
    };
    let mut scratch = Scratch::new(alloc);
    let mut reader = Reader::new(text, &mut scratch)?;
    match read_document(alloc, &mut reader) {
        Ok(input) => Ok(Some(input)),
        Err(Halt::Memory) => Err(AllocError),
        Err(Halt::Other) => Ok(None),
    }
}

/// The setup and the events, and nothing behind them.
fn read_document(alloc: Global, reader: &mut Reader<'_>) -> Result<Input, Halt>
    ensures { IfOk result (λ input. IsUsual reader.old input) }
{
    take_open_object(reader)?;
    take_key(reader, "setup")?;
    let setup = read_setup_part(alloc, reader)?;
    take_key(reader, "events")?;
    let events = read_events(alloc, reader)?;
    take_end(reader)?;
    Ok(Input { setup, events })
}

/// Takes the brace that closes the last object, behind which nothing stands.
fn take_end(reader: &mut Reader<'_>) -> Result<(), Halt>
    ensures { OnOk result (reader.old ≡ kind.end_object ∷ []) }
{
    let Some(Token::EndObject) = reader.next() else {
        return Err(Halt::Other);
    };
    match reader.next() {
        None => Ok(()),
        Some(_) => Err(Halt::Other),
    }
}

/// The setup, where the next value is one.
fn read_setup_part(alloc: Global, reader: &mut Reader<'_>) -> Result<Setup, Halt>
    ensures { IfOk result (λ setup. (d : Data) × Reads 126 reader.old d reader.new
        × (setup_of d ≡ Some setup)) }
{
    let value = next_value(alloc, reader, DEPTH)?;
    read_setup(alloc, &value)?.ok_or(Halt::Other)
}

/// The events, where the next value is a list of events.
fn read_events(alloc: Global, reader: &mut Reader<'_>) -> Result<Sequence<Event>, Halt>
    ensures { IfOk result (λ events. (ds : Items) × Reads 126 reader.old (array ds) reader.new
        × (list_from event_of 2 ds ≡ Ok events)) }
{
    take_open_list(reader)?;
    read_event_items(alloc, reader)
}

/// The events up to the bracket that closes their list.
fn read_event_items(alloc: Global, reader: &mut Reader<'_>) -> Result<Sequence<Event>, Halt>
    ensures { IfOk result (λ events. (ds : Items) × ReadsItems 125 (length reader.old) reader.old ds reader.new
        × (list_from event_of 2 ds ≡ Ok events)) }
{
    let mut events = Sequence::new(alloc);
    while !reader.take_end_array() {
        let event = next_event(alloc, reader)?;
        events.push(event)?;
    }
    Ok(events)
}
