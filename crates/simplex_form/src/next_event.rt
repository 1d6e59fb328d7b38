//! Reads the next event of a text: a delivery or a step, whose members stand in the order of docs/INPUT.md, with no
//! tree of it, since most events are these, and any other event by its tree.
ghost use Rattle.std.specs.Prelude.{◌≡◌, codes, Some, IfOk};
ghost use Rattle.serde_json.specs.Data.{Data, string, no_members, put};
ghost use Rattle.serde_json.specs.View.{view};
ghost use Rattle.simplex_form.specs.Events.{event_of, node_of, ref_of, stop_of};
ghost use Rattle.simplex_form.specs.Stream.{Reads, EndsEvent, IsPair, IsSource};

use crate::events::read_event;
use crate::stops::read_stop;
use crate::taking::{
    is_same, take_close_list, take_close_object, take_key, take_number, take_open_list,
    take_open_object, take_text,
};
use crate::values::{Halt, next_value, rest_of_members};
use json::Reader;
use serde_json::{Map, Value};
use simplex_messages::Stop;
use simplex_names::source_of;
use simplex_transcript::{Event, Node, Ref, StepSource};
use std::alloc::Global;

/// How deep a member of an event may nest.
const DEPTH: usize = 124;

/// The next value of the text, where it is an event. [events-one-by-one]
pub(crate) fn next_event(alloc: Global, reader: &mut Reader<'_>) -> Result<Event, Halt>
    ensures { IfOk result (λ event. (d : Data) × Reads 125 reader.old d reader.new
        × (event_of d ≡ Some event)) }
{
    take_open_object(reader)?;
    let Some(name) = reader.next_key()? else {
        return Err(Halt::Other);
    };
    if is_same(name, "do") {
        let kind = take_text(reader)?;
        rest_of_kind(alloc, reader, kind)
    } else {
        let member = next_value(alloc, reader, DEPTH)?;
        rest_of_any(alloc, reader, name, member)
    }
}

/// The event of this kind, of which the kind is read.
fn rest_of_kind(alloc: Global, reader: &mut Reader<'_>, kind: &str) -> Result<Event, Halt>
    ensures { IfOk result (λ event. EndsEvent reader.old
        (put (codes "do") (string kind.now) no_members) reader.new event) }
{
    if is_same(kind, "deliver") {
        return rest_of_delivery(reader);
    }
    if is_same(kind, "step") {
        return rest_of_step(alloc, reader);
    }
    let member = Value::String(String::from_str(alloc, kind)?);
    rest_of_any(alloc, reader, "do", member)
}

/// The event of which this member is read.
fn rest_of_any(
    alloc: Global,
    reader: &mut Reader<'_>,
    name: &str,
    member: Value,
) -> Result<Event, Halt>
    ensures { IfOk result
        (λ event. EndsEvent reader.old (put name.now (view member) no_members) reader.new event) }
{
    let mut found = Map::new(alloc);
    let key = String::from_str(alloc, name)?;
    drop(found.insert(key, member)?);
    let value = Value::Object(rest_of_members(alloc, reader, DEPTH, found)?);
    let event = read_event(alloc, &value)?.ok_or(Halt::Other)?;
    Ok(event)
}

/// The delivery of which the kind is read.
fn rest_of_delivery(reader: &mut Reader<'_>) -> Result<Event, Halt>
    ensures { IfOk result (λ event. EndsEvent reader.old
        (put (codes "do") (string (codes "deliver")) no_members) reader.new event) }
{
    take_key(reader, "node")?;
    let node = next_node(reader)?;
    take_key(reader, "packet")?;
    let packet = next_ref(reader)?;
    take_close_object(reader)?;
    Ok(Event::Deliver { node, packet })
}

/// The step of which the kind is read.
fn rest_of_step(alloc: Global, reader: &mut Reader<'_>) -> Result<Event, Halt>
    ensures { IfOk result (λ event. EndsEvent reader.old
        (put (codes "do") (string (codes "step")) no_members) reader.new event) }
{
    take_key(reader, "node")?;
    let node = next_node(reader)?;
    take_key(reader, "source")?;
    let source = next_source(reader)?;
    take_key(reader, "stop")?;
    let stop = next_stop(alloc, reader)?;
    take_close_object(reader)?;
    Ok(Event::Step { node, source, stop })
}

/// A list of two numbers.
fn next_pair(reader: &mut Reader<'_>) -> Result<(u64, u64), Halt>
    ensures { IfOk result (λ pair. (d : Data) × Reads 124 reader.old d reader.new
        × IsPair d pair.0 pair.1) }
{
    take_open_list(reader)?;
    let first = take_number(reader)?;
    let second = take_number(reader)?;
    take_close_list(reader)?;
    Ok((first, second))
}

/// What names a node.
fn next_node(reader: &mut Reader<'_>) -> Result<Node, Halt>
    ensures { IfOk result (λ node. (d : Data) × Reads 124 reader.old d reader.new
        × (node_of d ≡ Some node)) }
{
    let (member, half) = next_pair(reader)?;
    Ok(Node { member, half })
}

/// What names a packet or a request.
fn next_ref(reader: &mut Reader<'_>) -> Result<Ref, Halt>
    ensures { IfOk result (λ it. (d : Data) × Reads 124 reader.old d reader.new
        × (ref_of d ≡ Some it)) }
{
    let (event, place) = next_pair(reader)?;
    Ok(Ref { event, place })
}

/// What a step takes from.
fn next_source(reader: &mut Reader<'_>) -> Result<StepSource, Halt>
    ensures { IfOk result (λ source. (d : Data) × Reads 124 reader.old d reader.new
        × IsSource d source) }
{
    let name = take_text(reader)?;
    let source = source_of(name).ok_or(Halt::Other)?;
    Ok(source)
}

/// The order to stop inside a step, if there is one.
fn next_stop(alloc: Global, reader: &mut Reader<'_>) -> Result<Stop, Halt>
    ensures { IfOk result (λ stop. (d : Data) × Reads 124 reader.old d reader.new
        × (stop_of d ≡ Some stop)) }
{
    let value = next_value(alloc, reader, DEPTH)?;
    read_stop(&value).ok_or(Halt::Other)
}
