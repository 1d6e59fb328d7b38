//! Writes an event.
ghost use Rattle.std.specs.Prelude.{◌≡◌, IfOk, option_map, string_bytes};
ghost use Rattle.simplex_writer.specs.Events as events;

use crate::answers::answer_text;
use crate::list::{Written, written_list};
use crate::values::{hex_text, ref_text};
use simplex_messages::Stop;
use simplex_names::{channel_word, source_word};
use simplex_transcript::{Event, Node, Ref, StepSource};
use simplex_types::{Answer, Certificate, Channel, Finalization, Keep};
use std::alloc::{AllocError, Global};

// A finalization as the certificate that it is.
fn spelled(alloc: Global, floor: &Finalization) -> Result<String, AllocError>
    ensures { IfOk result (λ text. string_bytes text ≡ events.spelled_text floor.now) }
{
    let certificate = Certificate::Finalization(floor.keep(alloc)?);
    let bytes = certificate.encode(alloc)?;
    hex_text(alloc, &bytes)
}

fn floor_text(alloc: Global, floor: Option<&Finalization>) -> Result<String, AllocError>
    ensures { IfOk result (λ text. string_bytes text
        ≡ events.floor_text (option_map (λ f. f.now) floor.entry)) }
{
    match floor {
        None => String::from_str(alloc, "null"),
        Some(floor) => spelled(alloc, floor),
    }
}

fn stop_text(alloc: Global, stop: &Stop) -> Result<String, AllocError>
    ensures { IfOk result (λ text. string_bytes text ≡ events.stop_text stop.now) }
{
    match stop {
        Stop::None => String::from_str(alloc, "null"),
        Stop::Cut { call, keep } => format!(in alloc; "{{\"cut\":{call},\"keep\":{keep}}}"),
        Stop::Fail { call, keep } => format!(in alloc; "{{\"fail\":{call},\"keep\":{keep}}}"),
    }
}

fn start_text(
    alloc: Global,
    node: &Node,
    floor: Option<&Finalization>,
    stop: &Stop,
) -> Result<String, AllocError>
    ensures { IfOk result (λ text. string_bytes text
        ≡ events.start_text node.now (option_map (λ f. f.now) floor.entry) stop.now) }
{
    let node = node.written(alloc)?;
    let node = node.as_str();
    let floor = floor_text(alloc, floor)?;
    let floor = floor.as_str();
    let stop = stop_text(alloc, stop)?;
    let stop = stop.as_str();
    format!(in alloc; "{{\"do\":\"start\",\"node\":{node},\"floor\":{floor},\"stop\":{stop}}}")
}

fn tick_text(alloc: Global, ms: u64) -> Result<String, AllocError>
    ensures { IfOk result (λ text. string_bytes text ≡ events.tick_text ms) }
{
    format!(in alloc; "{{\"do\":\"tick\",\"ms\":{ms}}}")
}

fn deliver_text(alloc: Global, node: &Node, packet: &Ref) -> Result<String, AllocError>
    ensures { IfOk result (λ text. string_bytes text ≡ events.deliver_text node.now packet.now) }
{
    let node = node.written(alloc)?;
    let node = node.as_str();
    let packet = ref_text(alloc, packet)?;
    let packet = packet.as_str();
    format!(in alloc; "{{\"do\":\"deliver\",\"node\":{node},\"packet\":{packet}}}")
}

fn step_text(
    alloc: Global,
    node: &Node,
    source: StepSource,
    stop: &Stop,
) -> Result<String, AllocError>
    ensures { IfOk result (λ text. string_bytes text ≡ events.step_text node.now source stop.now) }
{
    let node = node.written(alloc)?;
    let node = node.as_str();
    let source = source_word(source);
    let stop = stop_text(alloc, stop)?;
    let stop = stop.as_str();
    format!(in alloc; "{{\"do\":\"step\",\"node\":{node},\"source\":\"{source}\",\"stop\":{stop}}}")
}

// An answer of these texts.
fn answer_object(
    alloc: Global,
    node: &str,
    request: &str,
    answer: &str,
) -> Result<String, AllocError>
    ensures { IfOk result (λ text. string_bytes text
        ≡ events.answer_object node.now request.now answer.now) }
{
    format!(in alloc;
        "{{\"do\":\"answer\",\"node\":{node},\"request\":{request},\"answer\":{answer}}}"
    )
}

fn answered_text(
    alloc: Global,
    node: &Node,
    request: &Ref,
    answer: &Answer,
) -> Result<String, AllocError>
    ensures { IfOk result (λ text. string_bytes text
        ≡ events.answered_text node.now request.now answer.now) }
{
    let node = node.written(alloc)?;
    let request = ref_text(alloc, request)?;
    let answer = answer_text(alloc, answer)?;
    answer_object(alloc, node.as_str(), request.as_str(), answer.as_str())
}

fn crash_text(alloc: Global, node: &Node) -> Result<String, AllocError>
    ensures { IfOk result (λ text. string_bytes text ≡ events.crash_text node.now) }
{
    let node = node.written(alloc)?;
    let node = node.as_str();
    format!(in alloc; "{{\"do\":\"crash\",\"node\":{node}}}")
}

// Bytes of a member that are sent, by these texts.
fn inject_object(
    alloc: Global,
    member: u64,
    channel: &str,
    to: &str,
    bytes: &str,
) -> Result<String, AllocError>
    ensures { IfOk result (λ text. string_bytes text
        ≡ events.inject_object member channel.now to.now bytes.now) }
{
    format!(in alloc;
        "{{\"do\":\"inject\",\"member\":{member},\"channel\":\"{channel}\",\"to\":{to},\"bytes\":{bytes}}}"
    )
}

fn inject_text(
    alloc: Global,
    member: u64,
    channel: Channel,
    to: &[Node],
    bytes: &[u8],
) -> Result<String, AllocError>
    ensures { IfOk result (λ text. string_bytes text
        ≡ events.inject_text member channel to.now bytes.now) }
{
    let to = written_list(alloc, ",", to)?;
    let bytes = hex_text(alloc, bytes)?;
    inject_object(
        alloc,
        member,
        channel_word(channel),
        to.as_str(),
        bytes.as_str(),
    )
}

impl Written for Event {
    ghost text_of = { events.event_text };

    fn written(&self, alloc: Global) -> Result<String, AllocError> {
        match self {
            Event::Start { node, floor, stop } => start_text(alloc, node, floor.as_ref(), stop),
            Event::Tick { ms } => tick_text(alloc, *ms),
            Event::Deliver { node, packet } => deliver_text(alloc, node, packet),
            Event::Step { node, source, stop } => step_text(alloc, node, *source, stop),
            Event::Answer {
                node,
                request,
                answer,
            } => answered_text(alloc, node, request, answer),
            Event::Crash { node } => crash_text(alloc, node),
            Event::Inject {
                member,
                channel,
                to,
                bytes,
            } => inject_text(alloc, *member, *channel, to.as_slice(), bytes.as_slice()),
        }
    }
}
