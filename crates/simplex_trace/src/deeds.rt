//! An event, in the words of an input.
ghost use Rattle.std.specs.Prelude.{◌≡◌, codes, decimal, option_map, IfOk, string_bytes};
ghost use Rattle.simplex_names.specs.Names as names;
ghost use Rattle.simplex_trace.specs.Deeds as deeds;

use simplex_names::{channel_word, source_word};
use simplex_transcript::{Event, Node, Ref};
use simplex_types::{Answer, Channel, Digest, Finalization, Handoff};
use std::alloc::{AllocError, Global};

/// One word behind another.
pub fn spaced(alloc: Global, first: &str, second: &str) -> Result<String, AllocError>
    ensures { IfOk result (λ text. string_bytes text ≡ deeds.spaced first.now second.now) }
{
    format!(in alloc; "{first} {second}")
}

/// A number behind a word.
pub(crate) fn numbered(alloc: Global, word: &str, number: u64) -> Result<String, AllocError>
    ensures { IfOk result (λ text. string_bytes text ≡ deeds.spaced word.now (decimal number)) }
{
    format!(in alloc; "{word} {number}")
}

/// A node, as `0.0`.
pub fn node_text(alloc: Global, node: &Node) -> Result<String, AllocError>
    ensures { IfOk result (λ text. string_bytes text ≡ deeds.node_text node.now) }
{
    let member = node.member;
    let half = node.half;
    format!(in alloc; "{member}.{half}")
}

/// The packet or the request at this place of an event.
pub fn ref_text(alloc: Global, at: &Ref) -> Result<String, AllocError>
    ensures { IfOk result (λ text. string_bytes text ≡ deeds.ref_text at.now) }
{
    let event = at.event;
    let place = at.place;
    format!(in alloc; "{event}.{place}")
}

/// The first eight digits of a payload.
pub(crate) fn payload_text(alloc: Global, payload: &Digest) -> Result<String, AllocError>
    ensures { IfOk result (λ text. string_bytes text ≡ deeds.payload_text payload.now) }
{
    hex::encode(alloc, &payload.0.as_slice()[..4])
}

// A payload behind a word.
fn with_payload(alloc: Global, word: &str, payload: &Digest) -> Result<String, AllocError>
    ensures { IfOk result (λ text. string_bytes text
        ≡ deeds.spaced word.now (deeds.payload_text payload.now)) }
{
    let payload = payload_text(alloc, payload)?;
    spaced(alloc, word, payload.as_str())
}

fn answer_text(alloc: Global, answer: &Answer) -> Result<String, AllocError>
    ensures { IfOk result (λ text. string_bytes text ≡ deeds.answer_text answer.now) }
{
    match answer {
        Answer::Payload(payload) => with_payload(alloc, "payload", payload),
        Answer::Handoff(Handoff::Wait) => String::from_str(alloc, "wait"),
        Answer::Handoff(Handoff::Stage(payload)) => with_payload(alloc, "stage", payload),
        Answer::Handoff(Handoff::Vote(payload)) => with_payload(alloc, "vote", payload),
        Answer::Verdict(true) => spaced(alloc, "verdict", "true"),
        Answer::Verdict(false) => spaced(alloc, "verdict", "false"),
        Answer::Closed => String::from_str(alloc, "closed"),
    }
}

fn start_text(alloc: Global, floor: Option<&Finalization>) -> Result<String, AllocError>
    ensures { IfOk result (λ text. string_bytes text
        ≡ deeds.start_text (option_map (λ f. f.now) floor.entry)) }
{
    match floor {
        None => String::from_str(alloc, "start"),
        Some(floor) => numbered(alloc, "start at view", floor.proposal.round.view.0),
    }
}

// What a node does.
fn node_does(alloc: Global, node: &Node, what: &str) -> Result<String, AllocError>
    ensures { IfOk result (λ text. string_bytes text
        ≡ deeds.spaced (deeds.node_text node.now) what.now) }
{
    let node = node_text(alloc, node)?;
    spaced(alloc, node.as_str(), what)
}

fn deliver_text(alloc: Global, node: &Node, packet: &Ref) -> Result<String, AllocError>
    ensures { IfOk result (λ text. string_bytes text
        ≡ deeds.spaced (deeds.node_text node.now)
        (deeds.spaced (codes "deliver") (deeds.ref_text packet.now))) }
{
    let packet = ref_text(alloc, packet)?;
    let what = spaced(alloc, "deliver", packet.as_str())?;
    node_does(alloc, node, what.as_str())
}

fn answered_text(
    alloc: Global,
    node: &Node,
    request: &Ref,
    answer: &Answer,
) -> Result<String, AllocError>
    ensures { IfOk result (λ text. string_bytes text
        ≡ deeds.spaced (deeds.node_text node.now)
        (deeds.spaced (codes "answer")
        (deeds.spaced (deeds.ref_text request.now) (deeds.answer_text answer.now)))) }
{
    let request = ref_text(alloc, request)?;
    let answer = answer_text(alloc, answer)?;
    let both = spaced(alloc, request.as_str(), answer.as_str())?;
    let what = spaced(alloc, "answer", both.as_str())?;
    node_does(alloc, node, what.as_str())
}

/// The event, in the words of an input.
pub(crate) fn deed_text(alloc: Global, event: &Event) -> Result<String, AllocError>
    ensures { IfOk result (λ text. string_bytes text ≡ deeds.deed_text event.now) }
{
    match event {
        Event::Start { node, floor, .. } => {
            let what = start_text(alloc, floor.as_ref())?;
            node_does(alloc, node, what.as_str())
        }
        Event::Tick { ms } => numbered(alloc, "tick", *ms),
        Event::Deliver { node, packet } => deliver_text(alloc, node, packet),
        Event::Step { node, source, .. } => {
            let what = spaced(alloc, "step", source_word(*source))?;
            node_does(alloc, node, what.as_str())
        }
        Event::Answer {
            node,
            request,
            answer,
        } => answered_text(alloc, node, request, answer),
        Event::Crash { node } => node_does(alloc, node, "crash"),
        Event::Inject {
            member,
            channel,
            ..
        } => injected_text(alloc, *member, *channel),
    }
}

fn injected_text(alloc: Global, member: u64, channel: Channel) -> Result<String, AllocError>
    ensures { IfOk result (λ text. string_bytes text
        ≡ deeds.spaced (decimal member)
        (deeds.spaced (codes "inject") (names.channel_word channel))) }
{
    let what = spaced(alloc, "inject", channel_word(channel))?;
    let what = what.as_str();
    format!(in alloc; "{member} {what}")
}
