//! What is open for a node: packets, requests, and sources that hold something.
ghost use Rattle.std.specs.Prelude.{◌≡◌, ◌++◌, ◌&&◌, [], IfOk, OnOk, flat_map, not, string_bytes};
ghost use Rattle.std.specs.List.{enumerate_from, list_any};
ghost use Rattle.model_run.specs.Kinds.{is_same_node};
ghost use Rattle.simplex_transcript.specs.declared.event.StepSource.{StepSource};
ghost use Rattle.simplex_lab.specs.Opening as opening;

use simplex_generator::{Requests, SOURCES, Unanswered};
use simplex_names::{channel_word, source_word};
use simplex_network::Network;
use simplex_run::Transcript;
use simplex_trace::{ask_text, node_text, ref_text, spaced};
use simplex_transcript::{Entry, Event, Node, Packet, Ref, StepSource};
use std::alloc::{AllocError, Global};

// Adds an item behind what stands before it.
fn push_item(text: &mut String, what: &str) -> Result<(), AllocError>
    ensures { OnOk result (string_bytes text.new ≡ string_bytes text.old ++ opening.item what.now) }
{
    text.push_str(", ")?;
    text.push_str(what)
}

// Whether the event delivers this packet to the node.
fn takes(event: &Event, node: Node, at: Ref) -> bool
    ensures { result ≡ opening.takes node at event.now }
{
    match event {
        Event::Deliver { node: to, packet } => *to == node && *packet == at,
        Event::Start { .. } => false,
        Event::Tick { .. } => false,
        Event::Step { .. } => false,
        Event::Answer { .. } => false,
        Event::Crash { .. } => false,
        Event::Inject { .. } => false,
    }
}

// Whether one of the events delivers this packet to the node.
fn was_taken(events: &[Event], node: Node, at: Ref) -> bool
    ensures { result ≡ list_any (opening.takes node at) events.now }
{
    let mut rest = events;
    while let [event, after @ ..] = rest {
        if takes(event, node, at) {
            return true;
        }
        rest = after;
    }
    false
}

// Whether the packet is for the node.
fn is_for(packet: &Packet, node: Node) -> bool
    ensures { result ≡ list_any (is_same_node node) packet.now.to }
{
    packet.to.as_slice().contains(&node)
}

// Adds the packet, where it is for the node and was not delivered to it.
fn push_packet(
    alloc: Global,
    text: &mut String,
    events: &[Event],
    node: Node,
    at: Ref,
    packet: &Packet,
) -> Result<(), AllocError>
    ensures { OnOk result (string_bytes text.new
        ≡ string_bytes text.old ++ opening.packet_item node events.now at packet.now) }
{
    if is_for(packet, node) && !was_taken(events, node, at) {
        let name = ref_text(alloc, &at)?;
        let what = spaced(alloc, channel_word(packet.channel), name.as_str())?;
        push_item(text, what.as_str())?;
    }
    Ok(())
}

// Adds those of an entry.
fn push_packets(
    alloc: Global,
    text: &mut String,
    events: &[Event],
    node: Node,
    entry: &Entry,
) -> Result<(), AllocError>
    ensures { OnOk result (string_bytes text.new ≡ string_bytes text.old
        ++ opening.packets_from node events.now entry.now.event 0 entry.now.packets) }
{
    let mut rest = entry.packets.as_slice();
    let mut place = 0;
    while let [packet, after @ ..] = rest {
        let at = Ref {
            event: entry.event,
            place,
        };
        push_packet(alloc, text, events, node, at, packet)?;
        // No memory has room for so many.
        place = place.checked_add(1).ok_or(AllocError)?;
        rest = after;
    }
    Ok(())
}

// The packets for the node that were not delivered to it.
fn packet_items(
    alloc: Global,
    events: &[Event],
    entries: &[Entry],
    node: Node,
) -> Result<String, AllocError>
    ensures { IfOk result (λ text. string_bytes text
        ≡ opening.packet_items node events.now entries.now) }
{
    let mut text = String::new(alloc);
    let mut rest = entries;
    while let [entry, after @ ..] = rest {
        push_packets(alloc, &mut text, events, node, entry)?;
        rest = after;
    }
    Ok(text)
}

// The requests that are open behind these events.
#[tactic(auto, using(crate::proofs::Opened::none_yet, crate::proofs::Opened::one_more, crate::proofs::Opened::at_end, crate::proofs::Opened::at_lack))]
fn requests_behind(
    alloc: Global,
    events: &[Event],
    entries: &[Entry],
) -> Result<Requests, AllocError>
    ensures { IfOk result (λ requests. requests.«open».items
        ≡ opening.open_requests events.now entries.now) }
{
    let mut requests = Requests::new(alloc);
    let mut deeds = events;
    let mut made = entries;
    while let Some((event, later)) = deeds.split_first() {
        let Some((entry, others)) = made.split_first() else {
            return Ok(requests);
        };
        requests.take_in(event, entry)?;
        deeds = later;
        made = others;
    }
    Ok(requests)
}

// Adds a request, where it is the node's.
fn push_request(
    alloc: Global,
    text: &mut String,
    node: Node,
    it: &Unanswered,
) -> Result<(), AllocError>
    ensures { OnOk result (string_bytes text.new
        ≡ string_bytes text.old ++ opening.request_item node it.now) }
{
    if it.node == node {
        let name = ref_text(alloc, &it.request)?;
        let name = spaced(alloc, "as", name.as_str())?;
        let what = ask_text(alloc, &it.asked)?;
        let what = spaced(alloc, what.as_str(), name.as_str())?;
        push_item(text, what.as_str())?;
    }
    Ok(())
}

// The node's requests that are open.
fn request_items(
    alloc: Global,
    events: &[Event],
    entries: &[Entry],
    node: Node,
) -> Result<String, AllocError>
    ensures { IfOk result (λ text. string_bytes text
        ≡ opening.request_items node (opening.open_requests events.now entries.now)) }
{
    let requests = requests_behind(alloc, events, entries)?;
    let mut text = String::new(alloc);
    let mut rest = requests.open();
    while let [it, after @ ..] = rest {
        push_request(alloc, &mut text, node, it)?;
        rest = after;
    }
    Ok(text)
}

// The clock behind these events.
fn clock_behind(events: &[Event]) -> u64 {
    let mut clock = 0u64;
    for event in events {
        if let Event::Tick { ms } = event {
            clock = clock.saturating_add(*ms);
        }
    }
    clock
}

// The sources of the node that hold something.
fn held_by(
    alloc: Global,
    network: &Network,
    node: Node,
    now: u64,
) -> Result<Vec<StepSource>, AllocError> {
    let mut held = Vec::new(alloc);
    if let Some(engine) = network.engine(node) {
        for source in SOURCES {
            if engine.holds(source, now) {
                held.push(source)?;
            }
        }
    }
    Ok(held)
}

fn source_items(alloc: Global, sources: &[StepSource]) -> Result<String, AllocError>
    ensures { IfOk result (λ text. string_bytes text ≡ opening.source_items sources.now) }
{
    let mut text = String::new(alloc);
    let mut rest = sources;
    while let [source, after @ ..] = rest {
        push_item(&mut text, source_word(*source))?;
        rest = after;
    }
    Ok(text)
}

// The items, or that there are none.
fn or_none(items: &str) -> &str
    ensures { result.now ≡ opening.or_none items.now }
{
    if items.is_empty() {
        return ", none";
    }
    items
}

fn line(alloc: Global, name: &str, node: &str, items: &str) -> Result<String, AllocError>
    ensures { IfOk result (λ text. string_bytes text ≡ opening.line name.now node.now items.now) }
{
    let items = or_none(items);
    format!(in alloc; "{name} {node}{items}\n")
}

// The lines of these items.
fn lines(
    alloc: Global,
    node: Node,
    packets: &str,
    requests: &str,
    sources: &str,
) -> Result<String, AllocError>
    ensures { IfOk result (λ text. string_bytes text
        ≡ opening.lines_on node packets.now requests.now sources.now) }
{
    let node = node_text(alloc, &node)?;
    let mut text = line(alloc, "packets for", node.as_str(), packets)?;
    text.push_str(line(alloc, "requests of", node.as_str(), requests)?.as_str())?;
    text.push_str(line(alloc, "sources of", node.as_str(), sources)?.as_str())?;
    Ok(text)
}

/// What is open for a node behind these events.
pub(crate) fn open_lines(
    alloc: Global,
    events: &[Event],
    transcript: &Transcript,
    node: Node,
) -> Result<String, AllocError>
    ensures { IfOk result
        (λ text. opening.TellsOpen events.now transcript.now.entries node (string_bytes text)) }
{
    let entries = transcript.entries.as_slice();
    let packets = packet_items(alloc, events, entries, node)?;
    let requests = request_items(alloc, events, entries, node)?;
    let held = held_by(alloc, &transcript.network, node, clock_behind(events))?;
    let sources = source_items(alloc, held.as_slice())?;
    lines(
        alloc,
        node,
        packets.as_str(),
        requests.as_str(),
        sources.as_str(),
    )
}
