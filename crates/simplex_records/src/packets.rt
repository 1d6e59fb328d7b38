//! The packets of the events.
#![tactic(auto, unfolding(crate::specs::Packets::packet_in, model_run::specs::Requests::packet_for))]

ghost use Rattle.std.specs.Prelude.{◌≡◌, ◌==◌, ◌++◌, ◌∷◌, ◌-◌, [], IfOk, OnOk, Some, None};
ghost use Rattle.std.specs.List.{list_any};
ghost use Rattle.std.specs.Option.{option_map, option_and_then, is_some};
ghost use Rattle.model_run.specs.Members.{is_same_node};
ghost use Rattle.model_run.specs.Requests.{if_for};
ghost use Rattle.model_run.specs.Entries as entries;
ghost use Rattle.simplex_records.specs.Packets.{packet_in};

use crate::routing::packet_for_send;
use simplex_messages::Call;
use simplex_transcript::{Node, Packet, Ref, Setup};
use simplex_types::{Keep, Sequence};
use std::alloc::{AllocError, Global};

/// A packet for each send of the node, in order.
pub fn packets_of(
    alloc: Global,
    setup: &Setup,
    from: Node,
    calls: &[Call],
) -> Result<Sequence<Packet>, AllocError>
    ensures { IfOk result (λ packets. packets ≡ entries.packets_of setup.now from calls.now) }
{
    let mut packets = Sequence::new(alloc);
    for call in calls {
        if let Some(packet) = packet_of(alloc, setup, from, call)? {
            packets.push(packet)?;
        }
    }
    Ok(packets)
}

// The packet of a send.
fn packet_of(
    alloc: Global,
    setup: &Setup,
    from: Node,
    call: &Call,
) -> Result<Option<Packet>, AllocError>
    ensures { IfOk result (λ packet. packet ≡ entries.packet_of setup.now from call.now) }
{
    match call {
        Call::Send {
            channel,
            recipients,
            bytes,
        } => {
            let bytes = bytes.keep(alloc)?;
            let packet = packet_for_send(alloc, setup, from, *channel, recipients, bytes)?;
            Ok(Some(packet))
        }
        _ => Ok(None),
    }
}

/// Puts the packets of one event more behind the others.
pub(crate) fn push_packets(
    events: &mut Vec<Sequence<Packet>>,
    alloc: Global,
    packets: &[Packet],
) -> Result<(), AllocError>
    ensures { OnOk result (events.new.items ≡ events.old.items ++ packets.now ∷ []) }
{
    let copies = copies_of(alloc, packets)?;
    events.push(copies)?;
    Ok(())
}

fn copies_of(alloc: Global, packets: &[Packet]) -> Result<Sequence<Packet>, AllocError>
    ensures { IfOk result (λ copies. copies ≡ packets.now) }
{
    let mut copies = Sequence::new(alloc);
    for packet in packets {
        copies.push(copy_of(alloc, packet)?)?;
    }
    Ok(copies)
}

fn copy_of(alloc: Global, packet: &Packet) -> Result<Packet, AllocError>
    ensures { IfOk result (λ copy. copy ≡ packet.now) }
{
    Ok(Packet {
        from: packet.from,
        channel: packet.channel,
        to: packet.to.keep(alloc)?,
        bytes: packet.bytes.keep(alloc)?,
    })
}

/// The packet at this place, where it may be delivered to the node.
pub(crate) fn packet_for(events: &[Sequence<Packet>], node: Node, at: Ref) -> Option<&Packet>
    ensures { option_map (λ packet. packet.now) result
        ≡ option_and_then (if_for node) (packet_in events.now at) }
{
    let packet = packet_at(events, at)?;
    if is_for(node, packet.to.as_slice()) {
        Some(packet)
    } else {
        None
    }
}

/// Whether there is a packet at this place.
pub(crate) fn has_packet(events: &[Sequence<Packet>], at: Ref) -> bool
    ensures { result ≡ is_some (packet_in events.now at) }
{
    packet_at(events, at).is_some()
}

// The packet at this place.
fn packet_at(events: &[Sequence<Packet>], at: Ref) -> Option<&Packet>
    ensures { option_map (λ packet. packet.now) result ≡ packet_in events.now at }
{
    let event = at.event.checked_sub(1)?;
    let packets = events.get(event as usize)?;
    packets.as_slice().get(at.place as usize)
}

// Whether it may be delivered to the node.
fn is_for(node: Node, to: &[Node]) -> bool
    ensures { result ≡ list_any (is_same_node node) to.now }
{
    to.iter().any(|other| *other == node)
}
