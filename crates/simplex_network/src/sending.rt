//! The packets of what faulty members send.
ghost use Rattle.std.specs.Prelude.{◌≡◌, ◌∷◌, [], map, IfOk};
ghost use Rattle.model_run.specs.Entries.{sent_by, node_of};

use model_faults::Sent;
use simplex_records::packet_for_send;
use simplex_transcript::{Node, Packet, Setup};
use simplex_types::{Bytes, Channel, Keep, Sequence};
use std::alloc::{AllocError, Global};

/// A packet of each message that the node sends, as the script routes it.
pub(crate) fn packets_of(
    alloc: Global,
    setup: &Setup,
    node: Node,
    sent: Sequence<Sent>,
) -> Result<Sequence<Packet>, AllocError>
    ensures { IfOk result (λ packets. packets ≡ map (sent_by setup.now node) sent) }
{
    let mut packets = Sequence::new(alloc);
    for one in sent.into_vec() {
        let Sent {
            channel,
            recipients,
            bytes,
        } = one;
        packets.push(packet_for_send(alloc, setup, node, channel, &recipients, bytes)?)?;
    }
    Ok(packets)
}

/// The one packet of bytes that are injected: they go to just these nodes.
pub(crate) fn one_packet(
    alloc: Global,
    member: u64,
    channel: Channel,
    to: &Sequence<Node>,
    bytes: &Bytes,
) -> Result<Sequence<Packet>, AllocError>
    ensures { IfOk result (λ packets. packets
        ≡ record {
          from = node_of member;
          channel = channel;
          to = to.now;
          bytes = bytes.now;
        } ∷ []) }
{
    let mut packets = Sequence::new(alloc);
    packets.push(Packet {
        from: Node { member, half: 0 },
        channel,
        to: to.keep(alloc)?,
        bytes: bytes.keep(alloc)?,
    })?;
    Ok(packets)
}
