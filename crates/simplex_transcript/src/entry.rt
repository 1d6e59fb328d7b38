//! What an event did.
use crate::node::{Node, Ref};
use model_rules::Asked;
use simplex_messages::{Call, Handed, Outcome};
use simplex_types::{Answer, Bytes, Certificate, Channel, Sequence};

/// A packet of the network.
#[derive(Debug, PartialEq, Eq, Drop)]
pub struct Packet {
    /// The node that sent it.
    pub from: Node,
    /// The channel that it goes by.
    pub channel: Channel,
    /// The nodes that it may be delivered to.
    pub to: Sequence<Node>,
    /// What it says: a vote, a certificate, or a message of a resolver.
    pub bytes: Bytes,
}

/// What a node took.
#[derive(Debug, PartialEq, Eq, Drop)]
pub enum Took {
    /// A packet, by the event that sent it and its place there.
    Packet(Ref),
    /// A message of a mailbox.
    Message(Handed),
    /// An answer, and the request that it is for.
    Request(Ref, Answer),
    /// The clock, at a deadline.
    Timer,
    /// The floor of a start.
    Floor,
}

/// All that an event did.
#[derive(Debug, PartialEq, Eq, Drop)]
pub struct Entry {
    /// The event's number, from 1.
    pub event: u64,
    /// The node that the event names: none for a tick.
    pub who: Option<Node>,
    /// What the node took, if it took anything.
    pub took: Option<Took>,
    /// The certificates that became known to it.
    pub added: Sequence<Certificate>,
    /// What it asked its application for: the place here is that of the request.
    pub asked: Sequence<Asked>,
    /// The numbers of its open requests that were dropped, in rising order.
    pub dropped: Sequence<u64>,
    /// The messages that it put into mailboxes, in order.
    pub handed: Sequence<Handed>,
    /// Its calls outside, in order: of the journal, packets, reports, blocks.
    pub calls: Sequence<Call>,
    /// The packets that it sent, in order: the place here is that of the packet.
    pub packets: Sequence<Packet>,
    /// How its step ended.
    pub outcome: Outcome,
}
