//! Packets that were sent, and those that were delivered.
ghost use Rattle.std.specs.Prelude.{◌≡◌, ◌++◌, [], None, OnOk, filter, find, not, position};
ghost use Rattle.std.specs.List.{list_any};
ghost use Rattle.simplex_script.specs.Post as posted;

use simplex_transcript::{Entry, Event, Node, Packet, Ref};
use simplex_types::Channel;
use std::alloc::{AllocError, Global};

/// A packet, and a node that it may be delivered to.
#[derive(Clone, Copy, Debug, PartialEq, Eq)]
pub struct Parcel {
    /// The event that sent the packet, and its place there.
    pub packet: Ref,
    /// The node that sent it.
    pub from: Node,
    /// The channel that it goes by.
    pub channel: Channel,
    /// The node that it may be delivered to.
    pub to: Node,
}

/// What was sent: the parcels that wait, the oldest first, and those that were delivered, in order.
#[derive(Drop)]
pub struct Post {
    pub(crate) waiting: Vec<Parcel>,
    pub(crate) delivered: Vec<Parcel>,
}

impl Post {
    /// Nothing.
    pub fn new(alloc: Global) -> Post
        ensures waiting { result.waiting.items ≡ [] }
        ensures delivered { result.delivered.items ≡ [] }
    {
        Post {
            waiting: Vec::new(alloc),
            delivered: Vec::new(alloc),
        }
    }

    /// The parcels that wait, the oldest first.
    pub fn waiting(&self) -> &[Parcel]
        ensures { result.now ≡ self.now.waiting.items }
    {
        self.waiting.as_slice()
    }

    /// Takes in an event and its entry: what it delivers waits no more, and what it sends waits.
    pub fn take_in(&mut self, event: &Event, entry: &Entry) -> Result<(), AllocError>
        ensures waiting { OnOk result (self.new.waiting.items
            ≡ posted.waiting_behind event.now entry.now self.old.waiting.items) }
        ensures delivered { OnOk result (self.new.delivered.items
            ≡ posted.delivered_behind event.now self.old.waiting.items self.old.delivered.items) }
    {
        self.deliver(event)?;
        send(&mut self.waiting, entry.event, entry.packets.as_slice())
    }

    // What the event delivers waits no more.
    fn deliver(&mut self, event: &Event) -> Result<(), AllocError>
        ensures waiting { OnOk result (self.new.waiting.items
            ≡ posted.without_first (posted.is_taken_by event.now) self.old.waiting.items) }
        ensures delivered { OnOk result (self.new.delivered.items
            ≡ posted.delivered_behind event.now self.old.waiting.items self.old.delivered.items) }
    {
        let Some(at) = place_of(self.waiting.as_slice(), event) else {
            return Ok(());
        };
        let parcel = self.waiting.remove(at);
        self.delivered.push(parcel)?;
        Ok(())
    }

    /// The parcel is lost.
    pub fn lose(&mut self, parcel: &Parcel)
        ensures waiting { self.new.waiting.items
            ≡ filter (λ it. not (posted.is_same_parcel it parcel.now)) self.old.waiting.items }
        ensures delivered { self.new.delivered ≡ self.old.delivered }
    {
        self.waiting.retain(|it| !is_same_parcel(it, parcel));
    }

    /// All that waits for one of the nodes is lost.
    pub fn miss(&mut self, nodes: &[Node])
        ensures waiting { self.new.waiting.items
            ≡ filter (λ it. not (posted.is_for nodes.now it)) self.old.waiting.items }
        ensures delivered { self.new.delivered ≡ self.old.delivered }
    {
        self.waiting.retain(|it| !is_for(nodes, it));
    }

    /// The oldest packet on this way that waits.
    pub fn oldest(&self, from: Node, to: Node, channel: Channel) -> Option<Parcel>
        ensures { result ≡ posted.first_on from to channel self.now.waiting.items }
    {
        first_on(self.waiting.as_slice(), from, to, channel)
    }

    /// The packet on this way that was delivered last.
    pub fn last(&self, from: Node, to: Node, channel: Channel) -> Option<Parcel>
        ensures { result ≡ posted.last_on from to channel None self.now.delivered.items }
    {
        last_on(self.delivered.as_slice(), from, to, channel)
    }
}

fn is_same_node(a: Node, b: Node) -> bool
    ensures { result ≡ posted.is_same_node a b }
{
    a.member == b.member && a.half == b.half
}

fn is_same_ref(a: Ref, b: Ref) -> bool
    ensures { result ≡ posted.is_same_ref a b }
{
    a.event == b.event && a.place == b.place
}

fn is_same_channel(a: Channel, b: Channel) -> bool
    ensures { result ≡ posted.is_same_channel a b }
{
    match a {
        Channel::Vote => matches!(b, Channel::Vote),
        Channel::Certificate => matches!(b, Channel::Certificate),
        Channel::Resolver => matches!(b, Channel::Resolver),
    }
}

// Whether they are one packet for one node.
fn is_same_parcel(a: &Parcel, b: &Parcel) -> bool
    ensures { result ≡ posted.is_same_parcel a.now b.now }
{
    is_same_node(a.to, b.to) && is_same_ref(a.packet, b.packet)
}

// Whether the parcel is for one of the nodes.
fn is_for(nodes: &[Node], parcel: &Parcel) -> bool
    ensures { result ≡ posted.is_for nodes.now parcel.now }
{
    nodes.iter().any(|node| is_same_node(*node, parcel.to))
}

// Whether the event delivers the parcel.
fn is_taken_by(event: &Event, parcel: &Parcel) -> bool
    ensures { result ≡ posted.is_taken_by event.now parcel.now }
{
    match event {
        Event::Deliver { node, packet } => {
            is_same_node(*node, parcel.to) && is_same_ref(*packet, parcel.packet)
        }
        Event::Start { .. } => false,
        Event::Tick { .. } => false,
        Event::Step { .. } => false,
        Event::Answer { .. } => false,
        Event::Crash { .. } => false,
        Event::Inject { .. } => false,
    }
}

// Where the first stands that the event delivers.
fn place_of(parcels: &[Parcel], event: &Event) -> Option<usize>
    ensures { result ≡ position (posted.is_taken_by event.now) parcels.now }
{
    parcels.iter().position(|it| is_taken_by(event, it))
}

// Whether the parcel goes this way.
fn goes(parcel: &Parcel, from: Node, to: Node, channel: Channel) -> bool
    ensures { result ≡ posted.goes from to channel parcel.now }
{
    is_same_node(parcel.from, from)
        && is_same_node(parcel.to, to)
        && is_same_channel(parcel.channel, channel)
}

fn first_on(parcels: &[Parcel], from: Node, to: Node, channel: Channel) -> Option<Parcel>
    ensures { result ≡ posted.first_on from to channel parcels.now }
{
    let mut rest = parcels;
    while let [it, after @ ..] = rest {
        if goes(it, from, to, channel) {
            return Some(*it);
        }
        rest = after;
    }
    None
}

fn last_on(parcels: &[Parcel], from: Node, to: Node, channel: Channel) -> Option<Parcel>
    ensures { result ≡ posted.last_on from to channel None parcels.now }
{
    let mut found = None;
    let mut rest = parcels;
    while let [it, after @ ..] = rest {
        if goes(it, from, to, channel) {
            found = Some(*it);
        }
        rest = after;
    }
    found
}

// An event sends packets.
fn send(waiting: &mut Vec<Parcel>, event: u64, packets: &[Packet]) -> Result<(), AllocError>
    ensures { OnOk result (waiting.new.items
        ≡ waiting.old.items ++ posted.parcels_from event 0 packets.now) }
{
    let mut place = 0u64;
    let mut rest = packets;
    while let [packet, after @ ..] = rest {
        send_one(waiting, Ref { event, place }, packet, packet.to.as_slice())?;
        // No memory has room for so many.
        place = place.checked_add(1).ok_or(AllocError)?;
        rest = after;
    }
    Ok(())
}

// A packet goes to these nodes.
fn send_one(
    waiting: &mut Vec<Parcel>,
    at: Ref,
    packet: &Packet,
    to: &[Node],
) -> Result<(), AllocError>
    ensures { OnOk result (waiting.new.items
        ≡ waiting.old.items ++ posted.parcels_to at packet.now to.now) }
{
    let mut rest = to;
    while let [node, after @ ..] = rest {
        waiting.push(Parcel {
            packet: at,
            from: packet.from,
            channel: packet.channel,
            to: *node,
        })?;
        rest = after;
    }
    Ok(())
}
