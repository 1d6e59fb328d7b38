//! To which nodes a send goes.
#![tactic(auto, unfolding(model_run::specs::Twins::is_in_part, model_run::specs::Twins::round_at, model_run::specs::Routing::is_routed, model_run::specs::Routing::packet_view))]

ghost use Rattle.std.specs.Prelude.{◌≡◌, ◌==◌, ◌++◌, ◌∷◌, ◌-◌, [], not, length, filter, IfOk, OnOk, if◌then◌else◌};
ghost use Rattle.std.specs.List.{range_with_len};
ghost use Rattle.simplex_values.specs.Terms.{term_index};
ghost use Rattle.simplex_wire.specs.Format.{whole};
ghost use Rattle.simplex_wire.specs.Message as format;
ghost use Rattle.simplex_wire.specs.ResolverMessage.{resolver_message};
ghost use Rattle.model_run.specs.Kinds.{nodes_at};
ghost use Rattle.model_run.specs.Twins as twins;
ghost use Rattle.model_run.specs.Routing as routing;
ghost use Rattle.simplex_records.specs.Routes.{routed_nodes, has_routes};

use crate::kinds::{has_twin, is_twin};
use crate::reading::{certificate_in, message_in, vote_in};
use simplex_transcript::{Node, Packet, Setup, SetupRound};
use simplex_types::{Bytes, Channel, Participant, Recipients, ResolverBody, Sequence};
use std::alloc::{AllocError, Global};

/// The packet that a send of the node is.
pub fn packet_for_send(
    alloc: Global,
    setup: &Setup,
    from: Node,
    channel: Channel,
    to: &Recipients,
    bytes: Bytes,
) -> Result<Packet, AllocError>
    ensures { IfOk result (λ packet. packet
        ≡ routing.packet_for_send setup.now from channel to.now bytes) }
{
    let view = routing_view(alloc, setup, channel, bytes.as_slice())?;
    Ok(Packet {
        from,
        channel,
        to: nodes_for(alloc, setup, view, from, to)?,
        bytes,
    })
}

// The view of a packet by which it is routed. It is not read where all packets go everywhere.
fn routing_view(
    alloc: Global,
    setup: &Setup,
    channel: Channel,
    bytes: &[u8],
) -> Result<u64, AllocError>
    ensures { IfOk result (λ view. view
        ≡ (if has_routes setup.now then routing.packet_view channel bytes.now else 0)) }
{
    if setup.scenario.is_empty() || !has_twin(setup) {
        return Ok(0);
    }
    packet_view(alloc, channel, bytes)
}

// The view of a packet: 0 where the bytes do not decode.
fn packet_view(alloc: Global, channel: Channel, bytes: &[u8]) -> Result<u64, AllocError>
    ensures { IfOk result (λ view. view ≡ routing.packet_view channel bytes.now) }
{
    match channel {
        Channel::Vote => Ok(vote_view(bytes)),
        Channel::Certificate => certificate_view(alloc, bytes),
        Channel::Resolver => message_view(alloc, bytes),
    }
}

fn vote_view(bytes: &[u8]) -> u64
    ensures { result ≡ routing.view_of_vote (whole format.vote bytes.now) }
{
    match vote_in(bytes) {
        None => 0,
        Some(vote) => vote.view().0,
    }
}

fn certificate_view(alloc: Global, bytes: &[u8]) -> Result<u64, AllocError>
    ensures { IfOk result (λ view. view
        ≡ routing.view_of_certificate (whole format.certificate bytes.now)) }
{
    match certificate_in(alloc, bytes)? {
        None => Ok(0),
        Some(certificate) => Ok(certificate.view().0),
    }
}

fn message_view(alloc: Global, bytes: &[u8]) -> Result<u64, AllocError>
    ensures { IfOk result (λ view. view
        ≡ routing.view_of_message (whole resolver_message bytes.now)) }
{
    match message_in(alloc, bytes)? {
        None => Ok(0),
        Some(message) => body_view(alloc, &message.body),
    }
}

fn body_view(alloc: Global, body: &ResolverBody) -> Result<u64, AllocError>
    ensures { IfOk result (λ view. view ≡ routing.view_of_body body.now) }
{
    match body {
        ResolverBody::Request { view } => Ok(view.0),
        ResolverBody::Response { bytes } => certificate_view(alloc, bytes.as_slice()),
        ResolverBody::Error => Ok(0),
    }
}

// The nodes that a send goes to, at the view. [in-the-order-named]
fn nodes_for(
    alloc: Global,
    setup: &Setup,
    view: u64,
    from: Node,
    to: &Recipients,
) -> Result<Sequence<Node>, AllocError>
    ensures { IfOk result (λ nodes. nodes
        ≡ routed_nodes setup.now view from (routing.members_for setup.now from.member to.now)) }
{
    match to {
        Recipients::All => nodes_of_others(alloc, setup, view, from),
        Recipients::Some(members) => nodes_of(alloc, setup, view, from, members.as_slice()),
        Recipients::One(member) => nodes_of(alloc, setup, view, from, &[*member]),
    }
}

// The nodes of all members but the sender that it goes to.
fn nodes_of_others(
    alloc: Global,
    setup: &Setup,
    view: u64,
    from: Node,
) -> Result<Sequence<Node>, AllocError>
    ensures { IfOk result (λ nodes. nodes
        ≡ routed_nodes setup.now view from
        (filter (λ m. not (m == from.member)) (range_with_len 0 (length setup.now.members)))) }
{
    let mut nodes = Sequence::new(alloc);
    for member in 0..setup.members.len() as u64 {
        if member != from.member {
            add_nodes(&mut nodes, setup, view, from, member)?;
        }
    }
    Ok(nodes)
}

// The nodes of these members that it goes to.
fn nodes_of(
    alloc: Global,
    setup: &Setup,
    view: u64,
    from: Node,
    members: &[Participant],
) -> Result<Sequence<Node>, AllocError>
    ensures { IfOk result (λ nodes. nodes ≡ routed_nodes setup.now view from members.now) }
{
    let mut nodes = Sequence::new(alloc);
    for member in members {
        add_nodes(&mut nodes, setup, view, from, u64::from(member.0))?;
    }
    Ok(nodes)
}

// Adds the nodes of the member that it goes to.
fn add_nodes(
    nodes: &mut Sequence<Node>,
    setup: &Setup,
    view: u64,
    from: Node,
    member: u64,
) -> Result<(), AllocError>
    ensures { OnOk result (nodes.new ≡ nodes.old ++ filter (routing.is_routed setup.now view from)
        (nodes_at setup.now member)) }
{
    add_routed(nodes, setup, view, from, Node { member, half: 0 })?;
    if is_twin(setup, member) {
        add_routed(nodes, setup, view, from, Node { member, half: 1 })?;
    }
    Ok(())
}

// Adds the node, where it goes there.
fn add_routed(
    nodes: &mut Sequence<Node>,
    setup: &Setup,
    view: u64,
    from: Node,
    to: Node,
) -> Result<(), AllocError>
    ensures { OnOk result (nodes.new
        ≡ nodes.old ++ filter (routing.is_routed setup.now view from) (to ∷ [])) }
{
    if is_routed(setup, view, from, to) {
        nodes.push(to)?;
    }
    Ok(())
}

// Whether it goes from the one node to the other at the view. [scripts-are-one-test]
fn is_routed(setup: &Setup, view: u64, from: Node, to: Node) -> bool
    ensures { result ≡ routing.is_routed setup.now view from to }
{
    (!is_twin(setup, from.member) || is_in_part(setup, view, from.half, to.member))
        && (!is_twin(setup, to.member) || is_in_part(setup, view, to.half, from.member))
}

// Whether the member talks with this half of each twin at the view.
fn is_in_part(setup: &Setup, view: u64, half: u64, member: u64) -> bool
    ensures { result ≡ twins.is_in_part setup.now view half member }
{
    match round_at(setup, view) {
        None => true,
        Some(scripted) => is_in_mask(mask_of(half, scripted), member),
    }
}

// The scripted round of the view.
fn round_at(setup: &Setup, view: u64) -> Option<SetupRound>
    ensures { result ≡ twins.round_at setup.now view }
{
    let place = script_place(setup.term, view);
    setup.scenario.as_slice().get(place as usize).copied()
}

// The place of the view's term in a script.
#[tactic(auto, using(crate::proofs::Scripts::no_term, crate::proofs::Scripts::term_place))]
fn script_place(term: u64, view: u64) -> u64
    ensures { result ≡ term_index term view - 1 }
{
    if term == 0 {
        return 0;
    }
    view.saturating_sub(1) / term
}

fn mask_of(half: u64, scripted: SetupRound) -> u64
    ensures { result ≡ twins.mask_of half scripted }
{
    if half == 0 {
        scripted.primary
    } else {
        scripted.secondary
    }
}

// Whether the mask has the bit of the member.
#[tactic(auto, using(crate::proofs::Scripts::no_bits_past))]
fn is_in_mask(mask: u64, member: u64) -> bool
    ensures { result ≡ twins.is_in_mask mask member }
{
    member < 64 && (mask >> member) % 2 == 1
}
