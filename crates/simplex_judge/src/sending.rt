//! Whether the packets of an entry are the votes that were due.
ghost use Rattle.std.specs.Prelude.{◌≡◌, ◌&&◌, [], true, false, IfOk, length, map, filter, filter_map, is_some};
ghost use Rattle.std.specs.List.{list_any};
ghost use Rattle.std.specs.Option.{option_map_or};
ghost use Rattle.std.specs.Str.{bytes_eq};
ghost use Rattle.simplex_wire.specs.Message as format;
ghost use Rattle.model_audit.specs.VotesDue.{are_those, vote_bytes};
ghost use Rattle.simplex_due.specs.Due.{votes_in};
ghost use Rattle.simplex_judge.specs.Sending as sending;
ghost use Rattle.simplex_judge.specs.Sending.{is_sent};

use simplex_due::Due;
use simplex_transcript::Packet;
use simplex_types::{Channel, Vote};
use std::alloc::{AllocError, Global};

/// No vote.
pub(crate) fn nothing_due() -> Due
    ensures { votes_in result ≡ [] }
{
    Due {
        nullify: None,
        notarize: None,
        finalize: None,
    }
}

/// Whether the votes among the packets are these and no other.
pub(crate) fn sends(alloc: Global, packets: &[Packet], due: &Due) -> Result<bool, AllocError>
    ensures { IfOk result (λ sent. sent
        ≡ are_those (map format.vote.spelling (votes_in due.now))
        (filter_map vote_bytes packets.now)) }
{
    if votes_among(packets) != votes_due(due) {
        return Ok(false);
    }
    let nullify = is_sent_if(alloc, packets, due.nullify.map(Vote::Nullify))?;
    let notarize = is_sent_if(alloc, packets, due.notarize.map(Vote::Notarize))?;
    let finalize = is_sent_if(alloc, packets, due.finalize.map(Vote::Finalize))?;
    Ok(three(nullify, notarize, finalize))
}

// Whether all three hold.
fn three(first: bool, second: bool, third: bool) -> bool
    ensures { result ≡ (first && second && third) }
{
    first && second && third
}

// How many votes are due.
fn votes_due(due: &Due) -> usize
    ensures { result ≡ length (votes_in due.now) }
{
    due.nullify.is_some() as usize
        + due.notarize.is_some() as usize
        + due.finalize.is_some() as usize
}

// How many of the packets are votes.
fn votes_among(packets: &[Packet]) -> usize
    ensures { result ≡ length (filter_map vote_bytes packets.now) }
{
    count_votes(packets)
}

// How many packets go by the channel of votes.
fn count_votes(packets: &[Packet]) -> usize
    ensures { result ≡ length (filter (λ packet. is_some (vote_bytes packet)) packets.now) }
{
    packets.iter().filter(|packet| is_vote(packet)).count()
}

// Whether the packet goes by the channel of votes.
fn is_vote(packet: &Packet) -> bool
    ensures { result ≡ is_some (vote_bytes packet.now) }
{
    matches!(packet.channel, Channel::Vote)
}

// Whether the packet is a vote of these bytes.
fn carries(packet: &Packet, bytes: &[u8]) -> bool
    ensures { result ≡ sending.carries bytes.now packet.now }
{
    match packet.channel {
        Channel::Vote => bytes == packet.bytes.as_slice(),
        Channel::Certificate | Channel::Resolver => false,
    }
}

// Whether one of the packets is a vote of these bytes.
fn is_among(packets: &[Packet], bytes: &[u8]) -> bool
    ensures { result ≡ list_any (sending.carries bytes.now) packets.now }
{
    packets.iter().any(|packet| carries(packet, bytes))
}

// Whether the vote is among the packets.
fn is_sent(alloc: Global, packets: &[Packet], vote: &Vote) -> Result<bool, AllocError>
    ensures { IfOk result (λ sent. sent ≡ is_sent (filter_map vote_bytes packets.now) vote.now) }
{
    let bytes = vote.encode(alloc)?;
    Ok(is_among(packets, bytes.as_slice()))
}

// Whether the vote, if there is one, is among the packets.
fn is_sent_if(alloc: Global, packets: &[Packet], vote: Option<Vote>) -> Result<bool, AllocError>
    ensures { IfOk result (λ sent. sent
        ≡ option_map_or (is_sent (filter_map vote_bytes packets.now)) vote true) }
{
    match vote {
        None => Ok(true),
        Some(vote) => is_sent(alloc, packets, &vote),
    }
}
