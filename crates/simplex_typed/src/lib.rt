//! That the values of an entry keep to their types.
#![tactic(auto)]

ghost use Rattle.law_run.specs.Sayings.{Each};
ghost use Rattle.simplex_wire.specs.Fits.{IsBytes, IsRaw, FitsRound, FitsProposal};
ghost use Rattle.law_run.specs.Fitting.{RecordFits, CallFits, HandedFits, IsOfBytes, IsTyped};

use simplex_messages::{Call, Handed, batcher};
use simplex_transcript::{Entry, Packet};
use simplex_types::{Artifact, Proposal, Round, Vote};

/// The numbers of a round keep to their type.
pub fn round_fits(round: &Round)
    ensures { FitsRound round.now }
{
    let _epoch = round.epoch.0;
    let _view = round.view.0;
}

/// A digest has 32 bytes, each below 256.
pub fn raw_fits(bytes: &[u8; 32])
    ensures { IsRaw 32 bytes.now }
{
    let slice: &[u8] = bytes;
    are_bytes(slice);
}

/// The numbers of a proposal keep to their types.
pub fn proposal_fits(proposal: &Proposal)
    ensures { FitsProposal proposal.now }
{
    round_fits(&proposal.round);
    let _parent = proposal.parent.0;
    raw_fits(&proposal.payload.0);
}

/// The numbers of a record of an own vote keep to their types.
pub fn record_fits(artifact: &Artifact)
    ensures { RecordFits artifact.now }
{
    match artifact {
        Artifact::Notarize(vote) => proposal_fits(&vote.proposal),
        Artifact::Nullify(vote) => round_fits(&vote.round),
        Artifact::Finalize(vote) => proposal_fits(&vote.proposal),
        _ => {}
    }
}

/// The numbers of a vote that a call appends keep to their types.
pub fn call_fits(call: &Call)
    ensures { CallFits call.now }
{
    if let Call::Append(_, artifact) = call {
        record_fits(artifact);
    }
}

/// So it is of each call.
pub fn calls_fit(calls: &[Call])
    ensures { Each CallFits calls.now }
{
    for call in calls {
        call_fits(call);
    }
}

/// The numbers of an own vote that the batcher is told of keep to their types.
pub fn handed_fits(message: &Handed)
    ensures { HandedFits message.now }
{
    if let Handed::Batcher(batcher::Message::Constructed(vote)) = message {
        match vote {
            Vote::Notarize(vote) => proposal_fits(&vote.proposal),
            Vote::Nullify(vote) => round_fits(&vote.round),
            Vote::Finalize(vote) => proposal_fits(&vote.proposal),
        }
    }
}

/// Each byte of a slice is below 256.
pub fn are_bytes(bytes: &[u8])
    ensures { IsBytes bytes.now }
{}

/// So it is of each message.
pub fn messages_fit(messages: &[Handed])
    ensures { Each HandedFits messages.now }
{
    for message in messages {
        handed_fits(message);
    }
}

/// Each byte of a packet is below 256.
pub fn packet_is_bytes(packet: &Packet)
    ensures { IsOfBytes packet.now }
{
    are_bytes(packet.bytes.as_slice());
}

/// So it is of each packet.
pub fn packets_are_bytes(packets: &[Packet])
    ensures { Each IsOfBytes packets.now }
{
    for packet in packets {
        packet_is_bytes(packet);
    }
}

/// The values of an entry keep to their types.
pub fn entry_is_typed(entry: &Entry)
    ensures { IsTyped entry.now }
{
    messages_fit(entry.handed.as_slice());
    calls_fit(entry.calls.as_slice());
    packets_are_bytes(entry.packets.as_slice());
}

/// So it is of each entry.
pub fn entries_are_typed(entries: &[Entry])
    ensures { Each IsTyped entries.now }
{
    for entry in entries {
        entry_is_typed(entry);
    }
}
