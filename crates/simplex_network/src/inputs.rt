//! What an engine is given, and what is entered of what it made.
ghost use Rattle.std.specs.Prelude.{◌≡◌, ◌<◌, ◌^◌, List, IfOk, false};
ghost use Rattle.std.specs.Option.{option_and_then};
ghost use Rattle.simplex_transcript.specs.declared.setup.Setup as setups;
ghost use Rattle.model_run.specs.Life.{Noted};
ghost use Rattle.simplex_records.specs.Seats.{seat_of};
ghost use Rattle.simplex_records.specs.Stands.{RecordsStand, TakesIn, seats_in};
ghost use Rattle.simplex_network.specs.Polls.{EntersMade, as_run_error, named};

use crate::task::Made;
use simplex_engine::{Input, PollError, TakenInside};
use simplex_records::Records;
use simplex_transcript::{Entry, Node, Packet, RunError, Setup, Took};
use simplex_types::{Keep, Participant};
use std::alloc::{AllocError, Global};

/// The packet, as an engine is given it. Its sender is one of the members, who are few.
pub(crate) fn heard(alloc: Global, packet: &Packet) -> Result<Input, AllocError>
    ensures { IfOk result (λ input. packet.now.from.member < 2 ^ 32
        → input ≡ Input.Deliver packet.now.from.member packet.now.channel packet.now.bytes) }
{
    let sender = u32::try_from(packet.from.member).unwrap_or(u32::MAX);
    Ok(Input::Deliver {
        sender: Participant(sender),
        channel: packet.channel,
        bytes: packet.bytes.keep(alloc)?,
    })
}

/// What was taken from inside the node's engine, with the place of its request.
pub(crate) fn took(records: &Records, node: Node, taken: Option<TakenInside>) -> Option<Took>
    requires half { node.half < 2 }
    requires seat { seat_of node < seats_in records.now }
    ensures { (setup : setups.Setup) (before : List Noted) → RecordsStand records.now setup before
        → result ≡ option_and_then (named before node) taken }
{
    match taken? {
        TakenInside::Message(message) => Some(Took::Message(message)),
        TakenInside::Answer { request, answer } => {
            let at = records.request_place(node, request)?;
            Some(Took::Request(at, answer))
        }
        TakenInside::Deadline => Some(Took::Timer),
    }
}

/// Enters what a step of the node's engine made. What it took is told from outside, else from inside.
pub(crate) fn enter(
    alloc: Global,
    setup: &Setup,
    records: &mut Records,
    node: Node,
    made: Made,
) -> Result<Entry, AllocError>
    requires half { node.half < 2 }
    requires seat { seat_of node < seats_in records.old }
    ensures count { seats_in records.new ≡ seats_in records.old }
    ensures entry { IfOk result (EntersMade records.old setup.now node made) }
    ensures stands { IfOk result
        (λ entry. TakesIn records.old records.new setup.now node false entry) }
{
    let Made {
        polled,
        out,
        outside,
    } = made;
    let inside = took(records, node, polled.taken);
    let took = outside.or(inside);
    records.enter(alloc, setup, node, false, took, out, polled.outcome)
}

/// What a refusal of an engine is to the network. An engine that failed wanted memory before.
pub(crate) fn run_error(error: PollError) -> RunError
    ensures { result ≡ as_run_error error }
{
    match error {
        PollError::Failed | PollError::Memory => RunError::Memory,
        PollError::Stopped => RunError::NotRunning,
        PollError::NotPending => RunError::NotPending,
    }
}
