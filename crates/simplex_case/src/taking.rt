//! What is taken in of an entry.
ghost use Rattle.std.specs.Prelude.{◌≡◌, ◌<◌, ◌≤◌, ◌+◌, ◌-◌, ◌^◌, ◌&&◌, ◌||◌, ◌∷◌, ◌++◌, ◌*◌, ℕ, [], List, true, length, IfOk, OnOk};
ghost use Rattle.std.specs.List.{list_any};
ghost use Rattle.simplex_wire.specs.declared.certificate.Finalization.{Finalization};
ghost use Rattle.simplex_transcript.specs.declared.entry.Packet.{Packet};
ghost use Rattle.model_audit.specs.declared.record.AuditEntry.{AuditEntry};
ghost use Rattle.model_run.specs.Entries.{is_of_honest};
ghost use Rattle.model_run.specs.Kinds as kinds;
ghost use Rattle.model_run.specs.Life.{Noted};
ghost use Rattle.simplex_records.specs.Reported.{has_reported};
ghost use Rattle.simplex_records.specs.Votes.{VotesStand, IndexStands};
ghost use Rattle.model_audit.specs.Rebuilt.{rebuilt};
ghost use Rattle.simplex_case.specs.Answered.{AnswersStand, IsOfRequest};
ghost use Rattle.simplex_case.specs.Stands.{DesksStand, IsOfNode};
ghost use Rattle.simplex_case.specs.Taking as taking;
ghost use Rattle.simplex_case.specs.Taking.{VotesAlong};

use crate::answered::Answered;
use crate::desk::Desk;
use crate::members::{are_honest, is_node};
use model_audit::{AuditCall, AuditEntry};
use simplex_records::{Reported, SentVotes, is_honest, seat_of};
use simplex_transcript::{Event, Node, Packet, Ref, Setup};
use simplex_types::Certificate;
use std::alloc::{AllocError, Global};
use std::slice::from_ref;

/// The clock behind an event.
pub(crate) fn clock_behind(clock: u64, event: &Event) -> u64
    ensures { taking.clock_behind clock event.now ≤ 2 ^ 63 - 1
        → result ≡ taking.clock_behind clock event.now }
{
    match event {
        Event::Tick { ms } => clock.saturating_add(*ms),
        _ => clock,
    }
}

/// So many desks of nodes of which there is no event.
pub(crate) fn blank_desks(alloc: Global, count: usize) -> Result<Vec<Desk>, AllocError>
    ensures count { IfOk result (λ desks. length desks.items ≡ count) }
    ensures stand { IfOk result (λ desks. DesksStand desks.items []) }
{
    let mut desks = Vec::new(alloc);
    for _ in 0..count {
        desks.push(Desk::new(alloc))?;
    }
    Ok(desks)
}

/// Of no vote. Where no member is faulty, none is kept.
pub(crate) fn blank_votes(alloc: Global, setup: &Setup) -> Result<Option<SentVotes>, AllocError>
    requires { length setup.now.members < 2 ^ 32 }
    ensures { IfOk result (λ votes. VotesStand votes setup.now []) }
{
    if are_honest(setup) {
        return Ok(None);
    }
    let votes = SentVotes::new(alloc, setup)?;
    Ok(Some(votes))
}

/// Takes in an event's answer, and that it asked nothing that is answered yet.
pub(crate) fn take_answer(
    answered: &mut Answered,
    alloc: Global,
    event: &Event,
) -> Result<(), AllocError>
    ensures { OnOk result ((before : List Noted) (entry : AuditEntry) → IsOfRequest before event.now
        → AnswersStand answered.old.marks.items before
        → AnswersStand answered.new.marks.items (rebuilt event.now entry ∷ before)) }
{
    match answer_place(event) {
        None => answered.push(alloc),
        Some(request) => {
            answered.mark(request)?;
            answered.push(alloc)
        }
    }
}

// Which request an event answers.
fn answer_place(event: &Event) -> Option<Ref>
    ensures { result ≡ taking.answer_place event.now }
{
    match event {
        Event::Answer { request, .. } => Some(*request),
        Event::Start { .. }
        | Event::Tick { .. }
        | Event::Deliver { .. }
        | Event::Step { .. }
        | Event::Crash { .. }
        | Event::Inject { .. } => None,
    }
}

/// Takes in an event of a node.
pub(crate) fn take_at_desk(
    desks: &mut Vec<Desk>,
    alloc: Global,
    setup: &Setup,
    number: u64,
    event: &Event,
    entry: &AuditEntry,
) -> Result<(), AllocError>
    requires few { length setup.now.members < 2 ^ 32 }
    ensures count { OnOk result (length desks.new.items ≡ length desks.old.items) }
    ensures stand { OnOk result ((before : List Noted) → number ≡ length before + 1 → length desks.old.items ≡ 2 * kinds.members_of setup.now
        → IsOfNode setup.now event.now → DesksStand desks.old.items before
        → DesksStand desks.new.items (rebuilt event.now entry.now ∷ before)) }
{
    match own_node(event) {
        Some(node) if is_node(setup, node) => {
            let seat = seat_of(node);
            if seat < desks.len() {
                desks[seat].take(alloc, number, event, entry)?;
            }
            Ok(())
        }
        Some(_) | None => Ok(()),
    }
}

/// The node whose event it is.
pub fn own_node(event: &Event) -> Option<Node>
    ensures { result ≡ taking.own_node event.now }
{
    match event {
        Event::Start { node, .. } => Some(*node),
        Event::Deliver { node, .. } => Some(*node),
        Event::Step { node, .. } => Some(*node),
        Event::Answer { node, .. } => Some(*node),
        Event::Crash { node } => Some(*node),
        Event::Tick { .. } | Event::Inject { .. } => None,
    }
}

/// Takes in what an honest member reported.
pub(crate) fn take_reports(
    reported: &mut Reported,
    alloc: Global,
    setup: &Setup,
    entry: &AuditEntry,
) -> Result<(), AllocError>
    ensures { OnOk result ((f : Finalization) → has_reported reported.new f
        ≡ (is_of_honest setup.now entry.now.who && list_any (taking.tells f) entry.now.calls
        || has_reported reported.old f)) }
{
    match entry.who {
        Some(node) if is_honest(setup, node.member) => {
            take_calls(reported, alloc, entry.calls.as_slice())
        }
        Some(_) | None => Ok(()),
    }
}

// Takes in what calls report.
fn take_calls(reported: &mut Reported, alloc: Global, calls: &[AuditCall]) -> Result<(), AllocError>
    ensures { OnOk result ((f : Finalization) → has_reported reported.new f
        ≡ (list_any (taking.tells f) calls.now || has_reported reported.old f)) }
{
    for call in calls {
        take_call(reported, alloc, call)?;
    }
    Ok(())
}

fn take_call(reported: &mut Reported, alloc: Global, call: &AuditCall) -> Result<(), AllocError>
    ensures { OnOk result ((f : Finalization)
        → has_reported reported.new f ≡ (taking.tells f call.now || has_reported reported.old f)) }
{
    match call {
        AuditCall::Report(Certificate::Finalization(finalization)) => {
            reported.add_finalization(alloc, finalization)
        }
        _ => Ok(()),
    }
}

/// Takes in the votes that honest members sent in packets.
pub(crate) fn take_votes(
    votes: &mut Option<SentVotes>,
    alloc: Global,
    setup: &Setup,
    packets: &[Packet],
) -> Result<(), AllocError>
    ensures { OnOk result ((before : List Noted) (noted : Noted) → noted.entry.packets ≡ packets.now
        → VotesStand votes.old setup.now before → VotesStand votes.new setup.now (noted ∷ before)) }
{
    match votes {
        None => Ok(()),
        Some(votes) => take_packets(votes, alloc, setup, packets),
    }
}

fn take_packets(
    votes: &mut SentVotes,
    alloc: Global,
    setup: &Setup,
    packets: &[Packet],
) -> Result<(), AllocError>
    ensures { OnOk result ((before : List Noted) (noted : Noted) → noted.entry.packets ≡ packets.now
        → IndexStands votes.old setup.now before
        → IndexStands votes.new setup.now (noted ∷ before)) }
{
    for packet in packets {
        take_packet(votes, alloc, setup, packet)?;
    }
    Ok(())
}

// Takes in the vote of a packet.
fn take_packet(
    votes: &mut SentVotes,
    alloc: Global,
    setup: &Setup,
    packet: &Packet,
) -> Result<(), AllocError>
    ensures { OnOk result ((before : List Noted) (earlier : List Packet) → VotesAlong votes.old setup.now before earlier
        → VotesAlong votes.new setup.now before (earlier ++ packet.now ∷ [])) }
{
    if packet.from.half == 0 && is_honest(setup, packet.from.member) {
        votes.add(alloc, packet.from.member, from_ref(packet))?;
    }
    Ok(())
}
