//! Makes the record of a transcript.
ghost use Rattle.std.specs.Prelude.{◌≡◌, List, Ok, map, IfOk};
ghost use Rattle.simplex_transcript.specs.declared.event.Event.{Event};
ghost use Rattle.model_run.specs.Setting.{Setting};
ghost use Rattle.model_run.specs.Run.{RunFrom};
ghost use Rattle.model_audit.specs.declared.record.Verdict.TheVariants.{Sound};
ghost use Rattle.model_audit.specs.Audit.{audited};
ghost use Rattle.model_audit.specs.Record as recorded;

use law_audit::records_of_runs_are_sound;
use model_audit::{AuditCall, AuditEntry, AuditTook};
use model_rules::Asked;
use simplex_messages::{Call, Handed, voter};
use simplex_transcript::{Entry, Packet, Took};
use simplex_typed::entries_are_typed;
use simplex_types::{Activity, Certificate, Keep, Sequence};
use std::alloc::{AllocError, Global};

// A report: a certification stands as its notarization, and of votes and evidence nothing stands.
fn report_of(alloc: Global, activity: &Activity) -> Result<AuditCall, AllocError>
    ensures { IfOk result (λ call. call ≡ recorded.report_of activity.now) }
{
    match activity {
        Activity::Notarization(it) | Activity::Certification(it) => Ok(AuditCall::Report(
            Certificate::Notarization(it.keep(alloc)?),
        )),
        Activity::Nullification(it) => Ok(AuditCall::Report(Certificate::Nullification(it.keep(
            alloc,
        )?))),
        Activity::Finalization(it) => Ok(AuditCall::Report(Certificate::Finalization(it.keep(
            alloc,
        )?))),
        Activity::Notarize(_)
        | Activity::Nullify(_)
        | Activity::Finalize(_)
        | Activity::ConflictingNotarize(_)
        | Activity::ConflictingFinalize(_)
        | Activity::NullifyFinalize(_) => Ok(AuditCall::Other),
    }
}

// What the record tells of a call.
fn call_of(alloc: Global, call: &Call) -> Result<AuditCall, AllocError>
    ensures { IfOk result (λ told. told ≡ recorded.call_of call.now) }
{
    match call {
        Call::Append(section, artifact) => {
            Ok(AuditCall::Append(*section, artifact.keep(alloc)?))
        }
        Call::Sync(section) => Ok(AuditCall::Sync(*section)),
        Call::Prune(least) => Ok(AuditCall::Prune(*least)),
        Call::Send { channel, bytes, .. } => Ok(AuditCall::Send(*channel, bytes.keep(alloc)?)),
        Call::Report(activity) => report_of(alloc, activity),
        Call::Relay { .. } | Call::Block(_, _) => Ok(AuditCall::Other),
    }
}

// What the record tells of the calls of an entry.
fn calls_of(alloc: Global, calls: &[Call]) -> Result<Sequence<AuditCall>, AllocError>
    ensures { IfOk result (λ told. told ≡ map recorded.call_of calls.now) }
{
    let mut told = Vec::with_capacity(alloc, calls.len())?;
    for call in calls {
        told.push(call_of(alloc, call)?)?;
    }
    Ok(Sequence::from_vec(told))
}

// Mail of the voter stands by its content.
fn mail_of(alloc: Global, message: &Handed) -> Result<AuditTook, AllocError>
    ensures { IfOk result (λ took. took ≡ recorded.mail_of message.now) }
{
    match message {
        Handed::Voter(voter::Message::Proposal { proposal }) => Ok(AuditTook::Proposal(*proposal)),
        Handed::Voter(voter::Message::Timeout { round, reason }) => {
            Ok(AuditTook::Timeout(*round, *reason))
        }
        Handed::Voter(voter::Message::Verified { certificate }) => {
            Ok(AuditTook::Certificate(certificate.keep(alloc)?))
        }
        Handed::Batcher(_) | Handed::Resolver(_) | Handed::Handler(_) => Ok(AuditTook::OtherMail),
    }
}

// What the record tells of what was taken.
fn took_of(alloc: Global, took: &Option<Took>) -> Result<AuditTook, AllocError>
    ensures { IfOk result (λ told. told ≡ recorded.took_of took.now) }
{
    match took {
        None => Ok(AuditTook::Nothing),
        Some(Took::Packet(at)) => Ok(AuditTook::Packet(*at)),
        Some(Took::Message(message)) => mail_of(alloc, message),
        Some(Took::Request(at, answer)) => Ok(AuditTook::Request(*at, *answer)),
        Some(Took::Timer) => Ok(AuditTook::Timer),
        Some(Took::Floor) => Ok(AuditTook::Floor),
    }
}

// An equal packet.
fn keep_packet(alloc: Global, packet: &Packet) -> Result<Packet, AllocError>
    ensures { IfOk result (λ copy. copy ≡ packet.now) }
{
    Ok(Packet {
        from: packet.from,
        channel: packet.channel,
        to: packet.to.keep(alloc)?,
        bytes: packet.bytes.keep(alloc)?,
    })
}

// Equal packets, in order.
fn keep_packets(alloc: Global, packets: &[Packet]) -> Result<Sequence<Packet>, AllocError>
    ensures { IfOk result (λ copies. copies ≡ packets.now) }
{
    let mut copies = Vec::with_capacity(alloc, packets.len())?;
    for packet in packets {
        copies.push(keep_packet(alloc, packet)?)?;
    }
    Ok(Sequence::from_vec(copies))
}

// Equal numbers of requests, in order.
fn keep_numbers(alloc: Global, numbers: &[u64]) -> Result<Sequence<u64>, AllocError>
    ensures { IfOk result (λ copies. copies ≡ numbers.now) }
{
    Ok(Sequence::from_vec(Vec::from_slice(alloc, numbers)?))
}

// Equal requests, in order.
fn keep_asked(alloc: Global, asked: &[Asked]) -> Result<Sequence<Asked>, AllocError>
    ensures { IfOk result (λ copies. copies ≡ asked.now) }
{
    Ok(Sequence::from_vec(Vec::from_slice(alloc, asked)?))
}

// What the record tells of an entry.
#[tactic(auto, unfolding(model_audit::specs::Record::record_entry))]
fn record_entry(alloc: Global, entry: &Entry) -> Result<AuditEntry, AllocError>
    ensures { IfOk result (λ told. told ≡ recorded.record_entry entry.now) }
{
    Ok(AuditEntry {
        event: entry.event,
        who: entry.who,
        took: took_of(alloc, &entry.took)?,
        added: entry.added.keep(alloc)?,
        asked: keep_asked(alloc, entry.asked.as_slice())?,
        dropped: keep_numbers(alloc, entry.dropped.as_slice())?,
        calls: calls_of(alloc, entry.calls.as_slice())?,
        packets: keep_packets(alloc, entry.packets.as_slice())?,
        outcome: entry.outcome,
    })
}

// The entries of the record.
#[tactic(auto, unfolding(model_audit::specs::Record::record_of))]
fn record_entries(alloc: Global, transcript: &[Entry]) -> Result<Vec<AuditEntry>, AllocError>
    ensures { IfOk result (λ told. told.items ≡ recorded.record_of transcript.now) }
{
    let mut told = Vec::with_capacity(alloc, transcript.len())?;
    for entry in transcript {
        told.push(record_entry(alloc, entry)?)?;
    }
    Ok(told)
}

/// The record of a transcript: the same entries, but that messages that were put into mailboxes are left out, that mail of
/// the voter stands by its content, and that of the calls those of the journal, the sends and the reported certificates stand.
/// Where the transcript is that of a run, no fault is found in its record.
pub fn record_of(alloc: Global, transcript: &[Entry]) -> Result<Vec<AuditEntry>, AllocError>
    ensures record { IfOk result (λ told. told.items ≡ recorded.record_of transcript.now) }
    ensures sound { IfOk result (λ told. (setting : Setting) (events : List Event) → RunFrom setting events ≡ Ok transcript.now
        → audited setting events told.items ≡ Sound) }
{
    records_of_runs_are_sound();
    entries_are_typed(transcript);
    record_entries(alloc, transcript)
}
