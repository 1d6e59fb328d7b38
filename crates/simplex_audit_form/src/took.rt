//! Reads and writes what a node took.
ghost use Rattle.std.specs.Prelude.{◌≡◌, IfOk, Option};
ghost use Rattle.serde_json.specs.View.{view};
ghost use Rattle.simplex_audit_form.specs.Took.{proposal_of, reason_of, timeout_of, named_took_of, packet_took_of, proposal_took_of, timeout_took_of, certificate_took_of, single_took_of, request_took_of, valued_took_of, took_of, proposal_data, reason_name, timeout_data, took_data};

use crate::answers::write_answer;
use crate::form::Form;
use crate::pieces::{write_hex, write_name, write_ref};
use model_audit::AuditTook;
use serde_json::{Value, json};
use simplex_form::{has_items, has_members, read_answer, read_digest, read_ref};
use simplex_types::{Certificate, Epoch, Proposal, Round, TimeoutReason, View};
use std::alloc::{AllocError, Global};

fn read_proposal(value: &Value) -> Option<Proposal>
    ensures { result ≡ proposal_of (view value.now) }
{
    if !has_items(value, 4) {
        return None;
    }
    let epoch = value.get(0usize)?.as_u64()?;
    let view = value.get(1usize)?.as_u64()?;
    let parent = value.get(2usize)?.as_u64()?;
    let payload = read_digest(value.get(3usize)?.as_str()?)?;
    Some(Proposal {
        round: Round {
            epoch: Epoch(epoch),
            view: View(view),
        },
        parent: View(parent),
        payload,
    })
}

fn read_reason(name: &str) -> Option<TimeoutReason>
    ensures { result ≡ reason_of name.now }
{
    match name {
        "LeaderTimeout" => Some(TimeoutReason::LeaderTimeout),
        "CertificationTimeout" => Some(TimeoutReason::CertificationTimeout),
        "StallTimeout" => Some(TimeoutReason::StallTimeout),
        "LeaderNullify" => Some(TimeoutReason::LeaderNullify),
        "Inactivity" => Some(TimeoutReason::Inactivity),
        "MissingProposal" => Some(TimeoutReason::MissingProposal),
        "IgnoredProposal" => Some(TimeoutReason::IgnoredProposal),
        "InvalidProposal" => Some(TimeoutReason::InvalidProposal),
        "FailedCertification" => Some(TimeoutReason::FailedCertification),
        _ => None,
    }
}

fn read_timeout(value: &Value) -> Option<AuditTook>
    ensures { result ≡ timeout_of (view value.now) }
{
    if !has_items(value, 3) {
        return None;
    }
    let epoch = value.get(0usize)?.as_u64()?;
    let view = value.get(1usize)?.as_u64()?;
    let reason = read_reason(value.get(2usize)?.as_str()?)?;
    let round = Round {
        epoch: Epoch(epoch),
        view: View(view),
    };
    Some(AuditTook::Timeout(round, reason))
}

fn read_named(name: &str) -> Option<AuditTook>
    ensures { result ≡ named_took_of name.now }
{
    match name {
        "mail" => Some(AuditTook::OtherMail),
        "timer" => Some(AuditTook::Timer),
        "floor" => Some(AuditTook::Floor),
        _ => None,
    }
}

fn read_packet_took(value: &Value) -> Option<AuditTook>
    ensures { result ≡ packet_took_of (view value.now) }
{
    let at = read_ref(value.get("packet")?)?;
    Some(AuditTook::Packet(at))
}

fn read_proposal_took(value: &Value) -> Option<AuditTook>
    ensures { result ≡ proposal_took_of (view value.now) }
{
    let proposal = read_proposal(value.get("proposal")?)?;
    Some(AuditTook::Proposal(proposal))
}

fn read_timeout_took(value: &Value) -> Option<AuditTook>
    ensures { result ≡ timeout_took_of (view value.now) }
{
    read_timeout(value.get("timeout")?)
}

fn read_certificate_took(alloc: Global, value: &Value) -> Result<Option<AuditTook>, AllocError>
    ensures { IfOk result (λ o. o ≡ certificate_took_of (view value.now)) }
{
    let Some(part) = value.get("certificate") else {
        return Ok(None);
    };
    let Some(certificate) = Certificate::read(alloc, part)? else {
        return Ok(None);
    };
    Ok(Some(AuditTook::Certificate(certificate)))
}

// An object of one member.
fn read_single(alloc: Global, value: &Value) -> Result<Option<AuditTook>, AllocError>
    ensures { IfOk result (λ o. o ≡ single_took_of (view value.now)) }
{
    if let Some(packet) = read_packet_took(value) {
        return Ok(Some(packet));
    }
    if let Some(proposal) = read_proposal_took(value) {
        return Ok(Some(proposal));
    }
    if let Some(timeout) = read_timeout_took(value) {
        return Ok(Some(timeout));
    }
    read_certificate_took(alloc, value)
}

fn read_request(value: &Value) -> Option<AuditTook>
    ensures { result ≡ request_took_of (view value.now) }
{
    let request = read_ref(value.get("request")?)?;
    let answer = read_answer(value.get("answer")?)?;
    Some(AuditTook::Request(request, answer))
}

fn read_valued(alloc: Global, value: &Value) -> Result<Option<AuditTook>, AllocError>
    ensures { IfOk result (λ o. o ≡ valued_took_of (view value.now)) }
{
    if has_members(value, 1) {
        return read_single(alloc, value);
    }
    if has_members(value, 2) {
        return Ok(read_request(value));
    }
    Ok(None)
}

/// What a node took.
pub(crate) fn read_took(alloc: Global, value: &Value) -> Result<Option<AuditTook>, AllocError>
    ensures { IfOk result (λ o. o ≡ took_of (view value.now)) }
{
    if value.is_null() {
        return Ok(Some(AuditTook::Nothing));
    }
    match value.as_str() {
        Some(name) => Ok(read_named(name)),
        None => read_valued(alloc, value),
    }
}

fn write_proposal(alloc: Global, proposal: &Proposal) -> Result<Value, AllocError>
    ensures { IfOk result (λ value. view value ≡ proposal_data proposal.now) }
{
    let epoch = proposal.round.epoch.0;
    let view = proposal.round.view.0;
    let parent = proposal.parent.0;
    let payload = write_hex(alloc, proposal.payload.0.as_slice())?;
    json!(in alloc; [epoch, view, parent, payload])
}

// The name of a reason.
fn reason_name(reason: TimeoutReason) -> &'static str
    ensures { result.now ≡ reason_name reason }
{
    match reason {
        TimeoutReason::LeaderTimeout => "LeaderTimeout",
        TimeoutReason::CertificationTimeout => "CertificationTimeout",
        TimeoutReason::StallTimeout => "StallTimeout",
        TimeoutReason::LeaderNullify => "LeaderNullify",
        TimeoutReason::Inactivity => "Inactivity",
        TimeoutReason::MissingProposal => "MissingProposal",
        TimeoutReason::IgnoredProposal => "IgnoredProposal",
        TimeoutReason::InvalidProposal => "InvalidProposal",
        TimeoutReason::FailedCertification => "FailedCertification",
    }
}

fn write_timeout(alloc: Global, round: &Round, reason: TimeoutReason) -> Result<Value, AllocError>
    ensures { IfOk result (λ value. view value ≡ timeout_data round.now reason) }
{
    let epoch = round.epoch.0;
    let view = round.view.0;
    let name = reason_name(reason);
    json!(in alloc; [epoch, view, name])
}

/// What a node took, as it is written.
pub(crate) fn write_took(alloc: Global, took: &AuditTook) -> Result<Value, AllocError>
    ensures { IfOk result (λ value. view value ≡ took_data took.now) }
{
    match took {
        AuditTook::Nothing => Ok(Value::Null),
        AuditTook::Packet(at) => {
            let packet = write_ref(alloc, *at)?;
            json!(in alloc; {"packet": packet})
        }
        AuditTook::Proposal(proposal) => {
            let written = write_proposal(alloc, proposal)?;
            json!(in alloc; {"proposal": written})
        }
        AuditTook::Timeout(round, reason) => {
            let timeout = write_timeout(alloc, round, *reason)?;
            json!(in alloc; {"timeout": timeout})
        }
        AuditTook::Certificate(certificate) => {
            let written = certificate.write(alloc)?;
            json!(in alloc; {"certificate": written})
        }
        AuditTook::OtherMail => write_name(alloc, "mail"),
        AuditTook::Request(at, answer) => {
            let request = write_ref(alloc, *at)?;
            let answer = write_answer(alloc, answer)?;
            json!(in alloc; {"answer": answer, "request": request})
        }
        AuditTook::Timer => write_name(alloc, "timer"),
        AuditTook::Floor => write_name(alloc, "floor"),
    }
}
