//! Reads and writes calls.
ghost use Rattle.std.specs.Prelude.{◌≡◌, IfOk, Option};
ghost use Rattle.serde_json.specs.View.{view};
ghost use Rattle.simplex_form.specs.Form.{made};
ghost use Rattle.simplex_wire.specs.Format.{whole};
ghost use Rattle.simplex_wire.specs.Artifact as format;
ghost use Rattle.simplex_audit_form.specs.Calls.{artifact_of, append_of, send_of, append_call_of, sync_call_of, prune_call_of, send_call_of, report_call_of, valued_call_of, named_call_of, call_of, call_data};
ghost use Rattle.simplex_audit_form.specs.Pieces.{number_data, pair_data, hex_data};
ghost use Rattle.simplex_names.specs.Names.{channel_word};
ghost use Rattle.serde_json.specs.Data.{string};

use crate::form::Form;
use crate::pieces::{write_hex, write_name};
use model_audit::AuditCall;
use serde_json::{Value, json};
use simplex_form::{FromData, has_items, has_members, number_at};
use simplex_names::{channel_of, channel_word};
use simplex_types::{Artifact, Bytes, Certificate, Channel, DecodeError};
use std::alloc::{AllocError, Global};

fn decode_artifact(alloc: Global, bytes: &[u8]) -> Result<Option<Artifact>, AllocError>
    ensures { IfOk result (λ o. o ≡ made (whole format.artifact bytes.now)) }
{
    match Artifact::decode(alloc, bytes) {
        Ok(artifact) => Ok(Some(artifact)),
        Err(DecodeError::Fault { .. }) => Ok(None),
        Err(DecodeError::Memory) => Err(AllocError),
    }
}

fn read_artifact(alloc: Global, value: &Value) -> Result<Option<Artifact>, AllocError>
    ensures { IfOk result (λ o. o ≡ artifact_of (view value.now)) }
{
    let Some(bytes) = Bytes::read(alloc, value)? else {
        return Ok(None);
    };
    decode_artifact(alloc, bytes.as_slice())
}

fn read_append(alloc: Global, value: &Value) -> Result<Option<AuditCall>, AllocError>
    ensures { IfOk result (λ o. o ≡ append_of (view value.now)) }
{
    if !has_items(value, 2) {
        return Ok(None);
    }
    let Some(first) = value.get(0usize) else {
        return Ok(None);
    };
    let Some(section) = first.as_u64() else {
        return Ok(None);
    };
    let Some(second) = value.get(1usize) else {
        return Ok(None);
    };
    let Some(artifact) = read_artifact(alloc, second)? else {
        return Ok(None);
    };
    Ok(Some(AuditCall::Append(section, artifact)))
}

fn read_send(alloc: Global, value: &Value) -> Result<Option<AuditCall>, AllocError>
    ensures { IfOk result (λ o. o ≡ send_of (view value.now)) }
{
    if !has_items(value, 2) {
        return Ok(None);
    }
    let Some(first) = value.get(0usize) else {
        return Ok(None);
    };
    let Some(name) = first.as_str() else {
        return Ok(None);
    };
    let Some(channel) = channel_of(name) else {
        return Ok(None);
    };
    let Some(second) = value.get(1usize) else {
        return Ok(None);
    };
    let Some(bytes) = Bytes::read(alloc, second)? else {
        return Ok(None);
    };
    Ok(Some(AuditCall::Send(channel, bytes)))
}

fn read_append_call(alloc: Global, value: &Value) -> Result<Option<AuditCall>, AllocError>
    ensures { IfOk result (λ o. o ≡ append_call_of (view value.now)) }
{
    match value.get("append") {
        Some(part) => read_append(alloc, part),
        None => Ok(None),
    }
}

fn read_sync_call(value: &Value) -> Option<AuditCall>
    ensures { result ≡ sync_call_of (view value.now) }
{
    let section = number_at(value, "sync")?;
    Some(AuditCall::Sync(section))
}

fn read_prune_call(value: &Value) -> Option<AuditCall>
    ensures { result ≡ prune_call_of (view value.now) }
{
    let least = number_at(value, "prune")?;
    Some(AuditCall::Prune(least))
}

fn read_send_call(alloc: Global, value: &Value) -> Result<Option<AuditCall>, AllocError>
    ensures { IfOk result (λ o. o ≡ send_call_of (view value.now)) }
{
    match value.get("send") {
        Some(part) => read_send(alloc, part),
        None => Ok(None),
    }
}

fn read_report_call(alloc: Global, value: &Value) -> Result<Option<AuditCall>, AllocError>
    ensures { IfOk result (λ o. o ≡ report_call_of (view value.now)) }
{
    let Some(part) = value.get("report") else {
        return Ok(None);
    };
    let Some(certificate) = Certificate::read(alloc, part)? else {
        return Ok(None);
    };
    Ok(Some(AuditCall::Report(certificate)))
}

// An object of one member.
fn read_valued(alloc: Global, value: &Value) -> Result<Option<AuditCall>, AllocError>
    ensures { IfOk result (λ o. o ≡ valued_call_of (view value.now)) }
{
    if !has_members(value, 1) {
        return Ok(None);
    }
    if let Some(append) = read_append_call(alloc, value)? {
        return Ok(Some(append));
    }
    if let Some(sync) = read_sync_call(value) {
        return Ok(Some(sync));
    }
    if let Some(prune) = read_prune_call(value) {
        return Ok(Some(prune));
    }
    if let Some(send) = read_send_call(alloc, value)? {
        return Ok(Some(send));
    }
    read_report_call(alloc, value)
}

fn read_named(name: &str) -> Option<AuditCall>
    ensures { result ≡ named_call_of name.now }
{
    match name {
        "other" => Some(AuditCall::Other),
        _ => None,
    }
}

fn write_append(alloc: Global, section: u64, artifact: &Artifact) -> Result<Value, AllocError>
    ensures { IfOk result (λ value. view value
        ≡ pair_data (number_data section) (hex_data (format.artifact.spelling artifact.now))) }
{
    let bytes = artifact.encode(alloc)?;
    let spelled = write_hex(alloc, &bytes)?;
    json!(in alloc; [section, spelled])
}

fn write_send(alloc: Global, channel: Channel, bytes: &Bytes) -> Result<Value, AllocError>
    ensures { IfOk result (λ value. view value
        ≡ pair_data (string (channel_word channel)) (hex_data bytes.now)) }
{
    let name = channel_word(channel);
    let spelled = write_hex(alloc, bytes.as_slice())?;
    json!(in alloc; [name, spelled])
}

impl Form for AuditCall {
    ghost of = { call_of };

    ghost data_of = { call_data };

    fn read(alloc: Global, value: &Value) -> Result<Option<AuditCall>, AllocError> {
        match value.as_str() {
            Some(name) => Ok(read_named(name)),
            None => read_valued(alloc, value),
        }
    }

    fn write(&self, alloc: Global) -> Result<Value, AllocError> {
        match self {
            AuditCall::Append(section, artifact) => {
                let append = write_append(alloc, *section, artifact)?;
                json!(in alloc; {"append": append})
            }
            AuditCall::Sync(section) => {
                let section = *section;
                json!(in alloc; {"sync": section})
            }
            AuditCall::Prune(least) => {
                let least = *least;
                json!(in alloc; {"prune": least})
            }
            AuditCall::Send(channel, bytes) => {
                let send = write_send(alloc, *channel, bytes)?;
                json!(in alloc; {"send": send})
            }
            AuditCall::Report(certificate) => {
                let report = certificate.write(alloc)?;
                json!(in alloc; {"report": report})
            }
            AuditCall::Other => write_name(alloc, "other"),
        }
    }
}
