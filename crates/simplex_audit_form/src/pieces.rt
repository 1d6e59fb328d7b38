//! Reads and writes what entries are made of.
ghost use Rattle.std.specs.Prelude.{◌≡◌, IfOk};
ghost use Rattle.serde_json.specs.Data.{string};
ghost use Rattle.serde_json.specs.View.{view};
ghost use Rattle.simplex_form.specs.Form.{made, number_of};
ghost use Rattle.simplex_form.specs.Events.{node_of};
ghost use Rattle.simplex_wire.specs.Format.{whole};
ghost use Rattle.simplex_wire.specs.Message as format;
ghost use Rattle.simplex_audit_form.specs.Pieces.{round_of, certificate_of, number_data, hex_data, node_data, ref_data, round_data, certificate_data};

use crate::form::Form;
use serde_json::{Value, json};
use simplex_form::{FromData, has_items};
use simplex_transcript::{Node, Ref};
use simplex_types::{Bytes, Certificate, DecodeError, Epoch, Round, View};
use std::alloc::{AllocError, Global};

/// A round of an epoch.
pub(crate) fn read_round(value: &Value) -> Option<Round>
    ensures { result ≡ round_of (view value.now) }
{
    if !has_items(value, 2) {
        return None;
    }
    let epoch = value.get(0usize)?.as_u64()?;
    let view = value.get(1usize)?.as_u64()?;
    Some(Round {
        epoch: Epoch(epoch),
        view: View(view),
    })
}

/// An epoch and a view.
pub(crate) fn write_round(alloc: Global, round: &Round) -> Result<Value, AllocError>
    ensures { IfOk result (λ value. view value ≡ round_data round.now) }
{
    let epoch = round.epoch.0;
    let view = round.view.0;
    json!(in alloc; [epoch, view])
}

/// The event, and a place in its entry.
pub(crate) fn write_ref(alloc: Global, at: Ref) -> Result<Value, AllocError>
    ensures { IfOk result (λ value. view value ≡ ref_data at) }
{
    let event = at.event;
    let place = at.place;
    json!(in alloc; [event, place])
}

/// Bytes in hex.
pub(crate) fn write_hex(alloc: Global, bytes: &[u8]) -> Result<Value, AllocError>
    ensures { IfOk result (λ value. view value ≡ hex_data bytes.now) }
{
    let text = hex::encode(alloc, bytes)?;
    Ok(Value::String(text))
}

/// A text.
pub(crate) fn write_name(alloc: Global, name: &str) -> Result<Value, AllocError>
    ensures { IfOk result (λ value. view value ≡ string name.now) }
{
    Value::try_from_str(alloc, name)
}

fn decode_certificate(alloc: Global, bytes: &[u8]) -> Result<Option<Certificate>, AllocError>
    ensures { IfOk result (λ o. o ≡ made (whole format.certificate bytes.now)) }
{
    match Certificate::decode(alloc, bytes) {
        Ok(certificate) => Ok(Some(certificate)),
        Err(DecodeError::Fault { .. }) => Ok(None),
        Err(DecodeError::Memory) => Err(AllocError),
    }
}

impl Form for Certificate {
    ghost of = { certificate_of };

    ghost data_of = { certificate_data };

    fn read(alloc: Global, value: &Value) -> Result<Option<Certificate>, AllocError> {
        let Some(bytes) = Bytes::read(alloc, value)? else {
            return Ok(None);
        };
        decode_certificate(alloc, bytes.as_slice())
    }

    fn write(&self, alloc: Global) -> Result<Value, AllocError> {
        let bytes = self.encode(alloc)?;
        write_hex(alloc, &bytes)
    }
}

impl Form for Node {
    ghost of = { node_of };

    ghost data_of = { node_data };

    fn read(alloc: Global, value: &Value) -> Result<Option<Node>, AllocError> {
        <Node as FromData>::read(alloc, value)
    }

    fn write(&self, alloc: Global) -> Result<Value, AllocError> {
        let member = self.member;
        let half = self.half;
        json!(in alloc; [member, half])
    }
}

impl Form for u64 {
    ghost of = { number_of };

    ghost data_of = { number_data };

    fn read(_alloc: Global, value: &Value) -> Result<Option<u64>, AllocError> {
        Ok(value.as_u64())
    }

    fn write(&self, alloc: Global) -> Result<Value, AllocError> {
        let number = *self;
        json!(in alloc; number)
    }
}
