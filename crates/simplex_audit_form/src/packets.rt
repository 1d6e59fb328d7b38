//! Reads and writes packets.
ghost use Rattle.std.specs.Prelude.{◌≡◌, IfOk, Option};
ghost use Rattle.serde_json.specs.View.{view};
ghost use Rattle.simplex_audit_form.specs.Entries.{packet_of, packet_data};

use crate::form::{Form, read_list, write_list};
use crate::pieces::write_hex;
use serde_json::{Value, json};
use simplex_form::{FromData, has_members, text_at};
use simplex_names::{channel_of, channel_word};
use simplex_transcript::{Node, Packet};
use simplex_types::Bytes;
use std::alloc::{AllocError, Global};

fn read_packet(alloc: Global, value: &Value) -> Result<Option<Packet>, AllocError>
    ensures { IfOk result (λ o. o ≡ packet_of (view value.now)) }
{
    if !has_members(value, 4) {
        return Ok(None);
    }
    let Some(part) = value.get("from") else {
        return Ok(None);
    };
    let Some(from) = <Node as Form>::read(alloc, part)? else {
        return Ok(None);
    };
    let Some(name) = text_at(value, "channel") else {
        return Ok(None);
    };
    let Some(channel) = channel_of(name) else {
        return Ok(None);
    };
    let Some(part) = value.get("to") else {
        return Ok(None);
    };
    let Some(to) = read_list::<Node>(alloc, part)? else {
        return Ok(None);
    };
    let Some(part) = value.get("bytes") else {
        return Ok(None);
    };
    let Some(bytes) = Bytes::read(alloc, part)? else {
        return Ok(None);
    };
    Ok(Some(Packet {
        from,
        channel,
        to,
        bytes,
    }))
}

impl Form for Packet {
    ghost of = { packet_of };

    ghost data_of = { packet_data };

    fn read(alloc: Global, value: &Value) -> Result<Option<Packet>, AllocError> {
        read_packet(alloc, value)
    }

    fn write(&self, alloc: Global) -> Result<Value, AllocError> {
        let bytes = write_hex(alloc, self.bytes.as_slice())?;
        let channel = channel_word(self.channel);
        let from = self.from.write(alloc)?;
        let to = write_list(alloc, self.to.as_slice())?;
        json!(in alloc; {"bytes": bytes, "channel": channel, "from": from, "to": to})
    }
}
