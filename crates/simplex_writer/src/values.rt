//! Single values: hex, nodes and places.
ghost use Rattle.std.specs.Prelude.{◌≡◌, IfOk, string_bytes};
ghost use Rattle.simplex_writer.specs.Pieces.{quoted, hex_text};
ghost use Rattle.simplex_writer.specs.Events as events;

use crate::list::Written;
use simplex_transcript::{Node, Ref};
use std::alloc::{AllocError, Global};

// A text between quotes. It has no quote in it, and nothing that JSON escapes.
fn quoted(alloc: Global, text: &str) -> Result<String, AllocError>
    ensures { IfOk result (λ it. string_bytes it ≡ quoted text.now) }
{
    format!(in alloc; "\"{text}\"")
}

/// The bytes, two digits each.
pub(crate) fn hex_text(alloc: Global, bytes: &[u8]) -> Result<String, AllocError>
    ensures { IfOk result (λ text. string_bytes text ≡ hex_text bytes.now) }
{
    let digits = hex::encode(alloc, bytes)?;
    quoted(alloc, digits.as_str())
}

/// `[EVENT,PLACE]`.
pub(crate) fn ref_text(alloc: Global, at: &Ref) -> Result<String, AllocError>
    ensures { IfOk result (λ text. string_bytes text ≡ events.ref_text at.now) }
{
    let event = at.event;
    let place = at.place;
    format!(in alloc; "[{event},{place}]")
}

impl Written for Node {
    ghost text_of = { events.node_text };

    // `[MEMBER,HALF]`.
    fn written(&self, alloc: Global) -> Result<String, AllocError> {
        let member = self.member;
        let half = self.half;
        format!(in alloc; "[{member},{half}]")
    }
}
