//! Reads what names a node, or a packet or request of an earlier event.
ghost use Rattle.std.specs.Prelude.{◌≡◌};
ghost use Rattle.serde_json.specs.View.{view};
ghost use Rattle.simplex_form.specs.Events.{node_of, node_at, ref_of};

use crate::pieces::{FromData, has_items};
use serde_json::Value;
use simplex_transcript::{Node, Ref};
use std::alloc::{AllocError, Global};

fn read_node(value: &Value) -> Option<Node>
    ensures { result ≡ node_of (view value.now) }
{
    if !has_items(value, 2) {
        return None;
    }
    let member = value.get(0usize)?.as_u64()?;
    let half = value.get(1usize)?.as_u64()?;
    Some(Node { member, half })
}

impl FromData for Node {
    ghost of = { node_of };

    fn read(_alloc: Global, value: &Value) -> Result<Option<Node>, AllocError> {
        Ok(read_node(value))
    }
}

// The node of an event.
pub fn node_at(value: &Value) -> Option<Node>
    ensures { result ≡ node_at (view value.now) }
{
    read_node(value.get("node")?)
}

/// What names a packet or a request.
pub fn read_ref(value: &Value) -> Option<Ref>
    ensures { result ≡ ref_of (view value.now) }
{
    if !has_items(value, 2) {
        return None;
    }
    let event = value.get(0usize)?.as_u64()?;
    let place = value.get(1usize)?.as_u64()?;
    Some(Ref { event, place })
}
