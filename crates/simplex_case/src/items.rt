//! What stands at a place of the entries of a record.
#![tactic(auto, unfolding(crate::specs::Items::listed_at))]

ghost use Rattle.std.specs.Prelude.{◌≡◌, ◌-◌, ◌==◌, None, if◌then◌else◌};
ghost use Rattle.std.specs.List.{list_any, slice_get};
ghost use Rattle.std.specs.Option.{option_and_then, option_map, is_some};
ghost use Rattle.model_run.specs.Kinds.{is_same_node};
ghost use Rattle.model_run.specs.Requests.{if_for};
ghost use Rattle.simplex_case.specs.Items.{asked_listed, packet_listed};

use model_audit::AuditEntry;
use model_rules::Asked;
use simplex_transcript::{Node, Packet, Ref};

// The entry of the event of this number, which is counted from 1.
fn entry_at(prior: &[AuditEntry], event: u64) -> Option<&AuditEntry>
    ensures { option_map (λ entry. entry.now) result ≡ (if event == 0 then None
        else slice_get prior.now (event - 1)) }
{
    let place = event.checked_sub(1)?;
    prior.get(place as usize)
}

// The packet at this place.
fn packet_at(prior: &[AuditEntry], at: Ref) -> Option<&Packet>
    ensures { option_map (λ packet. packet.now) result ≡ packet_listed prior.now at }
{
    let entry = entry_at(prior, at.event)?;
    entry.packets.as_slice().get(at.place as usize)
}

/// Whether there is a packet at this place that may be delivered to the node.
pub(crate) fn has_packet_for(prior: &[AuditEntry], node: Node, at: Ref) -> bool
    ensures { result ≡ is_some (option_and_then (if_for node) (packet_listed prior.now at)) }
{
    match packet_at(prior, at) {
        None => false,
        Some(packet) => is_for(node, packet.to.as_slice()),
    }
}

/// The request at this place of the entries.
pub fn asked_at(prior: &[AuditEntry], at: Ref) -> Option<&Asked>
    ensures { option_map (λ asked. asked.now) result ≡ asked_listed prior.now at }
{
    let entry = entry_at(prior, at.event)?;
    entry.asked.as_slice().get(at.place as usize)
}

// Whether the node is one of these.
fn is_for(node: Node, to: &[Node]) -> bool
    ensures { result ≡ list_any (is_same_node node) to.now }
{
    to.iter().any(|other| *other == node)
}
