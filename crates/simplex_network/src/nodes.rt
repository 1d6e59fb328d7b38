//! What a setup says of nodes, views and genesis.
ghost use Rattle.std.specs.Prelude.{◌≡◌, ◌&&◌, ◌-◌, ◌*◌, true, nat_lt, length, IsNone};
ghost use Rattle.std.specs.List.{list_all, slice_get};
ghost use Rattle.simplex_values.specs.Terms.{greatest_view};
ghost use Rattle.simplex_types.specs.Genesis.{genesis_of};
ghost use Rattle.model_run.specs.Kinds as kinds;
ghost use Rattle.model_run.specs.Setups.{first_bad};
ghost use Rattle.law_run.specs.EventForging.{is_impersonator};

use simplex_transcript::{MemberKind, Node, Setup};
use simplex_types::{Digest, Epoch, Participant, View, genesis};

/// The genesis digest of the epoch of this number.
pub(crate) fn genesis_at(epoch: u64) -> Digest
    ensures { result ≡ genesis_of epoch }
{
    genesis(Epoch(epoch))
}

/// Whether the node exists: the first half of a member, or the second of a twin.
pub(crate) fn is_node(setup: &Setup, node: Node) -> bool
    ensures { result ≡ kinds.is_node setup.now node }
{
    node.member < setup.members.len() as u64 && node.half < halves_of(setup, node.member)
}

/// The member whose node it is.
#[tactic(auto, using(crate::proofs::Places::node_small))]
pub(crate) fn member_of(setup: &Setup, node: Node) -> Participant
    requires good { IsNone (first_bad setup.now) }
    requires exists { kinds.is_node setup.now node ≡ true }
    ensures { result ≡ node.member }
{
    Participant(node.member as u32)
}

/// Whether the member and all nodes exist.
pub(crate) fn exist(setup: &Setup, member: u64, nodes: &[Node]) -> bool
    ensures { result ≡ (nat_lt member (length setup.now.members)
        && list_all (kinds.is_node setup.now) nodes.now) }
{
    member < setup.members.len() as u64 && are_nodes(setup, nodes)
}

fn are_nodes(setup: &Setup, nodes: &[Node]) -> bool
    ensures { result ≡ list_all (kinds.is_node setup.now) nodes.now }
{
    nodes.iter().all(|node| is_node(setup, *node))
}

/// Whether an engine at this view is given no more steps and packets.
pub(crate) fn is_at_end(setup: &Setup, view: View) -> bool
    ensures { result ≡ nat_lt (greatest_view - 2 * setup.now.term - setup.now.lookahead) view }
{
    let last = u64::MAX
        .saturating_sub(setup.term)
        .saturating_sub(setup.term)
        .saturating_sub(setup.lookahead);
    last < view.0
}

/// Whether the member is an impersonator.
pub(crate) fn is_impersonator(setup: &Setup, member: u64) -> bool
    ensures { result ≡ kinds.is_of_kind is_impersonator setup.now member }
{
    matches!(kind(setup, member), Some(MemberKind::Impersonator))
}

fn halves_of(setup: &Setup, member: u64) -> u64
    ensures { result ≡ kinds.halves_of setup.now member }
{
    if matches!(kind(setup, member), Some(MemberKind::Twin)) {
        2
    } else {
        1
    }
}

// The member's kind, where there is such a member.
fn kind(setup: &Setup, member: u64) -> Option<MemberKind>
    ensures { result ≡ slice_get setup.now.members member }
{
    setup.members.as_slice().get(member as usize).copied()
}
