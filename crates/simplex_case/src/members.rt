//! What a setup says of its members and nodes.
ghost use Rattle.std.specs.Prelude.{◌≡◌, ◌&&◌, nat_lt, not};
ghost use Rattle.std.specs.List.{list_all, slice_get};
ghost use Rattle.std.specs.Option.{option_map};
ghost use Rattle.model_run.specs.Kinds as kinds;

use simplex_transcript::{MemberKind, Node, Setup};

// The member's kind, where there is such a member.
fn kind_at(setup: &Setup, member: u64) -> Option<&MemberKind>
    ensures { option_map (λ kind. kind.now) result ≡ slice_get setup.now.members member }
{
    setup.members.as_slice().get(member as usize)
}

fn has_engine(kind: &MemberKind) -> bool
    ensures { result ≡ kinds.has_engine kind.now }
{
    matches!(
        kind,
        MemberKind::Honest | MemberKind::Corrupt | MemberKind::Unrecovering | MemberKind::Twin
    )
}

fn is_honest(kind: &MemberKind) -> bool
    ensures { not (kinds.is_faulty kind.now) ≡ result }
{
    matches!(kind, MemberKind::Honest)
}

/// Whether the member runs an engine.
pub fn runs_engine(setup: &Setup, member: u64) -> bool
    ensures { result ≡ kinds.runs_engine setup.now member }
{
    match kind_at(setup, member) {
        None => false,
        Some(kind) => has_engine(kind),
    }
}

/// Whether the member is faulty.
pub(crate) fn is_faulty_member(setup: &Setup, member: u64) -> bool
    ensures { result ≡ kinds.is_faulty_member setup.now member }
{
    match kind_at(setup, member) {
        None => false,
        Some(kind) => !is_honest(kind),
    }
}

/// Whether all members are honest.
pub(crate) fn are_honest(setup: &Setup) -> bool
    ensures { result ≡ kinds.are_honest setup.now }
{
    setup.members.as_slice().iter().all(|kind| is_honest(kind))
}

// How many nodes the member has.
fn halves_of(setup: &Setup, member: u64) -> u64
    ensures { result ≡ kinds.halves_of setup.now member }
{
    match kind_at(setup, member) {
        Some(MemberKind::Twin) => 2,
        Some(_) | None => 1,
    }
}

/// Whether the node exists: the first half of a member, or the second of a twin.
pub fn is_node(setup: &Setup, node: Node) -> bool
    ensures { result ≡ kinds.is_node setup.now node }
{
    node.member < setup.members.len() as u64 && node.half < halves_of(setup, node.member)
}

/// Whether the member and all nodes exist.
pub(crate) fn exist(setup: &Setup, member: u64, nodes: &[Node]) -> bool
    ensures { result ≡ (nat_lt member (kinds.members_of setup.now)
        && list_all (kinds.is_node setup.now) nodes.now) }
{
    member < setup.members.len() as u64 && are_nodes(setup, nodes)
}

fn are_nodes(setup: &Setup, nodes: &[Node]) -> bool
    ensures { result ≡ list_all (kinds.is_node setup.now) nodes.now }
{
    nodes.iter().all(|node| is_node(setup, *node))
}
