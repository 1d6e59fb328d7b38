//! The nodes of a setup.
ghost use Rattle.std.specs.Prelude.{◌≡◌, ◌++◌, IfOk, OnOk, not};
ghost use Rattle.std.specs.List.{slice_get};
ghost use Rattle.std.specs.Option.{option_map};
ghost use Rattle.model_run.specs.Kinds as kinds;
ghost use Rattle.simplex_scripts.specs.Coming as coming;

use simplex_transcript::{MemberKind, Node, Setup};
use std::alloc::{AllocError, Global};

// The member's kind, where there is such a member.
fn kind_at(setup: &Setup, member: u64) -> Option<&MemberKind>
    ensures { option_map (λ kind. kind.now) result ≡ slice_get setup.now.members member }
{
    setup.members.as_slice().get(member as usize)
}

fn has_engine(kind: &MemberKind) -> bool
    ensures { result ≡ kinds.has_engine kind.now }
{
    matches!(
        kind,
        MemberKind::Honest | MemberKind::Corrupt | MemberKind::Unrecovering | MemberKind::Twin
    )
}

/// Whether the member runs an engine.
pub(crate) fn runs_engine(setup: &Setup, member: u64) -> bool
    ensures { result ≡ kinds.runs_engine setup.now member }
{
    match kind_at(setup, member) {
        None => false,
        Some(kind) => has_engine(kind),
    }
}

fn is_silent(kind: &MemberKind) -> bool
    ensures { result ≡ coming.is_silent kind.now }
{
    matches!(kind, MemberKind::Silent)
}

/// Whether there is such a member, and it is not silent.
pub(crate) fn says_something(setup: &Setup, member: u64) -> bool
    ensures { result ≡ kinds.is_of_kind (λ kind. not (coming.is_silent kind)) setup.now member }
{
    match kind_at(setup, member) {
        None => false,
        Some(kind) => !is_silent(kind),
    }
}

// How many nodes the member has.
fn halves_of(setup: &Setup, member: u64) -> u64
    ensures { result ≡ kinds.halves_of setup.now member }
{
    match kind_at(setup, member) {
        Some(MemberKind::Twin) => 2,
        Some(_) | None => 1,
    }
}

/// Whether the node exists: the first half of a member, or the second of a twin.
pub(crate) fn is_node(setup: &Setup, node: Node) -> bool
    ensures { result ≡ kinds.is_node setup.now node }
{
    node.member < setup.members.len() as u64 && node.half < halves_of(setup, node.member)
}

// The nodes of a member.
fn push_nodes(nodes: &mut Vec<Node>, setup: &Setup, member: u64) -> Result<(), AllocError>
    ensures { OnOk result (nodes.new.items ≡ nodes.old.items ++ kinds.nodes_at setup.now member) }
{
    nodes.push(Node { member, half: 0 })?;
    if halves_of(setup, member) == 2 {
        nodes.push(Node { member, half: 1 })?;
    }
    Ok(())
}

/// The nodes of all members, in order.
#[tactic(auto, using(crate::proofs::Members::nodes_more))]
pub(crate) fn nodes_of(alloc: Global, setup: &Setup) -> Result<Vec<Node>, AllocError>
    ensures { IfOk result (λ nodes. nodes.items ≡ coming.nodes_of setup.now) }
{
    let mut nodes = Vec::new(alloc);
    for member in 0..setup.members.len() as u64 {
        push_nodes(&mut nodes, setup, member)?;
    }
    Ok(nodes)
}
