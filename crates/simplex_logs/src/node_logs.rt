//! The logs of a run.
#![tactic(auto, unfolding(crate::specs::NodeLogs::taken_logs))]

ghost use Rattle.std.specs.Prelude.{◌≡◌, ◌<◌, ◌≤◌, ◌++◌, ◌∷◌, [], List, map, length, IfOk, OnOk};
ghost use Rattle.model_run.specs.Kinds.{is_faulty};
ghost use Rattle.simplex_transcript.specs.declared.event.Event.{Event};
ghost use Rattle.law_log.specs.Logs.{honest_from, logs_in};
ghost use Rattle.law_log.specs.Transcripts.{IsTranscript};
ghost use Rattle.simplex_logs.specs.NodeLogs.{taken_log, with_log, taken_logs};

use crate::telling::log_of_node;
use law_log::logs_of_a_whole_run;
use model_log::LogEntry;
use simplex_transcript::{Entry, MemberKind, Node, Setup};
use simplex_types::{Keyed, Sequence};
use std::alloc::{AllocError, Global};

/// An honest member's node, and its log.
pub type NodeLog = (Node, Sequence<LogEntry>);

/// Whether the member is faulty.
fn is_faulty(kind: &MemberKind) -> bool
    ensures { result ≡ is_faulty kind.now }
{
    !matches!(kind, MemberKind::Honest)
}

/// The scheme by which the members' certificates verify.
fn scheme_of(alloc: Global, setup: &Setup) -> Result<Keyed, AllocError>
    requires some { 0 < length setup.now.members }
    requires few { length setup.now.members ≤ 256 }
    ensures { IfOk result (λ scheme. (scheme.key_base ≡ setup.now.key_base)
        × (scheme.participants ≡ length setup.now.members)) }
{
    Keyed::new(alloc, setup.key_base, setup.members.len() as u32, None)
}

/// The log of what the node reported, without what clashes.
fn node_log(
    alloc: Global,
    setup: &Setup,
    entries: &[Entry],
    node: Node,
) -> Result<Vec<LogEntry>, AllocError>
    requires some { 0 < length setup.now.members }
    requires few { length setup.now.members ≤ 256 }
    ensures { IfOk result (λ log. log.items ≡ taken_log setup.now entries.now node) }
{
    let scheme = scheme_of(alloc, setup)?;
    log_of_node(alloc, scheme, entries, node)
}

/// Puts the member's log last, where it is honest.
fn add_log(
    alloc: Global,
    setup: &Setup,
    entries: &[Entry],
    logs: &mut Sequence<NodeLog>,
    member: u64,
    kind: &MemberKind,
) -> Result<(), AllocError>
    requires some { 0 < length setup.now.members }
    requires few { length setup.now.members ≤ 256 }
    ensures { OnOk result (logs.new
        ≡ logs.old ++ map (with_log setup.now entries.now) (honest_from member (kind.now ∷ []))) }
{
    if is_faulty(kind) {
        return Ok(());
    }
    let node = Node { member, half: 0 };
    let log = node_log(alloc, setup, entries, node)?;
    logs.push((node, Sequence::from_vec(log)))
}

/// For each honest member, in rising order, the log of what it reported in the entries, without what clashes.
pub(crate) fn taken_logs(
    alloc: Global,
    setup: &Setup,
    entries: &[Entry],
) -> Result<Sequence<NodeLog>, AllocError>
    requires some { 0 < length setup.now.members }
    requires few { length setup.now.members ≤ 256 }
    ensures { IfOk result (λ logs. logs ≡ taken_logs setup.now entries.now) }
{
    let mut logs = Sequence::new(alloc);
    for (member, kind) in setup.members.as_slice().iter().enumerate() {
        add_log(alloc, setup, entries, &mut logs, member as u64, kind)?;
    }
    Ok(logs)
}

/// For each honest member, in rising order, the log of what its node reported in the entries of a whole run.
pub fn logs(
    alloc: Global,
    setup: &Setup,
    entries: &[Entry],
) -> Result<Sequence<NodeLog>, AllocError>
    requires { (events : List Event) × IsTranscript setup.now events entries.now }
    ensures { IfOk result (λ logs. logs ≡ logs_in setup.now entries.now) }
{
    logs_of_a_whole_run();
    taken_logs(alloc, setup, entries)
}
