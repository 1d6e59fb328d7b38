//! What the entries of a run report, told to a log.
#![tactic(auto, unfolding(crate::specs::Taken::taken_of, law_log::specs::Reports::reported))]

ghost use Rattle.std.specs.Prelude.{◌≡◌, [], ◌∷◌, OnOk, IfOk, filter_map};
ghost use Rattle.std.specs.Option.{option_to_list};
ghost use Rattle.simplex_types.specs.Evidence.{activity_verifies};
ghost use Rattle.model_log.specs.Log.{log_of};
ghost use Rattle.law_log.specs.Reports.{report_in, is_entry_of, reported};
ghost use Rattle.simplex_logs.specs.Taken.{taken_with, taken_of, Takes};

use model_log::{LogEntry, LogError};
use simplex_log::FinalizedLog;
use simplex_messages::Call;
use simplex_transcript::{Entry, Node};
use simplex_types::{Activity, Scheme};
use std::alloc::{AllocError, Global};

/// Tells the log; what clashes is not taken.
fn tell<S: Scheme>(log: &mut FinalizedLog<S>, activity: &Activity) -> Result<(), AllocError>
    ensures { OnOk result (Takes S.verifies S.members log.old log.new
        (λ verifies taken. taken_with verifies taken activity.now)) }
{
    match log.observe(activity) {
        Ok(_) | Err(LogError::Clash { .. }) => Ok(()),
        Err(LogError::Memory) => Err(AllocError),
    }
}

/// Tells the log of the call, where it is a report.
fn tell_call<S: Scheme>(log: &mut FinalizedLog<S>, call: &Call) -> Result<(), AllocError>
    ensures { OnOk result (Takes S.verifies S.members log.old log.new
        (λ verifies taken. taken_of verifies taken (option_to_list (report_in call.now)))) }
{
    match call {
        Call::Report(activity) => tell(log, activity),
        _ => Ok(()),
    }
}

/// Tells the log of the reports among the calls, in order.
fn tell_calls<S: Scheme>(log: &mut FinalizedLog<S>, calls: &[Call]) -> Result<(), AllocError>
    ensures { OnOk result (Takes S.verifies S.members log.old log.new
        (λ verifies taken. taken_of verifies taken (filter_map report_in calls.now))) }
{
    for call in calls {
        tell_call(log, call)?;
    }
    Ok(())
}

/// Whether the entry is of an event of the node.
fn is_entry_of(entry: &Entry, node: Node) -> bool
    ensures { result ≡ is_entry_of node entry.now }
{
    match &entry.who {
        None => false,
        Some(who) => who.member == node.member && who.half == node.half,
    }
}

/// Tells the log of what the entry reports, where it is of the node.
fn tell_entry<S: Scheme>(
    log: &mut FinalizedLog<S>,
    entry: &Entry,
    node: Node,
) -> Result<(), AllocError>
    ensures { OnOk result (Takes S.verifies S.members log.old log.new
        (λ verifies taken. taken_of verifies taken (reported (entry.now ∷ []) node))) }
{
    if is_entry_of(entry, node) {
        tell_calls(log, entry.calls.as_slice())
    } else {
        Ok(())
    }
}

/// The log of what the node reported in the entries, without what clashes.
pub(crate) fn log_of_node<S: Scheme + Drop>(
    alloc: Global,
    scheme: S,
    entries: &[Entry],
    node: Node,
) -> Result<Vec<LogEntry>, AllocError>
    ensures { let verifies = activity_verifies (S.verifies scheme) (S.members scheme) in
        IfOk result (λ log. log.items
        ≡ log_of verifies (taken_of verifies [] (reported entries.now node))) }
{
    let mut log = FinalizedLog::new(alloc, scheme);
    for entry in entries {
        tell_entry(&mut log, entry, node)?;
    }
    Vec::from_slice(alloc, log.entries())
}
