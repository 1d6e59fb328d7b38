//! What a journal holds behind an entry.
ghost use Rattle.std.specs.Prelude.{◌≡◌, List, OnOk};
ghost use Rattle.std.specs.List.{filter_map};
ghost use Rattle.simplex_journal.specs.Journal.{crashed};
ghost use Rattle.simplex_messages.specs.declared.call.Call.{Call};
ghost use Rattle.model_steps.specs.Performed as performed;
ghost use Rattle.model_audit.specs.Journal as journal;
ghost use Rattle.model_audit.specs.Rebuilt.{call_for};
ghost use Rattle.simplex_reader.specs.Failing.{ArePrunedBy, failed_at};

use model_audit::AuditEntry;
use simplex_messages::{Outcome, Stop};
use simplex_stored::Stored;
use std::alloc::{AllocError, Global};

/// The prune that the rules make in a step.
#[derive(Clone, Copy, Debug, PartialEq, Eq)]
pub(crate) struct RuledPrune {
    /// Its number among the calls of the journal, from 1.
    pub(crate) number: u64,
    /// The least section that stays.
    pub(crate) least: u64,
}

/// Takes in the calls of an entry, then the one that failed, and then the stop, where the rules make this prune.
pub(crate) fn take_calls(
    stored: &mut Stored,
    alloc: Global,
    entry: &AuditEntry,
    stop: Stop,
    prune: Option<RuledPrune>,
) -> Result<(), AllocError>
    ensures { OnOk result ((ruled : List Call) → ArePrunedBy ruled prune
        → stored.new ≡ journal.sections_behind entry.now.outcome stop ruled
        (filter_map call_for entry.now.calls) stored.old) }
{
    stored.take_calls(alloc, entry.calls.as_slice())?;
    match entry.outcome {
        Outcome::Cut => {
            stored.crash(kept_by(stop));
            Ok(())
        }
        Outcome::Journal => {
            stop_at_failure(stored, stop, prune);
            Ok(())
        }
        Outcome::Done => Ok(()),
        Outcome::Idle => Ok(()),
        Outcome::Refused => Ok(()),
    }
}

// What the call that failed leaves, and then the stop.
fn stop_at_failure(stored: &mut Stored, stop: Stop, prune: Option<RuledPrune>)
    ensures { (ruled : List Call) → ArePrunedBy ruled prune
        → stored.new ≡ crashed (performed.kept_by stop)
        (journal.after_failure stop ruled stored.old) }
{
    fail(stored, stop, prune);
    stored.crash(kept_by(stop));
}

// What the call that failed leaves.
fn fail(stored: &mut Stored, stop: Stop, prune: Option<RuledPrune>)
    ensures { (ruled : List Call) → ArePrunedBy ruled prune
        → stored.new ≡ journal.after_failure stop ruled stored.old }
{
    match stop {
        Stop::None => {}
        Stop::Cut { .. } => {}
        Stop::Fail { call, keep } => fail_at(stored, call, keep, prune),
    }
}

// What the journal's call of this number leaves, which failed.
fn fail_at(stored: &mut Stored, call: u64, keep: u64, prune: Option<RuledPrune>)
    ensures { stored.new ≡ failed_at prune call keep stored.old }
{
    match prune {
        None => {}
        Some(prune) => {
            if prune.number == call {
                stored.prune_first(keep, prune.least);
            }
        }
    }
}

// How many pending records of each section a stop keeps.
fn kept_by(stop: Stop) -> u64
    ensures { result ≡ performed.kept_by stop }
{
    match stop {
        Stop::None => 0,
        Stop::Cut { keep, .. } => keep,
        Stop::Fail { keep, .. } => keep,
    }
}

/// The stop of a start, whose first call reads the journal.
pub(crate) fn behind_reading(stop: Stop) -> Stop
    ensures { result ≡ journal.behind_reading stop }
{
    match stop {
        Stop::None => Stop::None,
        Stop::Cut { call, keep } => Stop::Cut { call, keep },
        Stop::Fail { call, keep } => Stop::Fail {
            call: call.saturating_sub(1),
            keep,
        },
    }
}
