//! A start reads the journal.
ghost use Rattle.std.specs.Prelude.{◌≡◌, ◌==◌, Some, if◌then◌else◌, IfOk, OnOk, IfSome};
ghost use Rattle.simplex_journal.specs.Journal.{replayed};
ghost use Rattle.simplex_journal.specs.Order.{Order, no_order};
ghost use Rattle.simplex_messages.specs.Step.{no_out};
ghost use Rattle.simplex_voter.specs.Actor.{floor_calls};
ghost use Rattle.simplex_voter.specs.Performing.{Reads, Read, ReadOver, CountsReading, past_reading};

use simplex_journal::{Journal, JournalError};
use simplex_messages::{Call, StepOut, Stop};
use simplex_types::{Activity, Artifact, Floor, Keep};
use std::alloc::{AllocError, Global};

// All records; none where the reading fails.
fn read_records<J: Journal>(
    journal: &mut J,
    alloc: Global,
) -> Result<Option<Vec<Artifact>>, AllocError>
    ensures told { IfOk result (λ records. (order : Order) → J.order journal.old ≡ Some order
        → Reads order (J.sections journal.old) records (J.order journal.new)) }
    ensures over { IfOk result (λ records. IfSome records
        (λ r. r.items ≡ replayed (J.sections journal.old))) }
    ensures stays { J.sections journal.new ≡ J.sections journal.old }
    ensures faults { IfOk result
        (λ records. CountsReading records (J.fault_count journal.old) (J.fault_count journal.new)) }
{
    match journal.replay(alloc) {
        Ok(records) => Ok(Some(records)),
        Err(JournalError::Failed) => Ok(None),
        Err(JournalError::Memory) => Err(AllocError),
    }
}

// The reading is a journal's first call: 1 where it is the call of this number, else 0.
fn reading_of(call: u64) -> u64
    ensures { result ≡ (if call == 1 then 1 else 0) }
{
    if call == 1 { 1 } else { 0 }
}

// All records, of a reading that fails where it is the call of this number: then so many pending records of each
// section stay.
fn read_failing<J: Journal>(
    journal: &mut J,
    alloc: Global,
    call: u64,
    keep: u64,
) -> Result<Option<Vec<Artifact>>, AllocError>
    ensures told { IfOk result (λ records. J.order journal.old ≡ Some no_order → Read (Stop.Fail call keep)
        (J.sections journal.old) records (J.sections journal.new) (J.order journal.new)) }
    ensures over { IfOk result (λ records. ReadOver (Stop.Fail call keep)
        (J.sections journal.old) records (J.sections journal.new)) }
    ensures faults { IfOk result
        (λ records. CountsReading records (J.fault_count journal.old) (J.fault_count journal.new)) }
{
    journal.fail_next(reading_of(call), keep);
    let records = read_records(journal, alloc)?;
    if records.is_none() {
        journal.crash(keep);
    }
    journal.fail_next(0, 0);
    Ok(records)
}

/// All records, unless the reading fails. Where the stop lets a call fail, the journal is then as after a stop.
pub(crate) fn read<J: Journal>(
    journal: &mut J,
    alloc: Global,
    stop: &Stop,
) -> Result<Option<Vec<Artifact>>, AllocError>
    ensures told { IfOk result (λ records. J.order journal.old ≡ Some no_order
        → Read stop.now (J.sections journal.old) records (J.sections journal.new)
        (J.order journal.new)) }
    ensures over { IfOk result
        (λ records. ReadOver stop.now (J.sections journal.old) records (J.sections journal.new)) }
    ensures faults { IfOk result
        (λ records. CountsReading records (J.fault_count journal.old) (J.fault_count journal.new)) }
{
    match stop {
        Stop::None => {
            let records = read_records(journal, alloc)?;
            Ok(records)
        }
        Stop::Cut { .. } => {
            let records = read_records(journal, alloc)?;
            Ok(records)
        }
        Stop::Fail { call, keep } => {
            let records = read_failing(journal, alloc, *call, *keep)?;
            Ok(records)
        }
    }
}

/// The stop, once the journal was read: the reading was the journal's first call.
pub(crate) fn past_reading(stop: &Stop) -> Stop
    ensures { result ≡ past_reading stop.now }
{
    match *stop {
        Stop::Fail { call, keep } => Stop::Fail {
            call: call.saturating_sub(1),
            keep,
        },
        other => other,
    }
}

/// The calls of a start before it reads the journal are listed.
pub(crate) fn list_floor(out: &mut StepOut, floor: &Floor, alloc: Global) -> Result<(), AllocError>
    requires empty { out.old ≡ no_out }
    ensures { OnOk result (out.new ≡ record no_out { calls = floor_calls floor.now }) }
{
    if let Floor::Finalized(finalization) = floor {
        let reported = finalization.keep(alloc)?;
        out.calls
            .push(Call::Report(Activity::Finalization(reported)))?;
    }
    Ok(())
}
