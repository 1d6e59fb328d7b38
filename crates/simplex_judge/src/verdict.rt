//! The verdict on a record.
ghost use Rattle.std.specs.Prelude.{◌≡◌, ◌↔◌, [], List, Ok, IsNone, IfOk};
ghost use Rattle.simplex_transcript.specs.declared.entry.Entry.{Entry};
ghost use Rattle.law_run.specs.Safe.{AgreeAll};
ghost use Rattle.law_run.specs.Fitting.{IsTyped};
ghost use Rattle.law_run.specs.Sayings.{Each};
ghost use Rattle.model_run.specs.Run.{Run};
ghost use Rattle.model_run.specs.Setting.{Setting, at_epoch_genesis};
ghost use Rattle.model_run.specs.Setups as setups;
ghost use Rattle.model_audit.specs.declared.record.Verdict.TheVariants as verdicts;
ghost use Rattle.model_audit.specs.declared.record.Verdict.TheVariants.{Sound};
ghost use Rattle.model_audit.specs.Audit.{audited, judged_from};
ghost use Rattle.model_audit.specs.Holding.{IsSound, all_rebuilt};
ghost use Rattle.model_audit.specs.Record.{record_of};

use crate::judge::Judge;
use law_audit::{records_of_runs_are_sound, sound_records_hold};
use model_audit::{AuditEntry, AuditFault, Verdict};
use simplex_members::{are_few, first_bad};
use simplex_transcript::{Event, Setup};
use std::alloc::{AllocError, Global};

/// The verdict on the record of a run of these events: the least event at which it has a fault, and the first fault there, or that
/// it has none.
pub fn audit(
    alloc: Global,
    setup: &Setup,
    events: &[Event],
    entries: &[AuditEntry],
) -> Result<Verdict, AllocError>
    ensures verdict { IfOk result (λ verdict. verdict
        ≡ audited (at_epoch_genesis setup.now) events.now entries.now) }
    // It is sound exactly where the record has none of the faults, and then no two of its certificates conflict.
    ensures sound { IfOk result (λ verdict. verdict
        ≡ Sound ↔ IsSound (at_epoch_genesis setup.now) events.now entries.now) }
    ensures agrees { IfOk result (λ verdict. verdict ≡ Sound
        → AgreeAll setup.now (all_rebuilt events.now entries.now)) }
    // So is the record of each run whose values keep to their types.
    ensures recorded { IfOk result (λ verdict. (transcript : List Entry) → Run setup.now events.now ≡ Ok transcript → Each IsTyped transcript
        → entries.now ≡ record_of transcript → verdict ≡ Sound) }
{
    sound_records_hold();
    records_of_runs_are_sound();
    verdict_on(alloc, setup, events, entries)
}

// The verdict.
fn verdict_on(
    alloc: Global,
    setup: &Setup,
    events: &[Event],
    entries: &[AuditEntry],
) -> Result<Verdict, AllocError>
    ensures { IfOk result (λ verdict. verdict
        ≡ audited (at_epoch_genesis setup.now) events.now entries.now) }
{
    if !are_few(setup, events) {
        return Ok(fault_at(0, AuditFault::Setup));
    }
    match first_bad(setup) {
        Some(_) => Ok(fault_at(0, AuditFault::Setup)),
        None => judge_all(alloc, setup, events, entries),
    }
}

// The verdict, where the setup keeps its limits.
#[tactic(auto, using(simplex_members::proofs::Good::good))]
fn judge_all(
    alloc: Global,
    setup: &Setup,
    events: &[Event],
    entries: &[AuditEntry],
) -> Result<Verdict, AllocError>
    requires good { IsNone (setups.first_bad setup.now) }
    ensures { IfOk result (λ verdict. (setting : Setting) → setting.setup ≡ setup.now
        → verdict ≡ judged_from setting [] events.now entries.now) }
{
    let mut kept = Judge::new(alloc, setup)?;
    for (place, event) in events.iter().enumerate() {
        let number = place as u64 + 1;
        if place >= entries.len() {
            return Ok(fault_at(number, AuditFault::Entry));
        }
        let fault = kept.judge(alloc, setup, &entries[..place], event, &entries[place])?;
        match fault {
            Some(cause) => return Ok(fault_at(number, cause)),
            None => {}
        }
    }
    if entries.len() > events.len() {
        return Ok(fault_at(events.len() as u64 + 1, AuditFault::Entry));
    }
    Ok(Verdict::Sound)
}

// This fault, at the event of this number.
fn fault_at(event: u64, cause: AuditFault) -> Verdict
    ensures { result ≡ verdicts.Fault event cause }
{
    Verdict::Fault { event, cause }
}
