//! The program that makes the record of a run, or judges one.
ghost use Rattle.std.specs.Prelude.{◌≡◌, ◌⊎◌, ℕ, List, IfOk};
ghost use Rattle.simplex_transcript.specs.declared.refusal.Refusal.{Refusal};
ghost use Rattle.simplex_io.specs.Io.{Adds, AddsPart, Rose};
ghost use Rattle.simplex_front.specs.Answer.{IsAnswer};
ghost use Rattle.simplex_front.specs.Cause.{Cause, IsCut};
ghost use Rattle.simplex_front.specs.declared.exit.Exit.{Exit};
ghost use Rattle.simplex_front.specs.declared.exit.Exit.TheVariants as exits;
ghost use Rattle.simplex_audits.specs.declared.work.AuditDone.{AuditDone};
ghost use Rattle.simplex_audits.specs.declared.work.AuditTask.TheVariants as tasks;
ghost use Rattle.simplex_audits.specs.Asking.{DoneSays, MisreadSays, RefusedSays, asks_for, usage};
ghost use Rattle.simplex_audits.specs.Checks.{CheckSays, IsNoDocument, NothingRefused};
ghost use Rattle.simplex_audits.specs.Says.{IsMisread, RecordSays, RefusalSays};

use crate::checking::check;
use crate::recording::{RecordDone, record};
use model_audit::Verdict;
use simplex_front::{Answer, Exit, Work, is_word, program};
use simplex_io::{Sink, Source};
use simplex_transcript::Refusal;
use std::alloc::{AllocError, Global};

const USAGE: &str = "usage: record | check\n";

/// What words ask for.
#[derive(Clone, Copy, Debug, PartialEq, Eq)]
pub enum AuditTask {
    /// The record of a run.
    Record,
    /// The verdict on a record.
    Check,
}

/// What comes of it.
#[derive(Drop)]
pub enum AuditDone {
    /// A whole run, and its record.
    Recorded(RecordDone),
    /// The verdict on a record.
    Checked(Verdict),
}

/// Runs the events of an input and writes the record of what came of them, or judges a record.
pub struct AuditWork;

// What a record comes to.
fn as_recorded(answer: Answer<RecordDone, Refusal>) -> Answer<AuditDone, Refusal>
    ensures { (bytes : List ℕ) → IsAnswer (RecordSays bytes) (RefusalSays bytes) (IsMisread bytes) answer
        → IsAnswer (DoneSays tasks.Record bytes) (RefusedSays tasks.Record bytes)
        (MisreadSays tasks.Record bytes) result }
{
    match answer {
        Answer::Done { done, text } => Answer::Done {
            done: AuditDone::Recorded(done),
            text,
        },
        Answer::Refused { reason, text } => Answer::Refused { reason, text },
        Answer::BadInput { place } => Answer::BadInput { place },
    }
}

// What a verdict comes to.
fn as_checked(answer: Answer<Verdict, Refusal>) -> Answer<AuditDone, Refusal>
    ensures { (bytes : List ℕ) → IsAnswer (CheckSays bytes) NothingRefused (IsNoDocument bytes) answer
        → IsAnswer (DoneSays tasks.Check bytes) (RefusedSays tasks.Check bytes)
        (MisreadSays tasks.Check bytes) result }
{
    match answer {
        Answer::Done { done, text } => Answer::Done {
            done: AuditDone::Checked(done),
            text,
        },
        Answer::Refused { reason, text } => Answer::Refused { reason, text },
        Answer::BadInput { place } => Answer::BadInput { place },
    }
}

// The record of the run of the input that the bytes say.
fn make_record(alloc: Global, bytes: &[u8]) -> Result<Answer<AuditDone, Refusal>, AllocError>
    ensures { IfOk result (IsAnswer (DoneSays tasks.Record bytes.now)
        (RefusedSays tasks.Record bytes.now) (MisreadSays tasks.Record bytes.now)) }
{
    let answer = record(alloc, bytes)?;
    Ok(as_recorded(answer))
}

// The verdict on the record that the bytes say.
fn judge_record(alloc: Global, bytes: &[u8]) -> Result<Answer<AuditDone, Refusal>, AllocError>
    ensures { IfOk result (IsAnswer (DoneSays tasks.Check bytes.now)
        (RefusedSays tasks.Check bytes.now) (MisreadSays tasks.Check bytes.now)) }
{
    let answer = check(alloc, bytes)?;
    Ok(as_checked(answer))
}

impl Work<AuditTask, AuditDone, Refusal> for AuditWork {
    ghost asked = { λ work. asks_for };

    ghost usage_line = { λ work. usage };

    ghost does = { λ work task. DoneSays task };

    ghost refuses = { λ work task. RefusedSays task };

    ghost misreads = { λ work task. MisreadSays task };

    fn ask(&self, alloc: Global, words: &[String]) -> Result<Option<AuditTask>, AllocError> {
        let _alloc = alloc;
        if is_word(words, "record") {
            return Ok(Some(AuditTask::Record));
        }
        if is_word(words, "check") {
            return Ok(Some(AuditTask::Check));
        }
        Ok(None)
    }

    fn usage(&self) -> &str {
        USAGE
    }

    fn work(
        &self,
        alloc: Global,
        ask: AuditTask,
        bytes: Vec<u8>,
    ) -> Result<Answer<AuditDone, Refusal>, AllocError> {
        match ask {
            AuditTask::Record => make_record(alloc, &bytes),
            AuditTask::Check => judge_record(alloc, &bytes),
        }
    }
}

/// Where the word is `record` alone, reads the source to its end, runs the events that it says, and writes one JSON object: the
/// setup and the events as they were read, and the record of the transcript. Where it is `check` alone, reads such an object, and
/// writes one line, the verdict on its record.
pub fn audit_program<S: Source, K: Sink>(
    alloc: Global,
    words: &[String],
    source: &mut S,
    sink: &mut K,
) -> Exit<AuditDone, Refusal>
    // A write fault comes only where a count of faults rose.
    ensures write_fault { result ≡ exits.WriteFault
        → Rose (K.fault_count sink.old) (K.fault_count sink.new) }

    // What is written is the text of the exit, or where writing or memory failed the first part of the text of an exit that
    // had its cause. Of a whole run this is its record, in which no fault is found, and of a record the verdict on it.
    ensures part { (exit : Exit AuditDone Refusal) × ((text : List ℕ)
        × (Cause usage DoneSays RefusedSays MisreadSays (asks_for words.now)
        (S.left source.old) (S.left source.new) (S.fault_count source.old)
        (S.fault_count source.new) exit text
        × AddsPart (K.written sink.old) text (K.written sink.new)
        × (((result ≡ exit)
        × Adds (K.written sink.old) text (K.written sink.new)) ⊎ IsCut result))) }
{
    program(alloc, &AuditWork, words, source, sink)
}
