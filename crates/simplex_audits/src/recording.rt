//! The record of a run, and its text.
ghost use Rattle.std.specs.Prelude.{◌≡◌, IfOk, Ok, Err, string_bytes};
ghost use Rattle.serde_json.specs.View.{view};
ghost use Rattle.simplex_transcript.specs.declared.refusal.Refusal.{Refusal};
ghost use Rattle.simplex_text.specs.Refusals.{refusal_text};
ghost use Rattle.simplex_form.specs.Input.{json_of};
ghost use Rattle.model_run.specs.Setting.{at_epoch_genesis};
ghost use Rattle.model_run.specs.Run.{Run};
ghost use Rattle.simplex_run.specs.WholeRuns.{WholeRunFrom};
ghost use Rattle.simplex_front.specs.Answer.{IsAnswer};
ghost use Rattle.simplex_audit_form.specs.Document.{document_data};
ghost use Rattle.simplex_audits.specs.Says.{IsMisread, IsRecorded, IsRefused, IsWritten, RecordSays, RefusalSays, Told};
ghost use Rattle.simplex_audits.specs.Parts.{PartsIn};

use model_audit::AuditEntry;
use serde_json::Value;
use simplex_audit::record_of;
use simplex_audit_form::document_value;
use simplex_form::{Input, InputFault, read_input, read_value};
use simplex_front::Answer;
use simplex_run::{Transcript, run_network};
use simplex_text::refusal_text;
use simplex_transcript::{Refusal, RunError};
use simplex_types::Sequence;
use std::alloc::{AllocError, Global};

/// What comes of a whole run.
#[derive(Drop)]
pub struct RecordDone {
    /// The run.
    pub transcript: Transcript,
    /// Its record.
    pub entries: Sequence<AuditEntry>,
}

// A setup and events as they were read.
#[derive(Drop)]
struct Parts {
    setup: Value,
    events: Value,
}

// The parts of the value that the bytes are, or the place of what is not of the form.
#[tactic(auto, using(crate::proofs::Recorded::no_setup, crate::proofs::Recorded::no_events, crate::proofs::Recorded::parts_are))]
fn parts_in(alloc: Global, bytes: &[u8]) -> Result<Result<Parts, u64>, AllocError>
    ensures { IfOk result (PartsIn (json_of bytes.now)) }
{
    let value = match read_value(alloc, bytes) {
        Ok(value) => value,
        Err(InputFault::At(place)) => return Ok(Err(place)),
        Err(InputFault::Memory) => return Err(AllocError),
    };
    let Some(setup) = value.get("setup") else {
        return Ok(Err(1));
    };
    let Some(events) = value.get("events") else {
        return Ok(Err(1));
    };
    Ok(Ok(Parts {
        setup: setup.clone()?,
        events: events.clone()?,
    }))
}

// The text of a record over the setup and the events.
#[tactic(auto, using(crate::proofs::Recorded::is_written))]
fn write(alloc: Global, parts: Parts, record: &[AuditEntry]) -> Result<String, AllocError>
    ensures { IfOk result (λ text. IsWritten
        (document_data (view parts.setup) (view parts.events) record.now) (string_bytes text)) }
{
    let value = document_value(alloc, parts.setup, parts.events, record)?;
    value.to_string(alloc)
}

// The record of a whole run of the input.
#[tactic(auto, using(crate::proofs::Recorded::is_recorded))]
fn recorded(alloc: Global, input: &Input, transcript: Transcript) -> Result<RecordDone, AllocError>
    requires { WholeRunFrom (at_epoch_genesis input.now.setup) input.now.events transcript }
    ensures { IfOk result (IsRecorded input.now) }
{
    let record = record_of(alloc, transcript.entries.as_slice())?;
    Ok(RecordDone {
        transcript,
        entries: Sequence::from_vec(record),
    })
}

// The record of a whole run of the input that the bytes say, and its text.
#[tactic(auto, using(crate::proofs::Recorded::is_told))]
fn tell(
    alloc: Global,
    bytes: &[u8],
    input: &Input,
    transcript: Transcript,
) -> Result<Answer<RecordDone, Refusal>, AllocError>
    requires { WholeRunFrom (at_epoch_genesis input.now.setup) input.now.events transcript }
    ensures { IfOk result (IsAnswer (Told bytes.now input.now) (IsRefused input.now)
        (IsMisread bytes.now)) }
{
    match parts_in(alloc, bytes)? {
        Err(place) => Ok(Answer::BadInput { place }),
        Ok(parts) => {
            let done = recorded(alloc, input, transcript)?;
            let text = write(alloc, parts, done.entries.as_slice())?;
            Ok(Answer::Done { done, text })
        }
    }
}

// The line on a refusal, which is not want of memory.
fn refuse(
    alloc: Global,
    bytes: &[u8],
    input: &Input,
    refusal: Refusal,
) -> Result<Answer<RecordDone, Refusal>, AllocError>
    requires { Run input.now.setup input.now.events ≡ Err refusal }
    ensures { IfOk result (IsAnswer (Told bytes.now input.now) (IsRefused input.now)
        (IsMisread bytes.now)) }
{
    let _bytes = bytes;
    let text = refusal_text(alloc, &refusal)?;
    Ok(Answer::Refused {
        reason: refusal,
        text,
    })
}

// What the run of the input comes to that the bytes say.
#[tactic(auto, using(crate::proofs::Recorded::made_whole))]
fn answer(
    alloc: Global,
    bytes: &[u8],
    input: &Input,
) -> Result<Answer<RecordDone, Refusal>, AllocError>
    ensures { IfOk result (IsAnswer (Told bytes.now input.now) (IsRefused input.now)
        (IsMisread bytes.now)) }
{
    match run_network(alloc, &input.setup, input.events.as_slice()) {
        Ok(transcript) => tell(alloc, bytes, input, transcript),
        Err(refusal) => {
            if matches!(refusal.error, RunError::Memory) {
                return Err(AllocError);
            }
            refuse(alloc, bytes, input, refusal)
        }
    }
}

/// What the run comes to of the input that the bytes say.
pub(crate) fn record(alloc: Global, bytes: &[u8]) -> Result<Answer<RecordDone, Refusal>, AllocError>
    ensures { IfOk result (IsAnswer (RecordSays bytes.now) (RefusalSays bytes.now)
        (IsMisread bytes.now)) }
{
    match read_input(alloc, bytes)? {
        Err(place) => Ok(Answer::BadInput { place }),
        Ok(input) => answer(alloc, bytes, &input),
    }
}
