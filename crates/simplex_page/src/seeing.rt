//! What there is to see of an input.
use crate::listing::lists;
use simplex_audits::{AuditTask, AuditWork};
use simplex_form::read_input;
use simplex_front::{Answer, Work};
use simplex_lab::{LabReason, LabWork, Word};
use simplex_writer::write_input;
use std::alloc::{AllocError, Global};

/// What there is to see of an input.
#[derive(Drop)]
pub enum Seen {
    /// The record of its run, or of the events before the refused one, with the lines of the trace.
    Record(String),
    /// Nothing ran: this is said on it.
    Nothing(String),
    /// The input is not of the form at this place.
    BadInput { place: u64 },
}

// A record with these members more.
fn with_members(alloc: Global, record: &str, members: &str) -> Result<String, AllocError> {
    let record = record.trim_end();
    let mut text = String::from_str(alloc, record.strip_suffix('}').unwrap_or(record))?;
    text.push_str(",")?;
    text.push_str(members)?;
    text.push_str("}\n")?;
    Ok(text)
}

// The record of the run of these bytes, with the first lines of a trace.
fn record_with(alloc: Global, bytes: Vec<u8>, trace: &str, shown: u64) -> Result<Seen, AllocError> {
    match AuditWork.work(alloc, AuditTask::Record, bytes)? {
        Answer::Done { text, .. } => {
            let members = lists(alloc, trace, shown)?;
            let record = with_members(alloc, text.as_str(), members.as_str())?;
            Ok(Seen::Record(record))
        }
        Answer::Refused { text, .. } => Ok(Seen::Nothing(text)),
        Answer::BadInput { place } => Ok(Seen::BadInput { place }),
    }
}

// The record of the events before the refused one, if there are any.
fn record_before(
    alloc: Global,
    bytes: &[u8],
    event: u64,
    trace: String,
) -> Result<Seen, AllocError> {
    let shown = event.saturating_sub(1);
    let input = match read_input(alloc, bytes)? {
        Ok(input) => input,
        Err(place) => return Ok(Seen::BadInput { place }),
    };
    let events = usize::try_from(shown).ok();
    let Some(before) = events.and_then(|n| input.events.as_slice().get(..n)) else {
        return Ok(Seen::Nothing(trace));
    };
    if event == 0 {
        return Ok(Seen::Nothing(trace));
    }
    let text = write_input(alloc, &input.setup, before)?;
    record_with(alloc, text.as_bytes().to_vec(alloc)?, trace.as_str(), shown)
}

/// What there is to see of an input: the record of its run, in which members `lines` and `refused` have the lines of its trace.
pub fn look_at(alloc: Global, bytes: &[u8]) -> Result<Seen, AllocError> {
    match LabWork.work(alloc, Word::Trace, bytes.to_vec(alloc)?)? {
        Answer::Done { text, .. } => {
            record_with(alloc, bytes.to_vec(alloc)?, text.as_str(), u64::MAX)
        }
        Answer::Refused { reason, text } => match reason {
            LabReason::Refused(refusal) => record_before(alloc, bytes, refusal.event, text),
            _ => Ok(Seen::Nothing(text)),
        },
        Answer::BadInput { place } => Ok(Seen::BadInput { place }),
    }
}
