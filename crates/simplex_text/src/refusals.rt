//! The text of a refusal.
ghost use Rattle.std.specs.Prelude.{◌≡◌, IfOk, string_bytes};
ghost use Rattle.simplex_text.specs.Refusals.{error_name as name_of_error, refused_line};
ghost use Rattle.simplex_text.specs.Refusals.{refusal_text as text_of_refusal};

use simplex_transcript::{Refusal, RunError};
use std::alloc::{AllocError, Global};

/// The name of a cause, with that of the item of the setup, if it is one.
pub fn error_name(alloc: Global, error: &RunError) -> Result<String, AllocError>
    ensures { IfOk result (λ text. string_bytes text ≡ name_of_error error.now) }
{
    match error {
        RunError::BadSetup(field) => format!(in alloc; "BadSetup:{field}"),
        RunError::NoMember => String::from_str(alloc, "NoMember"),
        RunError::NotRunning => String::from_str(alloc, "NotRunning"),
        RunError::NotStopped => String::from_str(alloc, "NotStopped"),
        RunError::NoPacket => String::from_str(alloc, "NoPacket"),
        RunError::NotPending => String::from_str(alloc, "NotPending"),
        RunError::NotFaulty => String::from_str(alloc, "NotFaulty"),
        RunError::ForeignFloor => String::from_str(alloc, "ForeignFloor"),
        RunError::ClockEnd => String::from_str(alloc, "ClockEnd"),
        RunError::ViewEnd => String::from_str(alloc, "ViewEnd"),
        RunError::Forged { .. } => String::from_str(alloc, "Forged"),
        RunError::Failed => String::from_str(alloc, "Failed"),
        RunError::Memory => String::from_str(alloc, "Memory"),
    }
}

fn refused(alloc: Global, name: &str, event: u64) -> Result<String, AllocError>
    ensures { IfOk result (λ text. string_bytes text ≡ refused_line name.now event) }
{
    format!(in alloc; "refused {name} at {event}\n")
}

/// The line on a refusal: its cause, and its event, which is 0 for the setup.
pub fn refusal_text(alloc: Global, refusal: &Refusal) -> Result<String, AllocError>
    ensures { IfOk result (λ text. string_bytes text ≡ text_of_refusal refusal.now) }
{
    let name = error_name(alloc, &refusal.error)?;
    refused(alloc, name.as_str(), refusal.event)
}
