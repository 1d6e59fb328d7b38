//! Why the program has no chains to write.
ghost use Rattle.std.specs.Prelude.{◌≡◌, Some, None, IfOk, string_bytes, ◌∷◌, [], codes, decimal};
ghost use Rattle.model_epochs.specs.declared.chain.EpochError.TheVariants as errors;
ghost use Rattle.simplex_text.specs.Lines.{pieces};
ghost use Rattle.simplex_epochs.specs.Reasons.{reason_of, reason_status, reason_text as text_of_reason, refused_line};

use model_epochs::EpochError;
use simplex_front::Reason;
use simplex_text::error_name;
use simplex_transcript::Refusal;
use std::alloc::{AllocError, Global};

/// Why epochs have no runs, but for want of memory. Places count from 0.
#[derive(Debug, PartialEq, Eq, Drop)]
pub enum ChainReason {
    /// The epoch's number is not one more than the one before. Status 8.
    WrongEpoch { place: u64 },
    /// The run of the epoch was refused. Status 9.
    Run { place: u64, refusal: Refusal },
    /// Another epoch is given, and no log of this one is long enough: the longest has `found` entries. Status 10.
    Open { place: u64, found: u64 },
}

impl Reason for ChainReason {
    ghost status_of = { λ reason. reason_status reason };

    fn status(&self) -> u8 {
        match self {
            ChainReason::WrongEpoch { .. } => 8,
            ChainReason::Run { .. } => 9,
            ChainReason::Open { .. } => 10,
        }
    }
}

/// The reason that an error is, where it is not want of memory.
pub(crate) fn reason_of(error: EpochError) -> Option<ChainReason>
    ensures { result ≡ reason_of error }
{
    match error {
        EpochError::WrongEpoch { place } => Some(ChainReason::WrongEpoch { place }),
        EpochError::Run { place, refusal } => Some(ChainReason::Run { place, refusal }),
        EpochError::Open { place, found } => Some(ChainReason::Open { place, found }),
        EpochError::Memory => None,
    }
}

fn refused(alloc: Global, name: &str, event: u64, place: u64) -> Result<String, AllocError>
    ensures { IfOk result (λ text. string_bytes text ≡ refused_line name.now event place) }
{
    format!(in alloc; "refused {name} at {event} in {place}\n")
}

/// The line on a reason.
pub(crate) fn reason_text(alloc: Global, reason: &ChainReason) -> Result<String, AllocError>
    ensures { IfOk result (λ text. string_bytes text ≡ text_of_reason reason.now) }
{
    match reason {
        ChainReason::WrongEpoch { place } => format!(in alloc; "wrong epoch at {place}\n"),
        ChainReason::Run { place, refusal } => {
            let name = error_name(alloc, &refusal.error)?;
            refused(alloc, name.as_str(), refusal.event, *place)
        }
        ChainReason::Open { place, .. } => format!(in alloc; "open at {place}\n"),
    }
}
