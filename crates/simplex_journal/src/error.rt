//! Why a journal call did not end well.
ghost use Rattle.std.specs.Prelude.{◌≡◌};
ghost use Rattle.simplex_journal.specs.declared.error.JournalError.TheVariants.{Memory};

use std::alloc::{AllocError, AllocFailed};
use thiserror::Error;

/// Why a journal call was not made.
#[derive(Clone, Copy, Debug, PartialEq, Eq, Error)]
pub enum JournalError {
    /// The journal failed, and its count of faults rose.
    #[error("the journal failed")]
    Failed,
    /// Want of memory. The journal is as it was.
    #[error("out of memory")]
    Memory,
}

impl From<AllocError> for JournalError {
    ghost from_gives = { λ _ e. e ≡ Memory };

    fn from(_e: AllocError) -> JournalError {
        JournalError::Memory
    }
}
