//! Why a disk call did not end well.
ghost use Rattle.std.specs.Prelude.{◌≡◌};
ghost use Rattle.simplex_disk.specs.declared.error.DiskError.TheVariants.{Memory};
ghost use Rattle.simplex_disk.specs.Errors.{journal_error};

use simplex_journal::JournalError;
use std::alloc::{AllocError, AllocFailed};
use thiserror::Error;

/// Why a disk call was not made.
#[derive(Clone, Copy, Debug, PartialEq, Eq, Error)]
pub enum DiskError {
    /// The disk failed, and its count of faults rose.
    #[error("the disk failed")]
    Failed,
    /// Want of memory. The disk is as it was.
    #[error("out of memory")]
    Memory,
}

/// Why a journal was not opened. The disk is handed back.
#[derive(Debug, Drop, Error)]
#[error("the journal was not opened: {error}")]
pub struct InitError<D> {
    /// As the call left it.
    pub disk: D,
    /// Why.
    pub error: JournalError,
}

impl From<AllocError> for DiskError {
    ghost from_gives = { λ _ e. e ≡ Memory };

    fn from(_e: AllocError) -> DiskError {
        DiskError::Memory
    }
}

impl<T: Drop> From<AllocFailed<T>> for DiskError {
    ghost from_gives = { λ _ e. e ≡ Memory };

    fn from(_e: AllocFailed<T>) -> DiskError {
        DiskError::Memory
    }
}

impl From<DiskError> for JournalError {
    ghost from_gives = { λ d e. e ≡ journal_error d };

    fn from(e: DiskError) -> JournalError {
        match e {
            DiskError::Failed => JournalError::Failed,
            DiskError::Memory => JournalError::Memory,
        }
    }
}
