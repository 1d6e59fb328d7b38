//! Why a folder was not made or opened.
use std::io;
use thiserror::Error;

/// Why a folder was not made.
#[derive(Debug, Drop, Error)]
pub enum InitError {
    /// The folder has a file `member`, so it was made before. Nothing was changed.
    #[error("the folder is there already")]
    IsMade,
    /// A call of the system failed, or there was no memory for it.
    #[error("{0}")]
    System(io::Error),
}

/// Why a folder was not opened.
#[derive(Debug, Drop, Error)]
pub enum OpenError {
    /// There is no such folder, or it has no file `member`: it was never made, or it was lost. A member whose votes were lost may not
    /// start as if it had none: it would vote twice.
    #[error("there is no folder of a member: make one by init, if this member never ran")]
    IsMissing,
    /// Its file `member` has another text: the folder is another member's, or of another setup.
    #[error("the folder is of another member or another setup")]
    IsForeign,
    /// Another process holds the lock. Two over one folder would vote twice.
    #[error("another process has opened the folder")]
    IsLocked,
    /// A call of the system failed, or there was no memory for it.
    #[error("{0}")]
    System(io::Error),
}

impl From<io::Error> for InitError {
    fn from(error: io::Error) -> InitError {
        InitError::System(error)
    }
}

impl From<io::Error> for OpenError {
    fn from(error: io::Error) -> OpenError {
        OpenError::System(error)
    }
}
