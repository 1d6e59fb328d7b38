//! How a process ends that does not end well.
use simplex_files::{InitError, OpenError};
use simplex_node::NodeError;
use std::alloc::{AllocError, AllocFailed};
use std::io;
use thiserror::Error;

/// How a process ends that does not end well.
#[derive(Debug, Drop, Error)]
pub(crate) enum End {
    /// The words are none that the program takes.
    #[error("bad words")]
    BadWords,
    /// The first line is no setup, or one that no run may have, or has no honest member of this number.
    #[error("the first line is no setup with this member")]
    BadSetup,
    /// Lines could not be read.
    #[error("standard input could not be read")]
    ReadFault,
    /// Lines could not be written.
    #[error("standard output could not be written")]
    WriteFault,
    /// Out of memory.
    #[error("out of memory")]
    Memory,
    /// The folder was made before.
    #[error("{0}")]
    NotMade(InitError),
    /// The folder could not be opened.
    #[error("{0}")]
    NotOpened(OpenError),
    /// The journal failed: of what it holds no more is known than that it is what a crash may leave.
    #[error("the journal failed")]
    Journal,
    /// A member that steps and steps.
    #[error("no end of steps")]
    Busy,
}

impl End {
    /// The status of the process.
    pub(crate) fn status(&self) -> u8 {
        match self {
            End::BadWords => 2,
            End::BadSetup => 3,
            End::ReadFault => 5,
            End::WriteFault => 6,
            End::Memory => 7,
            End::NotMade(_) | End::NotOpened(_) => 8,
            End::Journal => 9,
            End::Busy => 10,
        }
    }
}

impl From<AllocError> for End {
    fn from(_error: AllocError) -> End {
        End::Memory
    }
}

impl<T: Drop> From<AllocFailed<T>> for End {
    fn from(_error: AllocFailed<T>) -> End {
        End::Memory
    }
}

// What is read besides lines: the words.
impl From<io::Error> for End {
    fn from(error: io::Error) -> End {
        if error.kind() == io::ErrorKind::OutOfMemory {
            End::Memory
        } else {
            End::ReadFault
        }
    }
}

impl From<InitError> for End {
    fn from(error: InitError) -> End {
        End::NotMade(error)
    }
}

impl From<OpenError> for End {
    fn from(error: OpenError) -> End {
        End::NotOpened(error)
    }
}

impl From<NodeError> for End {
    fn from(error: NodeError) -> End {
        match error {
            NodeError::Memory => End::Memory,
            NodeError::Journal | NodeError::Stopped => End::Journal,
            NodeError::NotPending | NodeError::ClockGoesBack => End::Busy,
        }
    }
}
