//! Why a member does not do what it is told.
use thiserror::Error;

/// Why a member does not do what it is told.
#[derive(Clone, Copy, Debug, PartialEq, Eq, Error)]
pub enum NodeError {
    /// No open request waits for such an answer: it was dropped or answered, or is of another kind. Nothing changed.
    #[error("no such request is open")]
    NotPending,
    /// The clock would go back. Nothing changed.
    #[error("the clock goes back")]
    ClockGoesBack,
    /// A call of the journal failed. The step was broken off, and what it did before that call stands in the member's output. The member
    /// does nothing from now on: start it again over what the journal holds.
    #[error("the journal failed")]
    Journal,
    /// It does not run: it was not started, or was started before, or its journal failed.
    #[error("the member does not run")]
    Stopped,
    /// Out of memory. The member does nothing from now on.
    #[error("out of memory")]
    Memory,
}
