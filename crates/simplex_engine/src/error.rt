//! Why an engine is not made, and why it does not go on.
ghost use Rattle.std.specs.Prelude.{◌≡◌};
ghost use Rattle.simplex_engine.specs.declared.error.NewError.TheVariants as new_errors;
ghost use Rattle.simplex_engine.specs.declared.error.PollError.TheVariants as poll_errors;

use crate::config::EngineField;
use std::alloc::AllocError;
use thiserror::Error;

/// Why an engine is not made.
#[derive(Clone, Copy, Debug, PartialEq, Eq, Error)]
pub enum NewError {
    /// The item breaks its limit.
    #[error("bad value of {0}")]
    BadConfig(EngineField),
    /// Want of memory.
    #[error("out of memory")]
    Memory,
}

impl From<AllocError> for NewError {
    ghost from_gives = { λ _ e. e ≡ new_errors.Memory };

    fn from(_e: AllocError) -> NewError {
        NewError::Memory
    }
}

/// Why an engine does not go on.
#[derive(Clone, Copy, Debug, PartialEq, Eq, Error)]
pub enum PollError {
    /// An earlier call answered want of memory.
    #[error("failed before")]
    Failed,
    /// It does not run: it was not started, or a step was broken off.
    #[error("the engine does not run")]
    Stopped,
    /// The request is not open, was answered, or is not of the answer's kind.
    #[error("no such request is pending")]
    NotPending,
    /// Want of memory.
    #[error("out of memory")]
    Memory,
}

impl From<AllocError> for PollError {
    ghost from_gives = { λ _ e. e ≡ poll_errors.Memory };

    fn from(_e: AllocError) -> PollError {
        PollError::Memory
    }
}
