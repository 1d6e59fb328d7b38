//! Why a run ends.
ghost use Rattle.std.specs.Prelude.{◌≡◌};
ghost use Rattle.simplex_transcript.specs.declared.refusal.RunError.TheVariants as refusals;

use crate::field::Field;
use simplex_types::Subject;
use std::alloc::AllocError;
use thiserror::Error;

/// Why an event, or a setup, is refused.
#[derive(Clone, Copy, Debug, PartialEq, Eq, Error)]
pub enum RunError {
    /// The item breaks its limit.
    #[error("BadSetup:{0}")]
    BadSetup(Field),
    /// A named node does not exist.
    #[error("NoMember")]
    NoMember,
    /// The node is stopped.
    #[error("NotRunning")]
    NotRunning,
    /// The node runs.
    #[error("NotStopped")]
    NotStopped,
    /// No earlier entry has the packet, or it is not for the node.
    #[error("NoPacket")]
    NoPacket,
    /// The request is not open, was answered, or is not of the answer's kind.
    #[error("NotPending")]
    NotPending,
    /// The member is honest.
    #[error("NotFaulty")]
    NotFaulty,
    /// No honest node reported the finalization.
    #[error("ForeignFloor")]
    ForeignFloor,
    /// The clock would pass 2^63 - 1.
    #[error("ClockEnd")]
    ClockEnd,
    /// The node's current view is too near the greatest view.
    #[error("ViewEnd")]
    ViewEnd,
    /// The bytes hold an honest member's signature on a subject for which it sent no vote.
    #[error("Forged")]
    Forged { member: u64, subject: Subject },
    /// An earlier event answered want of memory.
    #[error("Failed")]
    Failed,
    /// Want of memory.
    #[error("Memory")]
    Memory,
}

impl From<AllocError> for RunError {
    ghost from_gives = { λ _ e. e ≡ refusals.Memory };

    fn from(_e: AllocError) -> RunError {
        RunError::Memory
    }
}

/// Why a run ended, and at which event: 0 for the setup.
#[derive(Clone, Copy, Debug, PartialEq, Eq, Error)]
#[error("refused {error} at {event}")]
pub struct Refusal {
    /// Which condition is not met.
    pub error: RunError,
    /// The number of the event, from 1; 0 for the setup.
    pub event: u64,
}
