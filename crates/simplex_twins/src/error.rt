//! What a script may get wrong.
ghost use Rattle.std.specs.Prelude.{◌≡◌};
ghost use Rattle.simplex_twins.specs.declared.error.TwinsError.TheVariants.{Memory};

use std::alloc::AllocError;
use thiserror::Error;

/// Why a scripted round, or an elector over scripted rounds, is refused.
#[derive(Clone, Copy, Debug, PartialEq, Eq, Error)]
pub enum TwinsError {
    /// No half of a twin talks with the leader.
    #[error("no half talks with the leader")]
    LeaderUnseen,
    /// The leader is no member.
    #[error("the leader is no member")]
    BadLeader,
    /// A half talks with one who is no member.
    #[error("a half talks with one who is no member")]
    BadMask,
    /// Want of memory.
    #[error("out of memory")]
    Memory,
}

impl From<AllocError> for TwinsError {
    ghost from_gives = { λ _ e. e ≡ Memory };

    fn from(_e: AllocError) -> TwinsError {
        TwinsError::Memory
    }
}
