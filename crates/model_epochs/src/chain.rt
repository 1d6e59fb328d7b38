//! What chains hold, and why epochs do not run.
ghost use Rattle.std.specs.Prelude.{◌≡◌};
ghost use Rattle.model_epochs.specs.declared.chain.EpochError.TheVariants.{Memory};

use model_log::LogEntry;
use simplex_transcript::Refusal;
use simplex_values::Epoch;
use std::alloc::AllocError;

/// A place of a chain: an entry of an epoch's log.
#[derive(Clone, Copy, Debug, PartialEq, Eq)]
pub struct ChainEntry {
    /// The epoch in whose log it stands.
    pub epoch: Epoch,
    /// The entry of that log.
    pub entry: LogEntry,
}

/// Why the epochs have no runs. Places count from 0.
#[derive(Debug, PartialEq, Eq, Drop)]
pub enum EpochError {
    /// The epoch's number is not one more than the one before.
    WrongEpoch { place: u64 },
    /// The run of the epoch was refused.
    Run { place: u64, refusal: Refusal },
    /// Another epoch is given, and no log of this one is long enough: the longest has `found` entries.
    Open { place: u64, found: u64 },
    /// Out of memory.
    Memory,
}

impl From<AllocError> for EpochError {
    ghost from_gives = { λ _ e. e ≡ Memory };

    fn from(_e: AllocError) -> EpochError {
        EpochError::Memory
    }
}
