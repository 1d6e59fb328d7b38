//! Where a member starts.
use simplex_values::{Digest, Keep};
use simplex_wire::Finalization;
use std::alloc::{AllocError, Global};

/// What a member takes for final when it starts.
#[derive(Debug, PartialEq, Eq, Drop)]
pub enum Floor {
    /// View 0, with its payload.
    Genesis(Digest),
    /// The finalized view.
    Finalized(Finalization),
}

impl Keep for Floor {
    fn keep(&self, alloc: Global) -> Result<Floor, AllocError> {
        match self {
            Floor::Genesis(payload) => Ok(Floor::Genesis(*payload)),
            Floor::Finalized(finalization) => Ok(Floor::Finalized(finalization.keep(alloc)?)),
        }
    }
}
