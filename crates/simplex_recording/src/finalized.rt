//! Finalizations of a view.
use simplex_wire::Finalization;

/// The first finalization of a view, and how many there were.
#[derive(Debug, Drop)]
pub(crate) struct Finalized {
    pub first: Finalization,
    pub count: u64,
}
