//! Verifications that wait.
use simplex_types::{Context, Digest};

/// A verification that waits for the contents of its payload.
#[derive(Clone, Copy, Debug, PartialEq, Eq)]
pub(crate) struct Waiter {
    pub context: Context,
    pub payload: Digest,
    pub request: u64,
}
