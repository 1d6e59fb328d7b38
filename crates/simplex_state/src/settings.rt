//! What a state was made with, as numbers.
use simplex_values::{Digest, Epoch, Participant, Terms, ViewDelta};

/// What a state was made with, but for its scheme and elector.
#[derive(Clone, Copy, Debug, PartialEq, Eq)]
pub(crate) struct Settings {
    pub(crate) me: Option<Participant>,
    pub(crate) terms: Terms,
    pub(crate) epoch: Epoch,
    pub(crate) view_retention: ViewDelta,
    pub(crate) leader_timeout: u64,
    pub(crate) certification_timeout: u64,
    pub(crate) timeout_retry: u64,
    pub(crate) skip_budget: u64,
    pub(crate) handoff: bool,
    pub(crate) genesis: Digest,
}
