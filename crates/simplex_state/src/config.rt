//! What a state is made with.
use simplex_values::{Digest, Epoch, ViewDelta};

/// What a state is made with.
#[derive(Drop)]
pub struct StateConfig<S, L> {
    /// Signs for the member.
    pub scheme: S,
    /// Elects the leaders.
    pub elector: L,
    /// The epoch of its rounds.
    pub epoch: Epoch,
    /// How many views below the last final one are kept.
    pub view_retention: ViewDelta,
    /// How many milliseconds a view has for its proposal.
    pub leader_timeout: u64,
    /// How many milliseconds a view with a proposal has for its certificate.
    pub certification_timeout: u64,
    /// After how many milliseconds a nullify is repeated.
    pub timeout_retry: u64,
    /// How many views inactivity may skip without finality.
    pub skip_budget: u64,
    /// Whether a proposal is prepared for the next term before its parent is certified.
    pub handoff: bool,
    /// The payload of view 0.
    pub genesis: Digest,
}
