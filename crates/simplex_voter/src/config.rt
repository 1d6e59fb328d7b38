//! What a voter is made with.
use simplex_types::{Digest, Epoch, Floor, ViewDelta};

/// What a voter is made with.
#[derive(Drop)]
pub struct Config<S, L> {
    /// Signs for the member.
    pub scheme: S,
    /// Elects the leaders.
    pub elector: L,
    /// The epoch whose votes and certificates count.
    pub epoch: Epoch,
    /// What is final when it starts.
    pub floor: Floor,
    /// How many messages its mailbox has ready.
    pub mailbox_size: u32,
    /// How many milliseconds a view has for its proposal.
    pub leader_timeout: u64,
    /// How many milliseconds a view with a proposal has for its certificate.
    pub certification_timeout: u64,
    /// After how many milliseconds a nullify is repeated.
    pub timeout_retry: u64,
    /// How many views inactivity may skip without finality.
    pub skip_budget: u64,
    /// How many views below the last final one are kept.
    pub view_retention: ViewDelta,
    /// Whether a proposal is prepared for the next term before its parent is certified.
    pub handoff: bool,
    /// The payload of view 0.
    pub genesis: Digest,
}
