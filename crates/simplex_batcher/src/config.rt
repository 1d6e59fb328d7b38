//! What a batcher is made with.
use simplex_types::{Epoch, ForwardPolicy, Lookahead, SkipPolicy, View, ViewDelta};

/// What a batcher is made with.
#[derive(Drop)]
pub struct Config<S> {
    /// Verifies votes and certificates, and tells who this member is.
    pub scheme: S,
    /// Whether votes of views below the current one are still made into certificates.
    pub track_historical_votes: bool,
    /// How many views below the last final one are kept.
    pub view_retention: ViewDelta,
    /// Whether a leader that seems to be gone is hinted at.
    pub skip: SkipPolicy,
    /// The epoch whose votes and certificates count.
    pub epoch: Epoch,
    /// How many messages the mailbox holds.
    pub mailbox_size: u32,
    /// How far ahead of the current view the batcher works.
    pub lookahead: Lookahead,
    /// To whom notarized proposals are forwarded.
    pub forward: ForwardPolicy,
    /// The view that is final from the start.
    pub floor: View,
}
