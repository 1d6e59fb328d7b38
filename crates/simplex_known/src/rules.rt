//! What a node is made with.
use simplex_values::{Epoch, Lookahead, ViewDelta};

/// What a node is made with, as far as votes rest on it, but for its signer.
#[derive(Clone, Copy, Debug, PartialEq, Eq)]
pub struct Rules {
    /// The epoch of its rounds.
    pub epoch: Epoch,
    /// How many views a term has, and how far ahead the node works.
    pub lookahead: Lookahead,
    /// How many views below the last final one are kept.
    pub retention: ViewDelta,
}
