//! What a faulty member sends.
use simplex_types::{Bytes, Channel, Recipients};

/// A message, where it goes, and to whom.
#[derive(Debug, PartialEq, Eq, Drop)]
pub struct Sent {
    /// The channel that it is sent on.
    pub channel: Channel,
    /// The members that it is for.
    pub recipients: Recipients,
    /// The message as it is sent.
    pub bytes: Bytes,
}
