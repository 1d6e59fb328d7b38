//! What comes to the actors from outside.
use simplex_types::{Answer, Bytes, Channel, Participant};
use simplex_voter::AskKind;

/// A packet of another member.
#[derive(Debug, PartialEq, Eq, Drop)]
pub struct Delivery {
    /// The member that it is from.
    pub sender: Participant,
    /// The channel that it came by.
    pub channel: Channel,
    /// What it says.
    pub bytes: Bytes,
}

/// What comes to the voter.
#[derive(Clone, Copy, Debug, PartialEq, Eq)]
pub enum FeedItem {
    /// The clock is this, in milliseconds, where that is later than the voter's. The voter makes a step of its timer.
    Now(u64),
    /// The application answers the oldest open request of this kind that has no answer.
    Reply(AskKind, Answer),
}
