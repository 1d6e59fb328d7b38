//! What an application does in one step.
use simplex_types::{Answer, Sequence};

/// What became of a payload that was to be relayed.
#[derive(Clone, Copy, Debug, PartialEq, Eq)]
pub enum Broadcast {
    /// It was sent.
    Sent,
    /// It was sent before.
    AlreadySent,
    /// Its contents are not known.
    MissingPayload,
}

/// An answer to the request of this number.
#[derive(Clone, Copy, Debug, PartialEq, Eq)]
pub struct Reply {
    /// The request's number.
    pub request: u64,
    /// The answer.
    pub answer: Answer,
}

/// What an application did with one message, or with one payload that was relayed to it.
#[derive(Debug, PartialEq, Eq, Drop)]
pub struct AppStep {
    /// The answers.
    pub replies: Sequence<Reply>,
    /// What became of a payload that was to be relayed.
    pub broadcast: Option<Broadcast>,
    /// Whether there was a message or a payload.
    pub took: bool,
}
