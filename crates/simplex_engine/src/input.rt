//! What an engine is given, and what a poll did.
use simplex_messages::{Handed, Outcome};
use simplex_transcript::StepSource;
use simplex_types::{Answer, Bytes, Channel, Participant};

/// What an engine is given.
#[derive(Debug, PartialEq, Eq, Drop)]
pub enum Input {
    /// A packet of the network.
    Deliver {
        sender: Participant,
        channel: Channel,
        bytes: Bytes,
    },
    /// A step on what this source holds.
    Step(StepSource),
    /// The application's answer to a request.
    Answer {
        request: u64,
        answer: Answer,
    },
}

/// What a poll took from inside the engine.
#[derive(Debug, PartialEq, Eq, Drop)]
pub enum TakenInside {
    /// The front of a mailbox.
    Message(Handed),
    /// The application's answer to a request.
    Answer { request: u64, answer: Answer },
    /// A deadline of the voter, or of the resolver's fetcher.
    Deadline,
}

/// What a poll did. [polled]
#[derive(Debug, PartialEq, Eq, Drop)]
pub struct Polled {
    /// How it ended.
    pub outcome: Outcome,
    /// What it took from inside the engine.
    pub taken: Option<TakenInside>,
}
