//! What an engine on threads is fed, and what it gave.
use simplex_messages::StepOut;
use simplex_turns::{Delivery, FeedItem, Logs};

/// What comes to each actor from outside, in this order.
#[derive(Debug, PartialEq, Eq, Drop)]
pub struct Feed {
    /// Packets for the batcher: votes and certificates.
    pub batcher: Vec<Delivery>,
    /// Packets for the resolver.
    pub resolver: Vec<Delivery>,
    /// The clock, and answers of the application.
    pub voter: Vec<FeedItem>,
}

/// What the turns of each actor gave, the records of the mailboxes, and the voter's journal.
#[derive(Drop)]
pub struct ThreadRun<J> {
    /// One for each turn of the batcher.
    pub batcher: Vec<StepOut>,
    /// One for each turn of the resolver.
    pub resolver: Vec<StepOut>,
    /// One that a failing call of the journal ended is the last.
    pub voter: Vec<StepOut>,
    /// What was put into each mailbox, and taken from it.
    pub logs: Logs,
    /// The voter's, as its last turn left it: pending records stand.
    pub journal: J,
}
