//! What is chosen before it is known which nodes run.
use simplex_transcript::Event;

/// What comes next: an event, or that of which list the item at this place is taken, modulo how many there are.
#[derive(Debug, PartialEq, Eq, Drop)]
pub enum Choice {
    /// This event.
    Event(Event),
    /// Of the packets for nodes that run.
    Delivery(u64),
    /// Of what holds something.
    Step(u64),
}
