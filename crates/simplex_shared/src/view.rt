//! What a seat of the lock knows.
use crate::terms::Terms;
use std::collections::LinkedList;

/// Where a seat stands.
pub enum Stage {
    /// It draws no ticket.
    Idle,
    /// With this ticket, of all that were ever drawn.
    Waiting(u64),
    /// The value is out with it.
    Holding,
}

/// What a seat knows. No value of it is made.
pub struct View<E> {
    /// It makes the passes, and `number` is that of the next.
    pub makes: bool,
    /// It is the pass with this number.
    pub member: bool,
    /// The pass's number, or that of the next to be made.
    pub number: u64,
    /// Those of the shared value.
    pub terms: Terms,
    /// Its parts of the right to draw tickets.
    pub parts: u64,
    /// Where it stands.
    pub stage: Stage,
    /// A beginning of the history.
    pub seen: LinkedList<E>,
    /// Another one, of which it was told.
    pub told: LinkedList<E>,
}
