//! What waits for room in a mailbox.
ghost use Rattle.std.specs.Prelude.{◌≡◌};
ghost use Rattle.simplex_mailbox.specs.Waiting.{Waiting, nothing, is_clear, front, in_turn, undrained, without};

use crate::requested::Requested;
use std::alloc::Global;

/// What waits for room: a place for one message that goes before all others, then the rest in order of
/// arrival. [pop-for-drain]
pub trait Overflow<M: Requested>: Drop {
    ghost waiting: { Self → Waiting M };

    /// Nothing waits. Takes no memory.
    fn new(alloc: Global) -> Self
        ensures { waiting result ≡ nothing };

    /// Whether nothing waits.
    fn is_empty(&self) -> bool
        ensures { result ≡ is_clear (waiting self.now) };

    /// Takes the message whose turn it is: the place, else the first of the rest that is not skipped.
    /// The skipped ones before it are dropped.
    fn pop(&mut self) -> Option<M>
        ensures message { result ≡ front (in_turn M.is_skipped (waiting self.old)) }
        ensures rest { waiting self.new ≡ undrained M.is_skipped 1 (waiting self.old) };

    /// Tells each message that the requester of this number left.
    fn leave(&mut self, id: u64)
        ensures { waiting self.new ≡ without M.leave id (waiting self.old) };
}
