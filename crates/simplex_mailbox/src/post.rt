//! Where an actor puts messages for another.
ghost use Rattle.std.specs.Prelude.{◌≡◌, IfOk, OnErr};
ghost use Rattle.simplex_values.specs.declared.feedback.Feedback.{Feedback};

use simplex_values::Feedback;
use std::alloc::AllocError;

/// A place to put messages.
pub trait Post<M> {
    ghost puts: { Self → M → Feedback → Self → Type 0 };

    /// Puts the message, or leaves all as it was for want of memory.
    fn enqueue(&mut self, message: M) -> Result<Feedback, AllocError>
        ensures put { IfOk result (λ feedback. puts self.old message feedback self.new) }
        ensures err { OnErr result (self.new ≡ self.old) };
}
