//! What is to stay so of a list of events.
ghost use Rattle.std.specs.Prelude.{◌≡◌, Bool, List, IfOk};
ghost use Rattle.simplex_transcript.specs.declared.event.Event as happening;

use simplex_transcript::Event;
use std::alloc::{AllocError, Global};

/// What is to stay so of a list of events.
pub trait Probe {
    /// Whether it is so of these events.
    ghost stays: { Self → List happening.Event → Bool };

    /// Whether it is so of these events. An error is want of memory.
    fn try_on(&self, alloc: Global, events: &[Event]) -> Result<bool, AllocError>
        ensures { IfOk result (λ yes. yes ≡ stays self.now events.now) };
}
