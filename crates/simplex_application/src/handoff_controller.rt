//! Who decides on payloads of the next term.
use simplex_types::{Digest, Handoff, Round};

/// Decides on each payload of the next term by a closure, which may be called on every value. No decision leaves the
/// request open.
#[derive(Drop)]
pub(crate) struct HandoffController {
    decide: Box<dyn Fn(Round, Handoff<Digest>) -> Option<Handoff<Digest>>>,
    ghost total: { IsAlwaysCallable decide },
}

impl HandoffController {
    ghost use Rattle.std.specs.Prelude.{◌≡◌};

    /// Decides by this closure.
    pub(crate) fn new(
        decide: Box<dyn Fn(Round, Handoff<Digest>) -> Option<Handoff<Digest>>>,
    ) -> HandoffController
        requires { IsAlwaysCallable decide }
        ensures { result.decide ≡ decide }
    {
        HandoffController { decide }
    }

    /// What the closure answers.
    pub(crate) fn decide(&self, round: Round, made: Handoff<Digest>) -> Option<Handoff<Digest>>
        ensures { post self.now.decide round made result }
    {
        (self.decide)(round, made)
    }
}
