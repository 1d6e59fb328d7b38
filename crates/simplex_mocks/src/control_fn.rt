//! A certifier by a closure that may leave a request open.
use simplex_types::{Digest, Round};

/// Decides by a closure of the round and the payload, which may be called on every value. No decision leaves the
/// request open.
#[derive(Drop)]
pub struct ControlFn {
    decide: Box<dyn Fn(Round, Digest) -> Option<bool>>,
    ghost total: { IsAlwaysCallable decide },
}

impl ControlFn {
    ghost use Rattle.std.specs.Prelude.{◌≡◌};

    /// Decides by this closure.
    pub fn new(decide: Box<dyn Fn(Round, Digest) -> Option<bool>>) -> ControlFn
        requires { IsAlwaysCallable decide }
        ensures { result.decide ≡ decide }
    {
        ControlFn { decide }
    }

    /// What the closure answers.
    pub(crate) fn decide(&self, round: Round, payload: Digest) -> Option<bool>
        ensures { post self.now.decide round payload result }
    {
        (self.decide)(round, payload)
    }
}
