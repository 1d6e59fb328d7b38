//! A certifier by a closure.
use simplex_types::{Digest, Round};

/// Decides by a closure of the round and the payload, which may be called on every value.
#[derive(Drop)]
pub struct CertifyFn {
    decide: Box<dyn Fn(Round, Digest) -> bool>,
    ghost total: { IsAlwaysCallable decide },
}

impl CertifyFn {
    ghost use Rattle.std.specs.Prelude.{◌≡◌};

    /// Decides by this closure.
    pub fn new(decide: Box<dyn Fn(Round, Digest) -> bool>) -> CertifyFn
        requires { IsAlwaysCallable decide }
        ensures { result.decide ≡ decide }
    {
        CertifyFn { decide }
    }

    /// What the closure answers.
    pub(crate) fn decide(&self, round: Round, payload: Digest) -> bool
        ensures { post self.now.decide round payload result }
    {
        (self.decide)(round, payload)
    }
}
