//! Who is told of requests for verification.
use simplex_types::{Context, Digest};

/// Is told of each request for verification by a closure, which may be called on every value.
#[derive(Drop)]
pub(crate) struct VerifyObserver {
    observe: Box<dyn Fn(Context, Digest)>,
    ghost total: { IsAlwaysCallable observe },
}

impl VerifyObserver {
    ghost use Rattle.std.specs.Prelude.{◌≡◌};

    /// Tells this closure.
    pub(crate) fn new(observe: Box<dyn Fn(Context, Digest)>) -> VerifyObserver
        requires { IsAlwaysCallable observe }
        ensures { result.observe ≡ observe }
    {
        VerifyObserver { observe }
    }

    /// Tells it of a request.
    pub(crate) fn observe(&self, context: Context, payload: Digest)
        ensures { post self.now.observe context payload result }
    {
        (self.observe)(context, payload);
    }
}
