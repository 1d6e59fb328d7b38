//! Who is told of requests for payloads.
use simplex_types::Context;

/// Is told of each request for a payload by a closure, which may be called on every value.
#[derive(Drop)]
pub(crate) struct ProposeObserver {
    observe: Box<dyn Fn(Context)>,
    ghost total: { IsAlwaysCallable observe },
}

impl ProposeObserver {
    ghost use Rattle.std.specs.Prelude.{◌≡◌};

    /// Tells this closure.
    pub(crate) fn new(observe: Box<dyn Fn(Context)>) -> ProposeObserver
        requires { IsAlwaysCallable observe }
        ensures { result.observe ≡ observe }
    {
        ProposeObserver { observe }
    }

    /// Tells it of a request.
    pub(crate) fn observe(&self, context: Context)
        ensures { post self.now.observe context result }
    {
        (self.observe)(context);
    }
}
