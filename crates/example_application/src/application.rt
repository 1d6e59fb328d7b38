//! An application of three closures.
use simplex::actors::Asked;
use simplex::types::{Answer, Digest, View};

/// What an application decides.
#[derive(Drop)]
pub struct Application<P, V, C> {
    /// The payload that it proposes in a view.
    pub propose: P,
    /// Whether another member's payload is valid.
    pub verify: V,
    /// Whether a notarized payload may become final.
    pub certify: C,
}

impl<P: Fn(View) -> Digest, V: Fn(&Digest) -> bool, C: Fn(&Digest) -> bool> Application<P, V, C> {
    /// What it answers to a request. It prepares nothing for a later term.
    pub fn answer(&self, asked: &Asked) -> Answer
        requires proposes { P.IsAlwaysCallable self.now.propose }
        requires verifies { V.IsAlwaysCallable self.now.verify }
        requires certifies { C.IsAlwaysCallable self.now.certify }
    {
        match asked {
            Asked::Prepare(_) => Answer::Closed,
            Asked::Propose(context) => Answer::Payload((self.propose)(context.round.view)),
            Asked::Verify(_, payload) => Answer::Verdict((self.verify)(payload)),
            Asked::Certify(_, payload) => Answer::Verdict((self.certify)(payload)),
        }
    }
}
