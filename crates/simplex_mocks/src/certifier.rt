//! Who decides whether a notarized payload may be certified.
ghost use Rattle.std.specs.Prelude.{◌≡◌, Option};
ghost use Rattle.simplex_mocks.specs.declared.certifier.Certifier.TheVariants as certifiers;
ghost use Rattle.simplex_mocks.specs.Certifier.{always, cancels, leaves_open, by_closure, by_controller};

use crate::certify_fn::CertifyFn;
use crate::control_fn::ControlFn;
use simplex_types::{Answer, Digest, Round};

type Decide = Box<dyn Fn(Round, Digest) -> bool>;

type Control = Box<dyn Fn(Round, Digest) -> Option<bool>>;

/// What an application answers to a request for certification.
#[derive(Drop)]
pub enum Certifier {
    /// It may be certified.
    Always,
    /// What the closure says.
    Custom(CertifyFn),
    /// What the closure says, which may leave the request open.
    Controlled(ControlFn),
    /// No answer will come.
    Cancel,
    /// The request is left open.
    Pending,
}

impl Certifier {
    /// The answer, unless the request is left open.
    pub fn certify(&self, round: Round, payload: Digest) -> Option<Answer>
        ensures always { self.now ≡ certifiers.Always → always round payload result }
        ensures custom { (by : _) → self.now ≡ certifiers.Custom by
            → by_closure (Decide.post by.decide) round payload result }
        ensures controlled { (by : _) → self.now ≡ certifiers.Controlled by
            → by_controller (Control.post by.decide) round payload result }
        ensures cancel { self.now ≡ certifiers.Cancel → cancels round payload result }
        ensures pending { self.now ≡ certifiers.Pending → leaves_open round payload result }
    {
        match self {
            Certifier::Always => Some(Answer::Verdict(true)),
            Certifier::Custom(by) => Some(Answer::Verdict(by.decide(round, payload))),
            Certifier::Controlled(by) => by.decide(round, payload).map(Answer::Verdict),
            Certifier::Cancel => Some(Answer::Closed),
            Certifier::Pending => None,
        }
    }
}
