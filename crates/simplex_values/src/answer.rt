//! What an application answers.
ghost use Rattle.std.specs.Prelude.{◌≡◌};
ghost use Rattle.simplex_values.specs.Handoff.{is_wait, ForStaged, IsMapped};

use crate::digest::Digest;

/// What is to be done with a proposal for the next term before its parent is certified.
#[derive(Clone, Copy, Debug, PartialEq, Eq)]
pub enum Handoff<T> {
    /// Nothing yet: ask again once the parent is certified.
    Wait,
    /// Relay it, and vote once the parent is certified.
    Stage(T),
    /// Vote at once.
    Vote(T),
}

impl<T> Handoff<T> {
    /// The same decision on what the function makes of the value.
    pub fn map<U, F: FnOnce(T) -> U>(self, f: F) -> Handoff<U>
        requires { ForStaged self (F.pre f) }
        ensures { IsMapped self (F.post f) result }
    {
        match self {
            Handoff::Wait => Handoff::Wait,
            Handoff::Stage(value) => Handoff::Stage(f(value)),
            Handoff::Vote(value) => Handoff::Vote(f(value)),
        }
    }

    /// Whether it has no value.
    pub fn is_wait(&self) -> bool
        ensures { result ≡ is_wait self.now }
    {
        matches!(self, Handoff::Wait)
    }
}

/// An application's answer to a request.
#[derive(Clone, Copy, Debug, PartialEq, Eq)]
pub enum Answer {
    /// The payload that is proposed.
    Payload(Digest),
    /// The payload that is prepared for the next term.
    Handoff(Handoff<Digest>),
    /// Whether a payload is valid, or may be certified.
    Verdict(bool),
    /// No answer will come.
    Closed,
}
