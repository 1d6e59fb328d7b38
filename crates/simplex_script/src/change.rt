//! What a script changes of the usual setup.
use simplex_types::ForwardPolicy;

/// An item of a setup that is a number.
#[derive(Clone, Copy, Debug, PartialEq, Eq)]
pub enum Setting {
    Epoch,
    KeyBase,
    Term,
    Lookahead,
    LeaderTimeout,
    CertificationTimeout,
    Retry,
    Stall,
    Retention,
    Mailbox,
    FetchTimeout,
    FetchRetry,
}

/// An item of a setup, and its value.
#[derive(Clone, Copy, Debug, PartialEq, Eq)]
pub enum Change {
    /// A number.
    Number(Setting, u64),
    /// Whether votes of past views are verified too.
    Track(bool),
    /// Whether a next term's leader prepares before its parent is certified.
    Handoff(bool),
    /// To whom notarized payloads are forwarded.
    Forward(ForwardPolicy),
}
