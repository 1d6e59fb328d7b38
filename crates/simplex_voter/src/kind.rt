//! The kinds of requests to the application.

/// What a request asks the application for.
#[derive(Clone, Copy, Debug, PartialEq, Eq)]
pub enum AskKind {
    /// To prepare a payload for the next term.
    Prepare,
    /// To propose a payload.
    Propose,
    /// To judge a proposal.
    Verify,
    /// To judge a notarized proposal.
    Certify,
}
