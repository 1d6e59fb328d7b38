//! What comes of a request for a payload of the next term.
use simplex_types::{Answer, Digest, Handoff};

/// What comes of a request for a payload of the next term, before a controller is asked.
#[derive(Clone, Copy, Debug, PartialEq, Eq)]
pub(crate) enum Prepared {
    /// It is answered so.
    Answered(Answer),
    /// It is left open.
    Open,
    /// A payload was made, on which this is decided.
    Made(Handoff<Digest>),
}
