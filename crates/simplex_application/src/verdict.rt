//! Verdicts on payloads.

/// Whether the payload of a verification is valid.
#[derive(Clone, Copy, Debug, PartialEq, Eq)]
pub(crate) struct Verdict {
    /// The number of the request.
    pub request: u64,
    /// Whether it is.
    pub is_valid: bool,
}
