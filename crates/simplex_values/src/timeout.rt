//! Why a view is given up.

/// Why a view expires.
#[derive(Clone, Copy, Debug, PartialEq, Eq)]
pub enum TimeoutReason {
    /// No proposal came in time.
    LeaderTimeout,
    /// No certificate came in time.
    CertificationTimeout,
    /// Nothing was finalized for too long in the term.
    StallTimeout,
    /// The leader gave the view up.
    LeaderNullify,
    /// The leader seems to be gone.
    Inactivity,
    /// The application made no proposal.
    MissingProposal,
    /// The application did not judge the proposal.
    IgnoredProposal,
    /// The application found the proposal invalid.
    InvalidProposal,
    /// The application did not certify the proposal.
    FailedCertification,
}
