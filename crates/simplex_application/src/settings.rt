//! What an application is set to do.
use simplex_types::Handoff;

/// What an application is set to do.
#[derive(Clone, Copy, Debug)]
pub(crate) struct Settings {
    /// Every payload is invalid.
    pub fails_verification: bool,
    /// Requests for payloads are closed.
    pub drops_proposals: bool,
    /// Requests for payloads are left open.
    pub stalls_proposals: bool,
    /// What is done with a payload of the next term. `Wait` makes none.
    pub handoff: Handoff<()>,
    /// Requests for verification are closed.
    pub drops_verifications: bool,
}
