//! What is forged.
use simplex_types::Subject;

/// An attestation in a faulty member's packet that an honest member did not give: it sent no vote on the subject.
#[derive(Clone, Copy, Debug, PartialEq, Eq)]
pub struct Forgery {
    /// The honest member.
    pub member: u64,
    /// What the attestation is on.
    pub subject: Subject,
}
