//! Why members are blocked.

/// Why a member is blocked. [cause-numbers]
#[derive(Clone, Copy, Debug, PartialEq, Eq)]
pub enum BlockCause {
    /// Its bytes do not decode.
    Undecodable,
    /// Its vote or certificate is of another epoch.
    WrongEpoch,
    /// Its certificate does not verify.
    InvalidCertificate,
    /// It sent a vote of another signer.
    WrongSender,
    /// It voted for two proposals in votes of one kind.
    ConflictingVotes,
    /// It nullified and finalized a view.
    NullifyAndFinalize,
    /// Its vote does not verify.
    InvalidSignature,
    /// It led a view for which another proposal was certified than the one that was known.
    LeaderConflict,
    /// Its answer to a request is no valid one.
    InvalidResponse,
}
