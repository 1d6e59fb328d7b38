//! What two votes of a signer prove together.
ghost use Rattle.std.specs.Prelude.{◌≡◌};
ghost use Rattle.simplex_round.specs.Acceptance as acceptance;

use simplex_types::{
    Activity, BlockCause, ConflictingFinalize, ConflictingNotarize, NullifyFinalize,
};
use simplex_wire::Vote;

/// Two votes of one signer of which an honest member signs one at most.
#[derive(Clone, Copy, Debug, PartialEq, Eq)]
pub enum Evidence {
    /// Notarizes for two proposals.
    Notarizes(ConflictingNotarize),
    /// Finalizes for two proposals.
    Finalizes(ConflictingFinalize),
    /// A nullify and a finalize.
    NullifyFinalize(NullifyFinalize),
}

impl Evidence {
    /// What an accepted vote and a later one of its signer and round prove.
    pub fn of(accepted: &Vote, later: &Vote) -> Option<Evidence>
        ensures { result ≡ acceptance.evidence_of accepted.now later.now }
    {
        match (accepted, later) {
            (Vote::Notarize(first), Vote::Notarize(second)) => {
                if first.proposal.is_same(&second.proposal) {
                    return None;
                }
                Some(Evidence::Notarizes(ConflictingNotarize {
                    first: *first,
                    second: *second,
                }))
            }
            (Vote::Finalize(first), Vote::Finalize(second)) => {
                if first.proposal.is_same(&second.proposal) {
                    return None;
                }
                Some(Evidence::Finalizes(ConflictingFinalize {
                    first: *first,
                    second: *second,
                }))
            }
            (Vote::Nullify(nullify), Vote::Finalize(finalize)) => {
                Some(Evidence::NullifyFinalize(NullifyFinalize {
                    nullify: *nullify,
                    finalize: *finalize,
                }))
            }
            (Vote::Finalize(finalize), Vote::Nullify(nullify)) => {
                Some(Evidence::NullifyFinalize(NullifyFinalize {
                    nullify: *nullify,
                    finalize: *finalize,
                }))
            }
            _ => None,
        }
    }

    /// Why its signer is blocked.
    pub fn cause(&self) -> BlockCause
        ensures { result ≡ acceptance.evidence_cause self.now }
    {
        match self {
            Evidence::Notarizes(_) | Evidence::Finalizes(_) => BlockCause::ConflictingVotes,
            Evidence::NullifyFinalize(_) => BlockCause::NullifyAndFinalize,
        }
    }

    /// The evidence as it is reported.
    pub fn activity(&self) -> Activity
        ensures { result ≡ acceptance.evidence_activity self.now }
    {
        match self {
            Evidence::Notarizes(it) => Activity::ConflictingNotarize(*it),
            Evidence::Finalizes(it) => Activity::ConflictingFinalize(*it),
            Evidence::NullifyFinalize(it) => Activity::NullifyFinalize(*it),
        }
    }
}
