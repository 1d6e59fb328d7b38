//! What an engine reports.
ghost use Rattle.std.specs.Prelude.{◌≡◌};

use crate::evidence::{ConflictingFinalize, ConflictingNotarize, NullifyFinalize};
use simplex_values::{Epoch, Keep, Round, View};
use simplex_wire::{
    Finalization, Finalize, Notarization, Notarize, Nullification, Nullify, Scheme,
};
use std::alloc::{AllocError, Global};

/// A vote, a certificate or evidence that an engine saw.
#[derive(Debug, PartialEq, Eq, Drop)]
pub enum Activity {
    /// A vote to notarize a proposal.
    Notarize(Notarize),
    /// A quorum notarized a proposal.
    Notarization(Notarization),
    /// The application certified the notarized proposal.
    Certification(Notarization),
    /// A vote to give a view up.
    Nullify(Nullify),
    /// A quorum gave a view up.
    Nullification(Nullification),
    /// A vote to finalize a proposal.
    Finalize(Finalize),
    /// A quorum finalized a proposal.
    Finalization(Finalization),
    /// Evidence: a member notarized two proposals of a view.
    ConflictingNotarize(ConflictingNotarize),
    /// Evidence: a member finalized two proposals of a view.
    ConflictingFinalize(ConflictingFinalize),
    /// Evidence: a member gave a view up and finalized it.
    NullifyFinalize(NullifyFinalize),
}

impl Activity {
    ghost use Rattle.simplex_types.specs.Evidence.{activity_round, activity_verifies, was_verified};

    /// The round that it is about, for evidence that of its first vote.
    pub fn round(&self) -> Round
        ensures { result ≡ activity_round self.now }
    {
        match self {
            Activity::Notarize(it) => it.proposal.round,
            Activity::Notarization(it) => it.proposal.round,
            Activity::Certification(it) => it.proposal.round,
            Activity::Nullify(it) => it.round,
            Activity::Nullification(it) => it.round,
            Activity::Finalize(it) => it.proposal.round,
            Activity::Finalization(it) => it.proposal.round,
            Activity::ConflictingNotarize(it) => it.first.proposal.round,
            Activity::ConflictingFinalize(it) => it.first.proposal.round,
            Activity::NullifyFinalize(it) => it.nullify.round,
        }
    }

    /// The view that it is about.
    pub fn view(&self) -> View
        ensures { result ≡ (activity_round self.now).view }
    {
        self.round().view
    }

    /// The epoch that it is about.
    pub fn epoch(&self) -> Epoch
        ensures { result ≡ (activity_round self.now).epoch }
    {
        self.round().epoch
    }

    /// Whether it is a certificate: these were verified before they were reported.
    pub fn verified(&self) -> bool
        ensures { result ≡ was_verified self.now }
    {
        matches!(
            self,
            Activity::Notarization(_)
                | Activity::Certification(_)
                | Activity::Nullification(_)
                | Activity::Finalization(_)
        )
    }

    /// Whether its signatures verify, and evidence shows what it is evidence of.
    pub fn verify<S: Scheme>(&self, scheme: &S) -> bool
        ensures { result ≡ activity_verifies (S.verifies scheme.now)
            (S.members scheme.now) self.now }
    {
        match self {
            Activity::Notarize(it) => it.verify(scheme),
            Activity::Notarization(it) => it.verify(scheme),
            Activity::Certification(it) => it.verify(scheme),
            Activity::Nullify(it) => it.verify(scheme),
            Activity::Nullification(it) => it.verify(scheme),
            Activity::Finalize(it) => it.verify(scheme),
            Activity::Finalization(it) => it.verify(scheme),
            Activity::ConflictingNotarize(it) => it.verify(scheme),
            Activity::ConflictingFinalize(it) => it.verify(scheme),
            Activity::NullifyFinalize(it) => it.verify(scheme),
        }
    }
}

impl Keep for Activity {
    fn keep(&self, alloc: Global) -> Result<Activity, AllocError> {
        match self {
            Activity::Notarize(it) => Ok(Activity::Notarize(*it)),
            Activity::Notarization(it) => Ok(Activity::Notarization(it.keep(alloc)?)),
            Activity::Certification(it) => Ok(Activity::Certification(it.keep(alloc)?)),
            Activity::Nullify(it) => Ok(Activity::Nullify(*it)),
            Activity::Nullification(it) => Ok(Activity::Nullification(it.keep(alloc)?)),
            Activity::Finalize(it) => Ok(Activity::Finalize(*it)),
            Activity::Finalization(it) => Ok(Activity::Finalization(it.keep(alloc)?)),
            Activity::ConflictingNotarize(it) => Ok(Activity::ConflictingNotarize(*it)),
            Activity::ConflictingFinalize(it) => Ok(Activity::ConflictingFinalize(*it)),
            Activity::NullifyFinalize(it) => Ok(Activity::NullifyFinalize(*it)),
        }
    }
}
