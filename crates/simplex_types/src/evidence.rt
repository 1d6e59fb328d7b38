//! Two votes of one signer that no honest member signs both.
ghost use Rattle.std.specs.Prelude.{◌≡◌};

use simplex_values::{Epoch, Keep, Participant, Round, View};
use simplex_wire::{Finalize, Notarize, Nullify, Scheme};
use std::alloc::{AllocError, Global};

/// Notarizes for two proposals of one round.
#[derive(Clone, Copy, Debug, PartialEq, Eq)]
pub struct ConflictingNotarize {
    /// The vote that came first.
    pub first: Notarize,
    /// The vote that conflicts with it.
    pub second: Notarize,
}

/// Finalizes for two proposals of one round.
#[derive(Clone, Copy, Debug, PartialEq, Eq)]
pub struct ConflictingFinalize {
    /// The vote that came first.
    pub first: Finalize,
    /// The vote that conflicts with it.
    pub second: Finalize,
}

/// A nullify and a finalize of one round.
#[derive(Clone, Copy, Debug, PartialEq, Eq)]
pub struct NullifyFinalize {
    /// The vote that gives the view up.
    pub nullify: Nullify,
    /// The vote that finalizes in it.
    pub finalize: Finalize,
}

impl ConflictingNotarize {
    ghost use Rattle.simplex_types.specs.Evidence.{conflicting_notarize_verifies};

    /// The round of the first vote.
    pub fn round(&self) -> Round
        ensures { result ≡ self.now.first.proposal.round }
    {
        self.first.proposal.round
    }

    /// The view of the first vote.
    pub fn view(&self) -> View
        ensures { result ≡ self.now.first.proposal.round.view }
    {
        self.first.proposal.round.view
    }

    /// The epoch of the first vote.
    pub fn epoch(&self) -> Epoch
        ensures { result ≡ self.now.first.proposal.round.epoch }
    {
        self.first.proposal.round.epoch
    }

    /// Whose vote the first is.
    pub fn signer(&self) -> Participant
        ensures { result ≡ self.now.first.attestation.signer }
    {
        self.first.attestation.signer
    }

    /// Whether both votes verify, have one signer and one round, and differ in their proposals.
    #[tactic(auto, unfolding(crate::specs::Evidence::conflicting_notarize_verifies))]
    pub fn verify<S: Scheme>(&self, scheme: &S) -> bool
        ensures { result ≡ conflicting_notarize_verifies (S.verifies scheme.now) self.now }
    {
        let one_signer = self.first.attestation.signer == self.second.attestation.signer;
        one_signer
            && self.first.proposal.round == self.second.proposal.round
            && !self.first.proposal.is_same(&self.second.proposal)
            && self.first.verify(scheme)
            && self.second.verify(scheme)
    }
}

impl ConflictingFinalize {
    ghost use Rattle.simplex_types.specs.Evidence.{conflicting_finalize_verifies};

    /// The round of the first vote.
    pub fn round(&self) -> Round
        ensures { result ≡ self.now.first.proposal.round }
    {
        self.first.proposal.round
    }

    /// The view of the first vote.
    pub fn view(&self) -> View
        ensures { result ≡ self.now.first.proposal.round.view }
    {
        self.first.proposal.round.view
    }

    /// The epoch of the first vote.
    pub fn epoch(&self) -> Epoch
        ensures { result ≡ self.now.first.proposal.round.epoch }
    {
        self.first.proposal.round.epoch
    }

    /// Whose vote the first is.
    pub fn signer(&self) -> Participant
        ensures { result ≡ self.now.first.attestation.signer }
    {
        self.first.attestation.signer
    }

    /// Whether both votes verify, have one signer and one round, and differ in their proposals.
    #[tactic(auto, unfolding(crate::specs::Evidence::conflicting_finalize_verifies))]
    pub fn verify<S: Scheme>(&self, scheme: &S) -> bool
        ensures { result ≡ conflicting_finalize_verifies (S.verifies scheme.now) self.now }
    {
        let one_signer = self.first.attestation.signer == self.second.attestation.signer;
        one_signer
            && self.first.proposal.round == self.second.proposal.round
            && !self.first.proposal.is_same(&self.second.proposal)
            && self.first.verify(scheme)
            && self.second.verify(scheme)
    }
}

impl NullifyFinalize {
    ghost use Rattle.simplex_types.specs.Evidence.{nullify_finalize_verifies};

    /// The round of the first vote.
    pub fn round(&self) -> Round
        ensures { result ≡ self.now.nullify.round }
    {
        self.nullify.round
    }

    /// The view of the first vote.
    pub fn view(&self) -> View
        ensures { result ≡ self.now.nullify.round.view }
    {
        self.nullify.round.view
    }

    /// The epoch of the first vote.
    pub fn epoch(&self) -> Epoch
        ensures { result ≡ self.now.nullify.round.epoch }
    {
        self.nullify.round.epoch
    }

    /// Whose vote the first is.
    pub fn signer(&self) -> Participant
        ensures { result ≡ self.now.nullify.attestation.signer }
    {
        self.nullify.attestation.signer
    }

    /// Whether both votes verify, have one signer and one round.
    #[tactic(auto, unfolding(crate::specs::Evidence::nullify_finalize_verifies))]
    pub fn verify<S: Scheme>(&self, scheme: &S) -> bool
        ensures { result ≡ nullify_finalize_verifies (S.verifies scheme.now) self.now }
    {
        let one_signer = self.nullify.attestation.signer == self.finalize.attestation.signer;
        one_signer
            && self.nullify.round == self.finalize.proposal.round
            && self.nullify.verify(scheme)
            && self.finalize.verify(scheme)
    }
}

impl Keep for ConflictingNotarize {
    fn keep(&self, _alloc: Global) -> Result<ConflictingNotarize, AllocError> {
        Ok(*self)
    }
}

impl Keep for ConflictingFinalize {
    fn keep(&self, _alloc: Global) -> Result<ConflictingFinalize, AllocError> {
        Ok(*self)
    }
}

impl Keep for NullifyFinalize {
    fn keep(&self, _alloc: Global) -> Result<NullifyFinalize, AllocError> {
        Ok(*self)
    }
}
