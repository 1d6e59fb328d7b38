//! Votes.
ghost use Rattle.std.specs.Prelude.{◌≡◌};
ghost use Rattle.simplex_wire.specs.Fields.{vote_kind, vote_subject, vote_attestation, vote_signer, vote_epoch, vote_view, subject_round};

use crate::attestation::Attestation;
use crate::certificate::CertificateKind;
use simplex_values::{Epoch, Keep, Participant, Proposal, Round, Subject, View};
use std::alloc::{AllocError, Global};

/// A vote that the proposal is its view's.
#[derive(Clone, Copy, Debug, PartialEq, Eq)]
pub struct Notarize {
    /// What is voted for.
    pub proposal: Proposal,
    /// Who votes, and the signature.
    pub attestation: Attestation,
}

/// A vote to give the round up.
#[derive(Clone, Copy, Debug, PartialEq, Eq)]
pub struct Nullify {
    /// The round that is given up.
    pub round: Round,
    /// Who votes, and the signature.
    pub attestation: Attestation,
}

/// A vote that the proposal is final.
#[derive(Clone, Copy, Debug, PartialEq, Eq)]
pub struct Finalize {
    /// What is voted for.
    pub proposal: Proposal,
    /// Who votes, and the signature.
    pub attestation: Attestation,
}

/// A vote of any kind.
#[derive(Clone, Copy, Debug, PartialEq, Eq)]
pub enum Vote {
    /// To notarize a proposal.
    Notarize(Notarize),
    /// To give a view up.
    Nullify(Nullify),
    /// To finalize a proposal.
    Finalize(Finalize),
}

impl Notarize {
    /// The round that it is about.
    pub fn round(&self) -> Round
        ensures { result ≡ self.now.proposal.round }
    {
        self.proposal.round
    }

    /// The view that it is about.
    pub fn view(&self) -> View
        ensures { result ≡ self.now.proposal.round.view }
    {
        self.proposal.round.view
    }

    /// The epoch that it is about.
    pub fn epoch(&self) -> Epoch
        ensures { result ≡ self.now.proposal.round.epoch }
    {
        self.proposal.round.epoch
    }

    /// Whose vote it is.
    pub fn signer(&self) -> Participant
        ensures { result ≡ self.now.attestation.signer }
    {
        self.attestation.signer
    }
}

impl Nullify {
    /// The round that it is about.
    pub fn round(&self) -> Round
        ensures { result ≡ self.now.round }
    {
        self.round
    }

    /// The view that it is about.
    pub fn view(&self) -> View
        ensures { result ≡ self.now.round.view }
    {
        self.round.view
    }

    /// The epoch that it is about.
    pub fn epoch(&self) -> Epoch
        ensures { result ≡ self.now.round.epoch }
    {
        self.round.epoch
    }

    /// Whose vote it is.
    pub fn signer(&self) -> Participant
        ensures { result ≡ self.now.attestation.signer }
    {
        self.attestation.signer
    }
}

impl Finalize {
    /// The round that it is about.
    pub fn round(&self) -> Round
        ensures { result ≡ self.now.proposal.round }
    {
        self.proposal.round
    }

    /// The view that it is about.
    pub fn view(&self) -> View
        ensures { result ≡ self.now.proposal.round.view }
    {
        self.proposal.round.view
    }

    /// The epoch that it is about.
    pub fn epoch(&self) -> Epoch
        ensures { result ≡ self.now.proposal.round.epoch }
    {
        self.proposal.round.epoch
    }

    /// Whose vote it is.
    pub fn signer(&self) -> Participant
        ensures { result ≡ self.now.attestation.signer }
    {
        self.attestation.signer
    }
}

impl Vote {
    /// The certificate that votes of its kind make.
    pub fn kind(&self) -> CertificateKind
        ensures { result ≡ vote_kind self.now }
    {
        match self {
            Vote::Notarize(_) => CertificateKind::Notarization,
            Vote::Nullify(_) => CertificateKind::Nullification,
            Vote::Finalize(_) => CertificateKind::Finalization,
        }
    }

    /// What the vote is about.
    pub fn subject(&self) -> Subject
        ensures { result ≡ vote_subject self.now }
    {
        match self {
            Vote::Notarize(vote) => Subject::Notarize(vote.proposal),
            Vote::Nullify(vote) => Subject::Nullify(vote.round),
            Vote::Finalize(vote) => Subject::Finalize(vote.proposal),
        }
    }

    /// The round that it is about.
    pub fn round(&self) -> Round
        ensures { result ≡ subject_round (vote_subject self.now) }
    {
        match self {
            Vote::Notarize(vote) => vote.proposal.round,
            Vote::Nullify(vote) => vote.round,
            Vote::Finalize(vote) => vote.proposal.round,
        }
    }

    /// The view that it is about.
    pub fn view(&self) -> View
        ensures { result ≡ vote_view self.now }
    {
        self.round().view
    }

    /// The epoch that it is about.
    pub fn epoch(&self) -> Epoch
        ensures { result ≡ vote_epoch self.now }
    {
        self.round().epoch
    }

    /// The signature, and whose it is.
    pub fn attestation(&self) -> &Attestation
        ensures { result.now ≡ vote_attestation self.now }
    {
        match self {
            Vote::Notarize(vote) => &vote.attestation,
            Vote::Nullify(vote) => &vote.attestation,
            Vote::Finalize(vote) => &vote.attestation,
        }
    }

    /// Whose vote it is.
    pub fn signer(&self) -> Participant
        ensures { result ≡ vote_signer self.now }
    {
        self.attestation().signer
    }
}

impl Keep for Vote {
    fn keep(&self, _alloc: Global) -> Result<Vote, AllocError> {
        Ok(*self)
    }
}

impl Keep for Notarize {
    fn keep(&self, _alloc: Global) -> Result<Notarize, AllocError> {
        Ok(*self)
    }
}

impl Keep for Nullify {
    fn keep(&self, _alloc: Global) -> Result<Nullify, AllocError> {
        Ok(*self)
    }
}

impl Keep for Finalize {
    fn keep(&self, _alloc: Global) -> Result<Finalize, AllocError> {
        Ok(*self)
    }
}
