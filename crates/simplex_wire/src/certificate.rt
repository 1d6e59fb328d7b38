//! Certificates: a quorum's votes for one thing.
ghost use Rattle.std.specs.Prelude.{◌≡◌};
ghost use Rattle.simplex_wire.specs.Fields.{certificate_subject, certificate_kind, certificate_signatures, certificate_epoch, certificate_view, subject_round};

use crate::signatures::Signatures;
use simplex_values::{Epoch, Keep, Proposal, Round, Subject, View};
use std::alloc::{AllocError, Global};

/// A quorum notarized the proposal.
#[derive(Debug, PartialEq, Eq, Drop)]
pub struct Notarization {
    /// What the quorum agrees on.
    pub proposal: Proposal,
    /// The signatures of the quorum.
    pub certificate: Signatures,
}

/// A quorum gave the round up.
#[derive(Debug, PartialEq, Eq, Drop)]
pub struct Nullification {
    /// The round that is given up.
    pub round: Round,
    /// The signatures of the quorum.
    pub certificate: Signatures,
}

/// A quorum finalized the proposal.
#[derive(Debug, PartialEq, Eq, Drop)]
pub struct Finalization {
    /// What the quorum agrees on.
    pub proposal: Proposal,
    /// The signatures of the quorum.
    pub certificate: Signatures,
}

/// A certificate of any kind.
#[derive(Debug, PartialEq, Eq, Drop)]
pub enum Certificate {
    /// A quorum notarized a proposal.
    Notarization(Notarization),
    /// A quorum gave a view up.
    Nullification(Nullification),
    /// A quorum finalized a proposal.
    Finalization(Finalization),
}

/// Which of the three certificates, or votes.
#[derive(Clone, Copy, Debug, PartialEq, Eq, PartialOrd, Ord, Hash)]
pub enum CertificateKind {
    /// Of a proposal that was notarized.
    Notarization,
    /// Of a view that was given up.
    Nullification,
    /// Of a proposal that is final.
    Finalization,
}

impl Notarization {
    /// The round that it is about.
    pub fn round(&self) -> Round
        ensures { result ≡ self.now.proposal.round }
    {
        self.proposal.round
    }

    /// The view that it is about.
    pub fn view(&self) -> View
        ensures { result ≡ self.now.proposal.round.view }
    {
        self.proposal.round.view
    }

    /// The epoch that it is about.
    pub fn epoch(&self) -> Epoch
        ensures { result ≡ self.now.proposal.round.epoch }
    {
        self.proposal.round.epoch
    }
}

impl Keep for Notarization {
    fn keep(&self, alloc: Global) -> Result<Notarization, AllocError> {
        Ok(Notarization {
            proposal: self.proposal,
            certificate: self.certificate.keep(alloc)?,
        })
    }
}

impl Nullification {
    /// The round that it is about.
    pub fn round(&self) -> Round
        ensures { result ≡ self.now.round }
    {
        self.round
    }

    /// The view that it is about.
    pub fn view(&self) -> View
        ensures { result ≡ self.now.round.view }
    {
        self.round.view
    }

    /// The epoch that it is about.
    pub fn epoch(&self) -> Epoch
        ensures { result ≡ self.now.round.epoch }
    {
        self.round.epoch
    }
}

impl Keep for Nullification {
    fn keep(&self, alloc: Global) -> Result<Nullification, AllocError> {
        Ok(Nullification {
            round: self.round,
            certificate: self.certificate.keep(alloc)?,
        })
    }
}

impl Finalization {
    /// The round that it is about.
    pub fn round(&self) -> Round
        ensures { result ≡ self.now.proposal.round }
    {
        self.proposal.round
    }

    /// The view that it is about.
    pub fn view(&self) -> View
        ensures { result ≡ self.now.proposal.round.view }
    {
        self.proposal.round.view
    }

    /// The epoch that it is about.
    pub fn epoch(&self) -> Epoch
        ensures { result ≡ self.now.proposal.round.epoch }
    {
        self.proposal.round.epoch
    }
}

impl Keep for Finalization {
    fn keep(&self, alloc: Global) -> Result<Finalization, AllocError> {
        Ok(Finalization {
            proposal: self.proposal,
            certificate: self.certificate.keep(alloc)?,
        })
    }
}

impl Certificate {
    /// Which certificate it is.
    pub fn kind(&self) -> CertificateKind
        ensures { result ≡ certificate_kind self.now }
    {
        match self {
            Certificate::Notarization(_) => CertificateKind::Notarization,
            Certificate::Nullification(_) => CertificateKind::Nullification,
            Certificate::Finalization(_) => CertificateKind::Finalization,
        }
    }

    /// What the certificate is about.
    pub fn subject(&self) -> Subject
        ensures { result ≡ certificate_subject self.now }
    {
        match self {
            Certificate::Notarization(certificate) => Subject::Notarize(certificate.proposal),
            Certificate::Nullification(certificate) => Subject::Nullify(certificate.round),
            Certificate::Finalization(certificate) => Subject::Finalize(certificate.proposal),
        }
    }

    /// The signatures of the quorum.
    pub fn signatures(&self) -> &Signatures
        ensures { result.now ≡ certificate_signatures self.now }
    {
        match self {
            Certificate::Notarization(it) => &it.certificate,
            Certificate::Nullification(it) => &it.certificate,
            Certificate::Finalization(it) => &it.certificate,
        }
    }

    /// The round that it is about.
    pub fn round(&self) -> Round
        ensures { result ≡ subject_round (certificate_subject self.now) }
    {
        match self {
            Certificate::Notarization(certificate) => certificate.proposal.round,
            Certificate::Nullification(certificate) => certificate.round,
            Certificate::Finalization(certificate) => certificate.proposal.round,
        }
    }

    /// The view that it is about.
    pub fn view(&self) -> View
        ensures { result ≡ certificate_view self.now }
    {
        self.round().view
    }

    /// The epoch that it is about.
    pub fn epoch(&self) -> Epoch
        ensures { result ≡ certificate_epoch self.now }
    {
        self.round().epoch
    }
}

impl Keep for Certificate {
    fn keep(&self, alloc: Global) -> Result<Certificate, AllocError> {
        match self {
            Certificate::Notarization(it) => Ok(Certificate::Notarization(it.keep(alloc)?)),
            Certificate::Nullification(it) => Ok(Certificate::Nullification(it.keep(alloc)?)),
            Certificate::Finalization(it) => Ok(Certificate::Finalization(it.keep(alloc)?)),
        }
    }
}
