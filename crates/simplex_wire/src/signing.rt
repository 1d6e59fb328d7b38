//! Signing and verifying by any scheme, and certificates from votes.
ghost use Rattle.std.specs.Prelude.{◌≡◌, ◌<◌, All, length, map, IfOk};
ghost use Rattle.std.specs.Option.{option_map};
ghost use Rattle.simplex_values.specs.declared.proposal.Proposal.{Proposal};
ghost use Rattle.simplex_values.specs.declared.round.Round.{Round};
ghost use Rattle.simplex_wire.specs.declared.attestation.Attestation.{Attestation};
ghost use Rattle.simplex_wire.specs.Signatures.{IsSignatures};
ghost use Rattle.simplex_wire.specs.Certified.{is_certified, assembled, IsAssembled};
ghost use Rattle.simplex_wire.specs.Assembly.{notarization_of, nullification_of, finalization_of};
ghost use Rattle.simplex_wire.specs.Fields.{vote_subject, vote_attestation, certificate_subject, certificate_signatures};

use crate::attestation::Attestation;
use crate::certificate::{Certificate, Finalization, Notarization, Nullification};
use crate::scheme::{AssemblyError, Scheme};
use crate::vote::{Finalize, Notarize, Nullify, Vote};
use simplex_values::{Proposal, Round, Subject};
use std::alloc::{AllocError, Global};

impl Notarize {
    /// The scheme's vote, if it attests it.
    pub fn sign<S: Scheme>(scheme: &S, proposal: Proposal) -> Option<Notarize>
        ensures { result ≡ option_map (λ a. record { proposal = proposal; attestation = a })
            (S.attests scheme.now (Subject.Notarize proposal)) }
    {
        let lent = &proposal;
        let attestation = scheme.sign(&Subject::Notarize(*lent))?;
        Some(Notarize {
            proposal,
            attestation,
        })
    }

    /// Whether the signer signed this.
    pub fn verify<S: Scheme>(&self, scheme: &S) -> bool
        ensures { result ≡ S.verifies scheme.now
            (Subject.Notarize self.now.proposal) self.now.attestation }
    {
        scheme.verify_attestation(&Subject::Notarize(self.proposal), &self.attestation)
    }
}

impl Nullify {
    /// The scheme's vote, if it attests it.
    pub fn sign<S: Scheme>(scheme: &S, round: Round) -> Option<Nullify>
        ensures { result ≡ option_map (λ a. record { round = round; attestation = a })
            (S.attests scheme.now (Subject.Nullify round)) }
    {
        let lent = &round;
        let attestation = scheme.sign(&Subject::Nullify(*lent))?;
        Some(Nullify { round, attestation })
    }

    /// Whether the signer signed this.
    pub fn verify<S: Scheme>(&self, scheme: &S) -> bool
        ensures { result ≡ S.verifies scheme.now
            (Subject.Nullify self.now.round) self.now.attestation }
    {
        scheme.verify_attestation(&Subject::Nullify(self.round), &self.attestation)
    }
}

impl Finalize {
    /// The scheme's vote, if it attests it.
    pub fn sign<S: Scheme>(scheme: &S, proposal: Proposal) -> Option<Finalize>
        ensures { result ≡ option_map (λ a. record { proposal = proposal; attestation = a })
            (S.attests scheme.now (Subject.Finalize proposal)) }
    {
        let lent = &proposal;
        let attestation = scheme.sign(&Subject::Finalize(*lent))?;
        Some(Finalize {
            proposal,
            attestation,
        })
    }

    /// Whether the signer signed this.
    pub fn verify<S: Scheme>(&self, scheme: &S) -> bool
        ensures { result ≡ S.verifies scheme.now
            (Subject.Finalize self.now.proposal) self.now.attestation }
    {
        scheme.verify_attestation(&Subject::Finalize(self.proposal), &self.attestation)
    }
}

impl Vote {
    /// Whether the signer signed this.
    pub fn verify<S: Scheme>(&self, scheme: &S) -> bool
        ensures { result ≡ S.verifies scheme.now (vote_subject self.now)
            (vote_attestation self.now) }
    {
        match self {
            Vote::Notarize(vote) => vote.verify(scheme),
            Vote::Nullify(vote) => vote.verify(scheme),
            Vote::Finalize(vote) => vote.verify(scheme),
        }
    }
}

// A vote of one kind.
trait Signed {
    ghost attestation_of: { Self → Attestation };

    // The signature, and whose it is.
    fn signature(&self) -> Attestation
        ensures { result ≡ attestation_of self.now };
}

impl Signed for Notarize {
    ghost attestation_of = { λ vote. vote.attestation };

    fn signature(&self) -> Attestation {
        self.attestation
    }
}

impl Signed for Nullify {
    ghost attestation_of = { λ vote. vote.attestation };

    fn signature(&self) -> Attestation {
        self.attestation
    }
}

impl Signed for Finalize {
    ghost attestation_of = { λ vote. vote.attestation };

    fn signature(&self) -> Attestation {
        self.attestation
    }
}

// The votes' attestations, in order.
fn attestations_of<V: Signed>(alloc: Global, votes: &[V]) -> Result<Vec<Attestation>, AllocError>
    ensures { IfOk result (λ all. all.items ≡ map V.attestation_of votes.now) }
{
    let mut attestations = Vec::with_capacity(alloc, votes.len())?;
    for vote in votes {
        attestations.push(vote.signature())?;
    }
    Ok(attestations)
}

impl Notarization {
    /// The certificate of these votes, which are for one proposal and rise by signer: fewer than a quorum are
    /// `NotEnough`; else it is `RecoveryFailed` exactly where the scheme recovers nothing.
    pub fn from_notarizes<S: Scheme>(
        alloc: Global,
        scheme: &S,
        votes: &[Notarize],
    ) -> Result<Notarization, AssemblyError>
        requires some { 0 < length votes.now }
        requires one { (proposal : Proposal) × All (λ v. v.proposal ≡ proposal) votes.now }
        requires signers { IsSignatures (map (λ v. v.attestation) votes.now) }
        ensures { (proposal : Proposal) → All (λ v. v.proposal ≡ proposal) votes.now
            → IsAssembled result (notarization_of proposal
            (assembled (S.recovers scheme.now) (S.members scheme.now)
            (map (λ v. v.attestation) votes.now))) }
    {
        let attestations = attestations_of(alloc, votes)?;
        let certificate = scheme.assemble(alloc, &attestations)?;
        Ok(Notarization {
            proposal: votes[0].proposal,
            certificate,
        })
    }

    /// Whether a quorum signed this.
    pub fn verify<S: Scheme>(&self, scheme: &S) -> bool
        ensures { result ≡ is_certified (S.verifies scheme.now (Subject.Notarize self.now.proposal))
            (S.members scheme.now) self.now.certificate }
    {
        scheme.verify_certificate(&Subject::Notarize(self.proposal), &self.certificate)
    }
}

impl Nullification {
    /// The certificate of these votes, which are for one round and rise by signer: fewer than a quorum are
    /// `NotEnough`; else it is `RecoveryFailed` exactly where the scheme recovers nothing.
    pub fn from_nullifies<S: Scheme>(
        alloc: Global,
        scheme: &S,
        votes: &[Nullify],
    ) -> Result<Nullification, AssemblyError>
        requires some { 0 < length votes.now }
        requires one { (round : Round) × All (λ v. v.round ≡ round) votes.now }
        requires signers { IsSignatures (map (λ v. v.attestation) votes.now) }
        ensures { (round : Round) → All (λ v. v.round ≡ round) votes.now
            → IsAssembled result (nullification_of round
            (assembled (S.recovers scheme.now) (S.members scheme.now)
            (map (λ v. v.attestation) votes.now))) }
    {
        let attestations = attestations_of(alloc, votes)?;
        let certificate = scheme.assemble(alloc, &attestations)?;
        Ok(Nullification {
            round: votes[0].round,
            certificate,
        })
    }

    /// Whether a quorum signed this.
    pub fn verify<S: Scheme>(&self, scheme: &S) -> bool
        ensures { result ≡ is_certified (S.verifies scheme.now (Subject.Nullify self.now.round))
            (S.members scheme.now) self.now.certificate }
    {
        scheme.verify_certificate(&Subject::Nullify(self.round), &self.certificate)
    }
}

impl Finalization {
    /// The certificate of these votes, which are for one proposal and rise by signer: fewer than a quorum are
    /// `NotEnough`; else it is `RecoveryFailed` exactly where the scheme recovers nothing.
    pub fn from_finalizes<S: Scheme>(
        alloc: Global,
        scheme: &S,
        votes: &[Finalize],
    ) -> Result<Finalization, AssemblyError>
        requires some { 0 < length votes.now }
        requires one { (proposal : Proposal) × All (λ v. v.proposal ≡ proposal) votes.now }
        requires signers { IsSignatures (map (λ v. v.attestation) votes.now) }
        ensures { (proposal : Proposal) → All (λ v. v.proposal ≡ proposal) votes.now
            → IsAssembled result (finalization_of proposal
            (assembled (S.recovers scheme.now) (S.members scheme.now)
            (map (λ v. v.attestation) votes.now))) }
    {
        let attestations = attestations_of(alloc, votes)?;
        let certificate = scheme.assemble(alloc, &attestations)?;
        Ok(Finalization {
            proposal: votes[0].proposal,
            certificate,
        })
    }

    /// Whether a quorum signed this.
    pub fn verify<S: Scheme>(&self, scheme: &S) -> bool
        ensures { result ≡ is_certified (S.verifies scheme.now (Subject.Finalize self.now.proposal))
            (S.members scheme.now) self.now.certificate }
    {
        scheme.verify_certificate(&Subject::Finalize(self.proposal), &self.certificate)
    }
}

impl Certificate {
    /// Whether a quorum signed this.
    pub fn verify<S: Scheme>(&self, scheme: &S) -> bool
        ensures { result ≡ is_certified (S.verifies scheme.now (certificate_subject self.now))
            (S.members scheme.now) (certificate_signatures self.now) }
    {
        match self {
            Certificate::Notarization(it) => it.verify(scheme),
            Certificate::Nullification(it) => it.verify(scheme),
            Certificate::Finalization(it) => it.verify(scheme),
        }
    }
}
