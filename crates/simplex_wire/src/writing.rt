//! Writing at the end of a buffer.
ghost use Rattle.std.specs.Prelude.{◌≡◌, ◌++◌, OnOk, ◌<◌, ◌^◌};
ghost use Rattle.simplex_wire.specs.ResolverMessage.{wide, counted, body, resolver_message, FitsNumbers};
ghost use Rattle.simplex_wire.specs.Number.{varint};
ghost use Rattle.simplex_wire.specs.Fits.{IsBytes, IsRaw, FitsRound, FitsProposal, FitsAttestation, FitsNotarize, FitsNullify, FitsFinalize, FitsVote, FitsSignatures, FitsNotarization, FitsNullification, FitsFinalization, FitsCertificate};
ghost use Rattle.simplex_wire.specs.Artifact.{artifact, FitsArtifact};
ghost use Rattle.simplex_wire.specs.Message.{round, proposal, attestation, notarize, nullify, finalize, vote, signatures, notarization, nullification, finalization, certificate};
ghost use Rattle.std.specs.List.{flat_map, AllByRecursion};

use crate::artifact::Artifact;
use crate::attestation::Attestation;
use crate::certificate::{Certificate, Finalization, Notarization, Nullification};
use crate::resolver::{ResolverBody, ResolverMessage};
use crate::signatures::Signatures;
use crate::vote::{Finalize, Notarize, Nullify, Vote};
use simplex_values::{Proposal, Round};
use std::alloc::AllocError;

/// The most bytes that an attestation may need.
const ATTESTATION_ROOM: usize = 37;

/// Writes the number in its shortest form, little-endian in base 128. For want of memory a first part of it may be written.
pub fn push_number(out: &mut Vec<u8>, number: u64) -> Result<(), AllocError>
    ensures { OnOk result (out.new.items ≡ out.old.items ++ varint number) }
{
    let mut rest = number;
    while rest >= 128 {
        out.push((rest % 128) as u8 + 128)?;
        rest /= 128;
    }
    out.push(rest as u8)?;
    Ok(())
}

/// Writes the bytes as they stand.
fn push_bytes32(out: &mut Vec<u8>, bytes: &[u8; 32]) -> Result<(), AllocError>
    ensures spelled { OnOk result (out.new.items ≡ out.old.items ++ bytes.now) }
    ensures fits { OnOk result (IsRaw 32 bytes.now) }
{
    out.extend_from_slice(bytes)
}

#[tactic(auto, unfolding(crate::specs::Message::round))]
fn push_round(out: &mut Vec<u8>, written: &Round) -> Result<(), AllocError>
    ensures spelled { OnOk result (out.new.items ≡ out.old.items ++ round.spelling written.now) }
    ensures fits { OnOk result (FitsRound written.now) }
{
    push_number(out, written.epoch.0)?;
    push_number(out, written.view.0)
}

#[tactic(auto, unfolding(crate::specs::Message::proposal))]
fn push_proposal(out: &mut Vec<u8>, written: &Proposal) -> Result<(), AllocError>
    ensures spelled { OnOk result (out.new.items ≡ out.old.items ++ proposal.spelling written.now) }
    ensures fits { OnOk result (FitsProposal written.now) }
{
    push_round(out, &written.round)?;
    push_number(out, written.parent.0)?;
    push_bytes32(out, &written.payload.0)
}

impl Attestation {
    #[tactic(auto, unfolding(crate::specs::Message::attestation))]
    fn push(&self, out: &mut Vec<u8>) -> Result<(), AllocError>
        ensures spelled { OnOk result (out.new.items
            ≡ out.old.items ++ attestation.spelling self.now) }
        ensures fits { OnOk result (FitsAttestation self.now) }
    {
        push_number(out, u64::from(self.signer.0))?;
        push_bytes32(out, &self.signature)
    }
}

impl Notarize {
    #[tactic(auto, unfolding(crate::specs::Message::notarize))]
    fn push(&self, out: &mut Vec<u8>) -> Result<(), AllocError>
        ensures spelled { OnOk result (out.new.items
            ≡ out.old.items ++ notarize.spelling self.now) }
        ensures fits { OnOk result (FitsNotarize self.now) }
    {
        push_proposal(out, &self.proposal)?;
        self.attestation.push(out)
    }
}

impl Nullify {
    #[tactic(auto, unfolding(crate::specs::Message::nullify))]
    fn push(&self, out: &mut Vec<u8>) -> Result<(), AllocError>
        ensures spelled { OnOk result (out.new.items ≡ out.old.items ++ nullify.spelling self.now) }
        ensures fits { OnOk result (FitsNullify self.now) }
    {
        push_round(out, &self.round)?;
        self.attestation.push(out)
    }
}

impl Finalize {
    #[tactic(auto, unfolding(crate::specs::Message::finalize))]
    fn push(&self, out: &mut Vec<u8>) -> Result<(), AllocError>
        ensures spelled { OnOk result (out.new.items
            ≡ out.old.items ++ finalize.spelling self.now) }
        ensures fits { OnOk result (FitsFinalize self.now) }
    {
        push_proposal(out, &self.proposal)?;
        self.attestation.push(out)
    }
}

impl Vote {
    #[tactic(auto, unfolding(crate::specs::Message::vote))]
    pub(crate) fn push(&self, out: &mut Vec<u8>) -> Result<(), AllocError>
        ensures spelled { OnOk result (out.new.items ≡ out.old.items ++ vote.spelling self.now) }
        ensures fits { OnOk result (FitsVote self.now) }
    {
        match self {
            Vote::Notarize(vote) => {
                out.push(0)?;
                vote.push(out)
            }
            Vote::Nullify(vote) => {
                out.push(1)?;
                vote.push(out)
            }
            Vote::Finalize(vote) => {
                out.push(2)?;
                vote.push(out)
            }
        }
    }
}

fn push_attestations(out: &mut Vec<u8>, attestations: &[Attestation]) -> Result<(), AllocError>
    ensures spelled { OnOk result (out.new.items
        ≡ out.old.items ++ flat_map attestation.spelling attestations.now) }
    ensures fits { OnOk result (AllByRecursion FitsAttestation attestations.now) }
{
    for attestation in attestations {
        attestation.push(out)?;
    }
    Ok(())
}

impl Signatures {
    #[tactic(auto, unfolding(crate::specs::Message::signatures))]
    fn push(&self, out: &mut Vec<u8>) -> Result<(), AllocError>
        ensures spelled { OnOk result (out.new.items
            ≡ out.old.items ++ signatures.spelling self.now) }
        ensures fits { OnOk result (FitsSignatures self.now) }
    {
        let attestations = self.as_slice();
        out.reserve(attestations.len().saturating_mul(ATTESTATION_ROOM))?;
        push_number(out, attestations.len() as u64)?;
        push_attestations(out, attestations)
    }
}

impl Notarization {
    #[tactic(auto, unfolding(crate::specs::Message::notarization))]
    fn push(&self, out: &mut Vec<u8>) -> Result<(), AllocError>
        ensures spelled { OnOk result (out.new.items
            ≡ out.old.items ++ notarization.spelling self.now) }
        ensures fits { OnOk result (FitsNotarization self.now) }
    {
        push_proposal(out, &self.proposal)?;
        self.certificate.push(out)
    }
}

impl Nullification {
    #[tactic(auto, unfolding(crate::specs::Message::nullification))]
    fn push(&self, out: &mut Vec<u8>) -> Result<(), AllocError>
        ensures spelled { OnOk result (out.new.items
            ≡ out.old.items ++ nullification.spelling self.now) }
        ensures fits { OnOk result (FitsNullification self.now) }
    {
        push_round(out, &self.round)?;
        self.certificate.push(out)
    }
}

impl Finalization {
    #[tactic(auto, unfolding(crate::specs::Message::finalization))]
    fn push(&self, out: &mut Vec<u8>) -> Result<(), AllocError>
        ensures spelled { OnOk result (out.new.items
            ≡ out.old.items ++ finalization.spelling self.now) }
        ensures fits { OnOk result (FitsFinalization self.now) }
    {
        push_proposal(out, &self.proposal)?;
        self.certificate.push(out)
    }
}

impl Certificate {
    #[tactic(auto, unfolding(crate::specs::Message::certificate))]
    pub(crate) fn push(&self, out: &mut Vec<u8>) -> Result<(), AllocError>
        ensures spelled { OnOk result (out.new.items
            ≡ out.old.items ++ certificate.spelling self.now) }
        ensures fits { OnOk result (FitsCertificate self.now) }
    {
        match self {
            Certificate::Notarization(certificate) => {
                out.push(0)?;
                certificate.push(out)
            }
            Certificate::Nullification(certificate) => {
                out.push(1)?;
                certificate.push(out)
            }
            Certificate::Finalization(certificate) => {
                out.push(2)?;
                certificate.push(out)
            }
        }
    }
}

impl Artifact {
    #[tactic(auto, unfolding(crate::specs::Artifact::artifact, crate::specs::Artifact::certification, crate::specs::Artifact::flag))]
    pub(crate) fn push(&self, out: &mut Vec<u8>) -> Result<(), AllocError>
        ensures spelled { OnOk result (out.new.items
            ≡ out.old.items ++ artifact.spelling self.now) }
        ensures fits { OnOk result (FitsArtifact self.now) }
    {
        match self {
            Artifact::Notarize(it) => {
                out.push(0)?;
                it.push(out)
            }
            Artifact::Notarization(it) => {
                out.push(1)?;
                it.push(out)
            }
            Artifact::Certification(round, verdict) => {
                out.push(2)?;
                push_round(out, round)?;
                Ok(out.push(u8::from(*verdict))?)
            }
            Artifact::Nullify(it) => {
                out.push(3)?;
                it.push(out)
            }
            Artifact::Nullification(it) => {
                out.push(4)?;
                it.push(out)
            }
            Artifact::Finalize(it) => {
                out.push(5)?;
                it.push(out)
            }
            Artifact::Finalization(it) => {
                out.push(6)?;
                it.push(out)
            }
        }
    }
}

/// Writes a length, and the bytes.
fn push_counted(out: &mut Vec<u8>, bytes: &[u8]) -> Result<(), AllocError>
    ensures spelled { OnOk result (out.new.items ≡ out.old.items ++ counted.spelling bytes.now) }
    ensures fits { OnOk result (IsBytes bytes.now) }
{
    push_number(out, bytes.len() as u64)?;
    out.extend_from_slice(bytes)
}

/// Writes eight bytes, the highest first. [long-responses]
fn push_wide(out: &mut Vec<u8>, number: u64) -> Result<(), AllocError>
    ensures { OnOk result (out.new.items ≡ out.old.items ++ wide.spelling number) }
{
    out.extend_from_slice(&number.to_be_bytes())
}

impl ResolverBody {
    #[tactic(auto, unfolding(crate::specs::ResolverMessage::body))]
    fn push(&self, out: &mut Vec<u8>) -> Result<(), AllocError>
        ensures spelled { OnOk result (out.new.items ≡ out.old.items ++ body.spelling self.now) }
        ensures fits { OnOk result (FitsNumbers self.now) }
    {
        match self {
            ResolverBody::Request { view } => {
                out.push(0)?;
                push_wide(out, view.0)
            }
            ResolverBody::Response { bytes } => {
                out.push(1)?;
                push_counted(out, bytes.as_slice())
            }
            ResolverBody::Error => Ok(out.push(2)?),
        }
    }
}

impl ResolverMessage {
    #[tactic(auto, unfolding(crate::specs::ResolverMessage::resolver_message))]
    pub(crate) fn push(&self, out: &mut Vec<u8>) -> Result<(), AllocError>
        ensures spelled { OnOk result (out.new.items
            ≡ out.old.items ++ resolver_message.spelling self.now) }
        ensures fits { OnOk result ((self.now.id < 2 ^ 64) × FitsNumbers self.now.body) }
    {
        push_wide(out, self.id)?;
        self.body.push(out)
    }
}
