//! What came out, in words: votes and records with their views, payloads and signers.
use simplex_types::BlockCause;
use simplex_values::{Digest, Participant, Proposal, View};
use simplex_wire::{
    Artifact, Attestation, Finalization, Finalize, Notarization, Notarize, Nullification, Nullify,
    Vote,
};
use std::alloc::{AllocError, Global};

/// What came out, item by item, with commas between.
#[derive(Drop)]
pub struct Items {
    text: String,
}

impl Items {
    /// Nothing yet.
    pub fn new(alloc: Global) -> Items {
        Items {
            text: String::new(alloc),
        }
    }

    /// One more item.
    pub fn push(&mut self, item: &str) -> Result<(), AllocError> {
        if !self.text.is_empty() {
            self.text.push_str(", ")?;
        }
        self.text.push_str(item)
    }

    /// All of them, or that there is nothing.
    pub fn text(&self) -> &str {
        if self.text.is_empty() {
            return "nothing";
        }
        self.text.as_str()
    }
}

/// The members, by their numbers.
pub fn members_text(alloc: Global, members: &[Participant]) -> Result<String, AllocError> {
    let mut text = String::new(alloc);
    for member in members {
        if !text.is_empty() {
            text.push_str(" ")?;
        }
        let member = format!(in alloc; "{member}")?;
        text.push_str(member.as_str())?;
    }
    Ok(text)
}

/// A payload, by its first byte.
pub fn payload_text(alloc: Global, payload: &Digest) -> Result<String, AllocError> {
    let byte = payload.0[0];
    format!(in alloc; "{byte:02x}")
}

/// A proposal: its view, its payload and the view that it stands on, where that is not genesis.
pub fn proposal_text(alloc: Global, proposal: &Proposal) -> Result<String, AllocError> {
    let view = proposal.round.view;
    let payload = payload_text(alloc, &proposal.payload)?;
    let payload = payload.as_str();
    match proposal.parent {
        View(0) => format!(in alloc; "{view} {payload}"),
        parent => format!(in alloc; "{view} {payload} on {parent}"),
    }
}

/// What is of this kind and in this view, and who signed it, where anybody did.
fn on_view(
    alloc: Global,
    kind: &str,
    view: View,
    signatures: &[Attestation],
) -> Result<String, AllocError> {
    let text = format!(in alloc; "{kind} {view}")?;
    with_signers(alloc, text, signatures)
}

/// What is of this kind and for this proposal, and who signed it, where anybody did.
fn on_proposal(
    alloc: Global,
    kind: &str,
    proposal: &Proposal,
    signatures: &[Attestation],
) -> Result<String, AllocError> {
    let proposal = proposal_text(alloc, proposal)?;
    let text = format!(in alloc; "{kind} {}", proposal.as_str())?;
    with_signers(alloc, text, signatures)
}

fn with_signers(
    alloc: Global,
    mut text: String,
    signatures: &[Attestation],
) -> Result<String, AllocError> {
    if !signatures.is_empty() {
        text.push_str(" by")?;
    }
    for attestation in signatures {
        let signer = format!(in alloc; " {}", attestation.signer)?;
        text.push_str(signer.as_str())?;
    }
    Ok(text)
}

fn notarize(alloc: Global, it: &Notarize) -> Result<String, AllocError> {
    on_proposal(alloc, "notarize", &it.proposal, &[it.attestation])
}

fn nullify(alloc: Global, it: &Nullify) -> Result<String, AllocError> {
    on_view(alloc, "nullify", it.round.view, &[it.attestation])
}

fn finalize(alloc: Global, it: &Finalize) -> Result<String, AllocError> {
    on_proposal(alloc, "finalize", &it.proposal, &[it.attestation])
}

fn notarized(alloc: Global, kind: &str, it: &Notarization) -> Result<String, AllocError> {
    on_proposal(alloc, kind, &it.proposal, it.certificate.as_slice())
}

fn nullified(alloc: Global, it: &Nullification) -> Result<String, AllocError> {
    let signatures = it.certificate.as_slice();
    on_view(alloc, "nullification", it.round.view, signatures)
}

fn finalized(alloc: Global, it: &Finalization) -> Result<String, AllocError> {
    let signatures = it.certificate.as_slice();
    on_proposal(alloc, "finalization", &it.proposal, signatures)
}

/// What a vote is for, and whose it is.
pub fn vote_text(alloc: Global, vote: &Vote) -> Result<String, AllocError> {
    match vote {
        Vote::Notarize(it) => notarize(alloc, it),
        Vote::Nullify(it) => nullify(alloc, it),
        Vote::Finalize(it) => finalize(alloc, it),
    }
}

/// What a record of a journal is of.
pub fn artifact_text(alloc: Global, artifact: &Artifact) -> Result<String, AllocError> {
    match artifact {
        Artifact::Notarize(it) => notarize(alloc, it),
        Artifact::Notarization(it) => notarized(alloc, "notarization", it),
        Artifact::Certification(round, true) => {
            format!(in alloc; "certification {}", round.view)
        }
        Artifact::Certification(round, false) => {
            format!(in alloc; "failed certification {}", round.view)
        }
        Artifact::Nullify(it) => nullify(alloc, it),
        Artifact::Nullification(it) => nullified(alloc, it),
        Artifact::Finalize(it) => finalize(alloc, it),
        Artifact::Finalization(it) => finalized(alloc, it),
    }
}

/// Why a member is blocked.
pub fn cause_text(cause: BlockCause) -> &'static str {
    match cause {
        BlockCause::Undecodable => "undecodable bytes",
        BlockCause::WrongEpoch => "a wrong epoch",
        BlockCause::InvalidCertificate => "an invalid certificate",
        BlockCause::WrongSender => "a vote of another signer",
        BlockCause::ConflictingVotes => "conflicting votes",
        BlockCause::NullifyAndFinalize => "nullifying and finalizing",
        BlockCause::InvalidSignature => "an invalid signature",
        BlockCause::LeaderConflict => "a contradicted proposal",
        BlockCause::InvalidResponse => "an invalid response",
    }
}
