//! Votes, certificates, records and messages in words.
use simplex_types::{
    Artifact, Attestation, Certificate, CertificateKind, Proposal, ResolverBody, ResolverMessage,
    Round, Signatures, Vote,
};
use std::alloc::{AllocError, Global};
use test_support::bytes_text;

fn proposal_text(alloc: Global, proposal: &Proposal) -> Result<String, AllocError> {
    let (round, parent) = (proposal.round, proposal.parent);
    let payload = bytes_text(alloc, proposal.payload.0.as_slice())?;
    let payload = payload.as_str();
    format!(in alloc; "{round} on {parent} payload {payload}")
}

fn signed_text(alloc: Global, attestation: &Attestation) -> Result<String, AllocError> {
    let signer = attestation.signer;
    let signature = bytes_text(alloc, attestation.signature.as_slice())?;
    let signature = signature.as_str();
    format!(in alloc; "{signer} signed {signature}")
}

fn signatures_text(alloc: Global, signatures: &Signatures) -> Result<String, AllocError> {
    let mut text = String::new(alloc);
    for attestation in signatures.as_slice() {
        if !text.is_empty() {
            text.push_str(", ")?;
        }
        text.push_str(signed_text(alloc, attestation)?.as_str())?;
    }
    Ok(text)
}

fn about_proposal(
    alloc: Global,
    word: &str,
    proposal: &Proposal,
    signed: &str,
) -> Result<String, AllocError> {
    let about = proposal_text(alloc, proposal)?;
    format!(in alloc; "{word} {}: {signed}", about.as_str())
}

fn about_round(
    alloc: Global,
    word: &str,
    round: Round,
    signed: &str,
) -> Result<String, AllocError> {
    format!(in alloc; "{word} {round}: {signed}")
}

/// A vote. Its round and its signer, as they are told by its own calls, stand first.
pub(super) fn tell_vote(alloc: Global, vote: &Vote) -> Result<String, AllocError> {
    let (round, signer) = (vote.round(), vote.signer());
    let text = match vote {
        Vote::Notarize(it) => {
            let signed = signed_text(alloc, &it.attestation)?;
            about_proposal(alloc, "notarize", &it.proposal, signed.as_str())?
        }
        Vote::Nullify(it) => {
            let signed = signed_text(alloc, &it.attestation)?;
            about_round(alloc, "nullify", it.round, signed.as_str())?
        }
        Vote::Finalize(it) => {
            let signed = signed_text(alloc, &it.attestation)?;
            about_proposal(alloc, "finalize", &it.proposal, signed.as_str())?
        }
    };
    let text = text.as_str();
    format!(in alloc; "{signer} in {round}: {text}")
}

fn kind_word(kind: CertificateKind) -> &'static str {
    match kind {
        CertificateKind::Notarization => "notarization",
        CertificateKind::Nullification => "nullification",
        CertificateKind::Finalization => "finalization",
    }
}

/// A certificate. Its kind, epoch and view, as they are told by its own calls, stand first.
pub(super) fn tell_certificate(
    alloc: Global,
    certificate: &Certificate,
) -> Result<String, AllocError> {
    let (epoch, view) = (certificate.epoch(), certificate.view());
    let kind = kind_word(certificate.kind());
    let signed = signatures_text(alloc, certificate.signatures())?;
    let signed = signed.as_str();
    let text = match certificate {
        Certificate::Notarization(it) => {
            about_proposal(alloc, "notarization", &it.proposal, signed)?
        }
        Certificate::Nullification(it) => about_round(alloc, "nullification", it.round, signed)?,
        Certificate::Finalization(it) => {
            about_proposal(alloc, "finalization", &it.proposal, signed)?
        }
    };
    let text = text.as_str();
    format!(in alloc; "{kind} in epoch {epoch}, view {view}: {text}")
}

fn of_certificate(alloc: Global, record: &Artifact) -> Result<String, AllocError> {
    match record {
        Artifact::Notarization(it) => {
            let signed = signatures_text(alloc, &it.certificate)?;
            about_proposal(alloc, "notarization", &it.proposal, signed.as_str())
        }
        Artifact::Nullification(it) => {
            let signed = signatures_text(alloc, &it.certificate)?;
            about_round(alloc, "nullification", it.round, signed.as_str())
        }
        Artifact::Finalization(it) => {
            let signed = signatures_text(alloc, &it.certificate)?;
            about_proposal(alloc, "finalization", &it.proposal, signed.as_str())
        }
        _ => String::from_str(alloc, "no certificate"),
    }
}

/// A record. Its round, as it is told by its own call, stands first.
pub(super) fn tell_record(alloc: Global, record: &Artifact) -> Result<String, AllocError> {
    let round = record.round();
    let text = match record {
        Artifact::Notarize(it) => {
            let signed = signed_text(alloc, &it.attestation)?;
            about_proposal(alloc, "notarize", &it.proposal, signed.as_str())?
        }
        Artifact::Nullify(it) => {
            let signed = signed_text(alloc, &it.attestation)?;
            about_round(alloc, "nullify", it.round, signed.as_str())?
        }
        Artifact::Finalize(it) => {
            let signed = signed_text(alloc, &it.attestation)?;
            about_proposal(alloc, "finalize", &it.proposal, signed.as_str())?
        }
        Artifact::Certification(round, success) => {
            format!(in alloc; "certification {round}: {success}")?
        }
        certificate => of_certificate(alloc, certificate)?,
    };
    let text = text.as_str();
    format!(in alloc; "in {round}: {text}")
}

/// A message of the resolver channel.
pub(super) fn tell_message(alloc: Global, message: &ResolverMessage) -> Result<String, AllocError> {
    let id = message.id;
    match &message.body {
        ResolverBody::Request { view } => format!(in alloc; "request {id} for view {view}"),
        ResolverBody::Response { bytes } => {
            let bytes = bytes_text(alloc, bytes.as_slice())?;
            let bytes = bytes.as_str();
            format!(in alloc; "response to {id}: {bytes}")
        }
        ResolverBody::Error => format!(in alloc; "nothing for {id}"),
    }
}
