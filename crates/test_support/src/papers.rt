//! What members of four are given: certificates that three or two of them signed, and messages of the resolver channel.
ghost use Rattle.std.specs.Prelude.{◌≡◌, ◌<◌, IfOk};

use simplex_types::{
    Attestation, Bytes, Certificate, Digest, Epoch, Keyed, Notarization, Nullification,
    Participant, Proposal, ResolverBody, ResolverMessage, Round, Scheme, Sequence, Signatures,
    Subject, View,
};
use std::alloc::{AllocError, Global};

/// A certificate of a view.
#[derive(Clone, Copy, Debug)]
pub enum Paper {
    /// A notarization.
    Notarized(u64),
    /// A nullification.
    Nullified(u64),
    /// A nullification that only two signed.
    Thin(u64),
}

/// The signature of one of four members.
fn attestation(alloc: Global, signer: u32, subject: &Subject) -> Result<Attestation, AllocError>
    requires { signer < 4 }
    ensures { IfOk result (λ a. a.signer ≡ signer) }
{
    let scheme = Keyed::new(alloc, 7, 4, Some(Participant(signer)))?;
    let signature = match scheme.sign(subject) {
        Some(signed) => signed.signature,
        None => [0; 32],
    };
    Ok(Attestation {
        signer: Participant(signer),
        signature,
    })
}

/// The signatures of three of four members.
fn three(alloc: Global, subject: &Subject) -> Result<Signatures, AllocError> {
    let first = attestation(alloc, 0, subject)?;
    let second = attestation(alloc, 1, subject)?;
    let third = attestation(alloc, 2, subject)?;
    let attestations = vec![in alloc; first, second, third]?;
    Ok(Signatures::new(attestations))
}

/// The signatures of two of four members.
fn two(alloc: Global, subject: &Subject) -> Result<Signatures, AllocError> {
    let first = attestation(alloc, 0, subject)?;
    let second = attestation(alloc, 1, subject)?;
    let attestations = vec![in alloc; first, second]?;
    Ok(Signatures::new(attestations))
}

/// The round of the view, of epoch 0.
fn round(view: u64) -> Round {
    Round {
        epoch: Epoch(0),
        view: View(view),
    }
}

fn block(view: u64) -> Proposal {
    Proposal {
        round: round(view),
        parent: View(0),
        payload: Digest([9; 32]),
    }
}

/// A notarization of the view, on genesis.
pub fn notarization(alloc: Global, view: u64) -> Result<Notarization, AllocError> {
    Ok(Notarization {
        proposal: block(view),
        certificate: three(alloc, &Subject::Notarize(block(view)))?,
    })
}

fn nullification(alloc: Global, view: u64) -> Result<Nullification, AllocError> {
    Ok(Nullification {
        round: round(view),
        certificate: three(alloc, &Subject::Nullify(round(view)))?,
    })
}

fn thin(alloc: Global, view: u64) -> Result<Nullification, AllocError> {
    Ok(Nullification {
        round: round(view),
        certificate: two(alloc, &Subject::Nullify(round(view)))?,
    })
}

/// The certificate.
pub fn certificate(alloc: Global, paper: Paper) -> Result<Certificate, AllocError> {
    match paper {
        Paper::Notarized(view) => Ok(Certificate::Notarization(notarization(alloc, view)?)),
        Paper::Nullified(view) => Ok(Certificate::Nullification(nullification(alloc, view)?)),
        Paper::Thin(view) => Ok(Certificate::Nullification(thin(alloc, view)?)),
    }
}

/// The bytes of the certificate.
pub fn bytes_of(alloc: Global, paper: Paper) -> Result<Bytes, AllocError> {
    let bytes = certificate(alloc, paper)?.encode(alloc)?;
    Ok(Sequence::from_vec(bytes))
}

/// Bytes that are no message, and no certificate.
pub fn noise(alloc: Global) -> Result<Bytes, AllocError> {
    let bytes = vec![in alloc; 9u8]?;
    Ok(Sequence::from_vec(bytes))
}

/// The bytes of a message of this number.
pub fn message(alloc: Global, id: u64, body: ResolverBody) -> Result<Bytes, AllocError> {
    let bytes = ResolverMessage { id, body }.encode(alloc)?;
    Ok(Sequence::from_vec(bytes))
}
