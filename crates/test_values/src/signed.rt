//! What the only member of a network signs.
use simplex_types::{
    Digest, Epoch, Finalization, Keyed, Notarization, Nullification, Participant, Proposal, Round,
    Scheme, Signatures, Subject, View,
};
use std::alloc::{AllocError, Global};

/// The base of the keys whose signatures verify.
pub(crate) const BASE: u64 = 1;

/// The base of other keys.
pub(crate) const OTHER_BASE: u64 = 9;

/// The only member's scheme, with keys of this base.
pub(crate) fn keyed(alloc: Global, base: u64) -> Result<Keyed, AllocError> {
    Keyed::new(alloc, base, 1, Some(Participant(0)))
}

/// The view's round in epoch 0.
pub(crate) fn round(view: u64) -> Round {
    Round {
        epoch: Epoch(0),
        view: View(view),
    }
}

/// A proposal of the view.
pub(crate) fn block(view: u64, parent: u64, payload: Digest) -> Proposal {
    Proposal {
        round: round(view),
        parent: View(parent),
        payload,
    }
}

/// The member's signature on the subject, by the keys of this base.
fn signatures(alloc: Global, base: u64, subject: Subject) -> Result<Signatures, AllocError> {
    let mut attestations = Vec::new(alloc);
    if let Some(attestation) = keyed(alloc, base)?.sign(&subject) {
        attestations.push(attestation)?;
    }
    Ok(Signatures::new(attestations))
}

/// The notarization of the proposal.
pub(crate) fn notarization(
    alloc: Global,
    base: u64,
    proposal: Proposal,
) -> Result<Notarization, AllocError> {
    Ok(Notarization {
        proposal,
        certificate: signatures(alloc, base, Subject::Notarize(proposal))?,
    })
}

/// The finalization of the proposal.
pub(crate) fn finalization(
    alloc: Global,
    base: u64,
    proposal: Proposal,
) -> Result<Finalization, AllocError> {
    Ok(Finalization {
        proposal,
        certificate: signatures(alloc, base, Subject::Finalize(proposal))?,
    })
}

/// The nullification of the view.
pub(crate) fn nullification(
    alloc: Global,
    base: u64,
    view: u64,
) -> Result<Nullification, AllocError> {
    Ok(Nullification {
        round: round(view),
        certificate: signatures(alloc, base, Subject::Nullify(round(view)))?,
    })
}
