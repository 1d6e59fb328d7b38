//! Messages in words.
use simplex_mailbox::Post;
use simplex_types::{
    Attestation, Certificate, CertificateKind, Digest, Epoch, Feedback, Participant, Proposal,
    Round, View,
};
use std::alloc::{AllocError, Global};
use test_support::words_in;

/// A message of a mailbox, which words tell.
pub(super) trait Spelled: PartialEq + Sized {
    /// The message of these words, if there is one.
    fn of(alloc: Global, words: &[&str]) -> Option<Self>;

    /// Its words.
    fn text(&self, alloc: Global) -> Result<String, AllocError>;

    /// Puts the message by the call that is for it.
    fn put_into<P: Post<Self> + Drop>(self, post: P) -> Result<(P, Feedback), AllocError>;
}

/// The message of a text, if there is one.
pub(super) fn read<M: Spelled>(alloc: Global, text: &str) -> Result<Option<M>, AllocError> {
    let words = words_in(alloc, text)?;
    Ok(M::of(alloc, words.as_slice()))
}

/// The view's round in epoch 0.
pub(super) fn round(view: u64) -> Round {
    Round {
        epoch: Epoch(0),
        view: View(view),
    }
}

/// A proposal of the view, on the view before.
pub(super) fn proposal(view: u64) -> Proposal {
    Proposal {
        round: round(view),
        parent: View(view.saturating_sub(1)),
        payload: Digest([7; 32]),
    }
}

/// What stands for the signature of member 0.
pub(super) fn own() -> Attestation {
    Attestation {
        signer: Participant(0),
        signature: [0; 32],
    }
}

/// The kind and the view of a certificate.
pub(crate) fn certificate_text(
    alloc: Global,
    certificate: &Certificate,
) -> Result<String, AllocError> {
    let view = certificate.view();
    match certificate.kind() {
        CertificateKind::Notarization => format!(in alloc; "notarization {view}"),
        CertificateKind::Nullification => format!(in alloc; "nullification {view}"),
        CertificateKind::Finalization => format!(in alloc; "finalization {view}"),
    }
}
