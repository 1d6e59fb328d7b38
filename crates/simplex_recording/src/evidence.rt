//! Whether evidence was reported before.
ghost use Rattle.std.specs.Prelude.{◌≡◌};
ghost use Rattle.std.specs.List.{list_any};
ghost use Rattle.simplex_recording.specs.Recording.{is_same_attestation, is_same_notarize, is_same_nullify, is_same_finalize, is_same_evidence};

use simplex_types::{Activity, Attestation, Finalize, Notarize, Nullify};

fn is_same_attestation(a: &Attestation, b: &Attestation) -> bool
    ensures { result ≡ is_same_attestation a.now b.now }
{
    a.signer == b.signer && a.signature == b.signature
}

fn is_same_notarize(a: &Notarize, b: &Notarize) -> bool
    ensures { result ≡ is_same_notarize a.now b.now }
{
    a.proposal.is_same(&b.proposal) && is_same_attestation(&a.attestation, &b.attestation)
}

fn is_same_nullify(a: &Nullify, b: &Nullify) -> bool
    ensures { result ≡ is_same_nullify a.now b.now }
{
    a.round == b.round && is_same_attestation(&a.attestation, &b.attestation)
}

fn is_same_finalize(a: &Finalize, b: &Finalize) -> bool
    ensures { result ≡ is_same_finalize a.now b.now }
{
    a.proposal.is_same(&b.proposal) && is_same_attestation(&a.attestation, &b.attestation)
}

/// Whether both are the same evidence: the same two votes, signatures too.
fn is_same_evidence(a: &Activity, b: &Activity) -> bool
    ensures { result ≡ is_same_evidence a.now b.now }
{
    match (a, b) {
        (Activity::ConflictingNotarize(a), Activity::ConflictingNotarize(b)) => {
            is_same_notarize(&a.first, &b.first) && is_same_notarize(&a.second, &b.second)
        }
        (Activity::ConflictingFinalize(a), Activity::ConflictingFinalize(b)) => {
            is_same_finalize(&a.first, &b.first) && is_same_finalize(&a.second, &b.second)
        }
        (Activity::NullifyFinalize(a), Activity::NullifyFinalize(b)) => {
            is_same_nullify(&a.nullify, &b.nullify) && is_same_finalize(&a.finalize, &b.finalize)
        }
        _ => false,
    }
}

/// Whether the evidence is in the list.
pub(crate) fn is_known(evidence: &Activity, known: &[Activity]) -> bool
    ensures { result ≡ list_any (is_same_evidence evidence.now) known.now }
{
    known.iter().any(|it| is_same_evidence(evidence, it))
}
