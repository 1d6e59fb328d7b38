//! Messages that are about the same.
ghost use Rattle.std.specs.Prelude.{◌≡◌};
ghost use Rattle.model_rules.specs.Known.{is_same_kind};
ghost use Rattle.simplex_messages.specs.Policies.{are_alike, are_same_ask};

use simplex_types::{Certificate, CertificateKind, Kind};

/// Whether both are one kind.
pub(crate) fn is_same_kind(a: CertificateKind, b: CertificateKind) -> bool
    ensures { result ≡ is_same_kind a b }
{
    match (a, b) {
        (CertificateKind::Notarization, CertificateKind::Notarization) => true,
        (CertificateKind::Nullification, CertificateKind::Nullification) => true,
        (CertificateKind::Finalization, CertificateKind::Finalization) => true,
        _ => false,
    }
}

/// Whether the certificates are of one view and kind.
pub(crate) fn are_alike(a: &Certificate, b: &Certificate) -> bool
    ensures { result ≡ are_alike a.now b.now }
{
    a.view() == b.view() && is_same_kind(a.kind(), b.kind())
}

/// Whether the same is asked for.
pub(crate) fn are_same_ask(a: Kind, b: Kind) -> bool
    ensures { result ≡ are_same_ask a b }
{
    match (a, b) {
        (Kind::Nullification, Kind::Nullification) => true,
        (Kind::Notarization, Kind::Notarization) => true,
        _ => false,
    }
}
