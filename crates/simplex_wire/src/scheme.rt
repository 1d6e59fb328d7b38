//! What signs and verifies.
ghost use Rattle.std.specs.Prelude.{◌≡◌, ◌<◌, ◌≤◌, ◌+◌, ◌*◌, ℕ, Bool, true, IsTrue, Option, Some, IfSome, List, length, ◌&&◌, nat_lt};
ghost use Rattle.std.specs.List.{list_all, AllPass};
ghost use Rattle.simplex_values.specs.Quorum.{quorum_of};
ghost use Rattle.simplex_values.specs.declared.proposal.Subject.{Subject};
ghost use Rattle.simplex_wire.specs.declared.attestation.Attestation.{Attestation};
ghost use Rattle.simplex_wire.specs.declared.scheme.AssemblyError.TheVariants.{Memory};
ghost use Rattle.simplex_wire.specs.Signatures.{IsSignatures};
ghost use Rattle.simplex_wire.specs.Certified.{is_certified, assembled, IsAssembled};

use crate::attestation::Attestation;
use crate::signatures::Signatures;
use simplex_values::{Participant, Subject, quorum};
use std::alloc::{AllocError, Global};
use thiserror::Error;

/// Why attestations make no certificate.
#[derive(Clone, Copy, Debug, PartialEq, Eq, Error)]
pub enum AssemblyError {
    /// The scheme recovers no certificate from them.
    #[error("no certificate can be recovered")]
    RecoveryFailed,
    /// They are fewer than a quorum.
    #[error("fewer attestations than a quorum")]
    NotEnough,
    /// Want of memory.
    #[error("out of memory")]
    Memory,
}

impl From<AllocError> for AssemblyError {
    ghost from_gives = { λ _ e. e ≡ Memory };

    fn from(_e: AllocError) -> AssemblyError {
        AssemblyError::Memory
    }
}

/// Signs for one member, or for none, and verifies for all.
pub trait Scheme {
    // the member that signs, if any
    ghost member: { Self → Option ℕ };

    // how many members there are
    ghost members: { Self → ℕ };

    // the attestation that it gives of a subject
    ghost attests: { Self → Subject → Option Attestation };

    // whether an attestation verifies on a subject
    ghost verifies: { Self → Subject → Attestation → Bool };

    // whether attestations can be made into a certificate
    ghost recovers: { Self → Bool };

    // whether an attestation proves to others who signed
    ghost attributable: { Bool };

    /// The member that signs, if any.
    fn me(&self) -> Option<Participant>
        ensures { result ≡ member self.now };

    /// How many members there are: at least 1.
    fn participants(&self) -> u32
        ensures { result ≡ members self.now };

    /// The member's attestation of the subject, if it has one.
    fn sign(&self, subject: &Subject) -> Option<Attestation>
        ensures { result ≡ attests self.now subject.now };

    /// Whether the attestation is the signer's on the subject.
    fn verify_attestation(&self, subject: &Subject, attestation: &Attestation) -> bool
        ensures { result ≡ verifies self.now subject.now attestation.now };

    /// The attestations as those of a certificate. Fewer than a quorum are `NotEnough`; else it is
    /// `RecoveryFailed` exactly where the scheme recovers nothing.
    fn assemble(
        &self,
        alloc: Global,
        attestations: &[Attestation],
    ) -> Result<Signatures, AssemblyError>
        requires { IsSignatures attestations.now }
        ensures { IsAssembled result (assembled (recovers self.now)
            (members self.now) attestations.now) };

    /// Whether an attestation proves to others who signed.
    fn is_attributable() -> bool
        ensures { result ≡ attributable };

    /// Whether a quorum of members signed the subject, each once and with an attestation that verifies.
    #[tactic(auto, unfolding(crate::specs::Certified::is_certified))]
    final fn verify_certificate(&self, subject: &Subject, certificate: &Signatures) -> bool
        ensures { result ≡ is_certified (verifies self.now subject.now)
            (members self.now) certificate.now }
    {
        let n = self.participants();
        let attestations = certificate.as_slice();
        attestations.len() >= quorum(n) as usize && all_verify(self, subject, n, attestations)
    }

    /// The most bytes that the attestations of a certificate of `n` members take.
    fn max_certificate_size(n: u32) -> usize
        ensures { result ≡ 5 + 37 * n }
    {
        5 + 37 * n as usize
    }

    // ---- laws

    // there is a member
    ghost some_member: { (s : Self) → 0 < members s };

    // the member that signs is one of them
    ghost me_is_below: { (s : Self) → IfSome (member s) (λ m. m < members s) };

    // what is signed names the member that signs
    ghost signs_as_me: { (s : Self) (subject : Subject) → IfSome (attests s subject) (λ a. member s ≡ Some a.signer) };

    // an attestation that verifies is a member's
    ghost signer_is_below: { (s : Self) (subject : Subject) (a : Attestation)
        → verifies s subject a ≡ true → a.signer < members s };
}

/// Whether each signer is one of the `n` members and signed the subject.
fn all_verify<S: Scheme>(
    scheme: &S,
    subject: &Subject,
    n: u32,
    attestations: &[Attestation],
) -> bool
    ensures { result ≡ list_all (λ a. nat_lt a.signer n
        && S.verifies scheme.now subject.now a) attestations.now }
{
    attestations.iter().all(|a| a.signer.0 < n && scheme.verify_attestation(subject, a))
}

/// By every scheme, attestations of a quorum that each verify make a certificate that verifies.
pub fn a_verifying_quorum_certifies<S: Scheme>()
    ensures { (scheme : S) (subject : Subject) (list : List Attestation)
        → IsSignatures list → quorum_of (S.members scheme) ≤ length list
        → AllPass (S.verifies scheme subject) list
        → IsTrue (is_certified (S.verifies scheme subject) (S.members scheme) list) }
{}
