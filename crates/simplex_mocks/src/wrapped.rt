//! Schemes that fail their member, and the elector beside them.
ghost use Rattle.std.specs.Prelude.{◌≡◌, ◌+◌, ◌-◌, ◌%◌, ◌<◌};
ghost use Rattle.model_faults.specs.Wrapped.{turned, first_bit, corrupted, wrapped_attests, wrapped_recovers};
ghost use Rattle.simplex_mocks.specs.WrappedLaws.{wrapped_signs};

pub use crate::wrapped_elector::{Config, Elector};
pub use model_faults::Behavior;
use sha2::{Digest as Hash, Sha256};
use simplex_types::{
    AssemblyError, Attestation, Keep, Participant, Scheme as Inner, Signatures, Subject,
    absorb_number,
};
use std::alloc::{AllocError, Global};

/// A scheme that does otherwise than the one inside, as its behavior says.
#[derive(Debug, Drop)]
pub struct Scheme<S> {
    /// The scheme inside.
    pub inner: S,
    /// What it does otherwise.
    pub behavior: Behavior,
}

impl<S> Scheme<S> {
    /// The scheme, with this behavior.
    pub fn new(inner: S, behavior: Behavior) -> Scheme<S>
        ensures inner { result.inner ≡ inner }
        ensures behavior { result.behavior ≡ behavior }
    {
        Scheme { inner, behavior }
    }
}

/// The bit that is turned first.
#[tactic(auto, unfolding(model_faults::specs::Wrapped::first_bit))]
fn first_bit(attestation: &Attestation) -> u8
    ensures { result ≡ first_bit attestation.now }
{
    let mut hasher = Sha256::new();
    absorb_number(&mut hasher, u64::from(attestation.signer.0));
    hasher.update(attestation.signature);
    let digest: [u8; 32] = hasher.finalize();
    digest[31]
}

/// The signature with one bit turned.
#[tactic(auto, unfolding(model_faults::specs::Wrapped::turned))]
fn turned(signature: &[u8; 32], bit: u8) -> [u8; 32]
    ensures { result ≡ turned bit signature.now }
{
    let mut bytes = *signature;
    let place = (bit / 8) as usize;
    bytes[place] ^= 1 << (bit % 8);
    bytes
}

/// The attestation with the first bit turned by which it no longer verifies, if there is one.
fn corrupted<S: Inner>(
    scheme: &S,
    subject: &Subject,
    attestation: &Attestation,
) -> Option<Attestation>
    ensures { result ≡ corrupted (S.verifies scheme.now subject.now) attestation.now }
{
    let first = first_bit(attestation);
    let mut place: u16 = 0;
    while place < 256 {
        let bit = ((u16::from(first) + place) % 256) as u8;
        let changed = Attestation {
            signer: attestation.signer,
            signature: turned(&attestation.signature, bit),
        };
        if !scheme.verify_attestation(subject, &changed) {
            return Some(changed);
        }
        place += 1;
    }
    None
}

impl<S: Inner> Inner for Scheme<S> {
    ghost member = { λ s. S.member s.inner };

    ghost members = { λ s. S.members s.inner };

    ghost attests = { λ s. wrapped_attests s.behavior (S.attests s.inner) (S.verifies s.inner) };

    ghost verifies = { λ s. S.verifies s.inner };

    ghost recovers = { λ s. wrapped_recovers s.behavior (S.recovers s.inner) };

    ghost attributable = { S.attributable };

    ghost some_member = { λ s. S.some_member s.inner };

    ghost me_is_below = { λ s. S.me_is_below s.inner };

    ghost signs_as_me = { λ s subject. wrapped_signs s.behavior (S.member s.inner) (S.attests s.inner)
        (S.verifies s.inner) subject (S.signs_as_me s.inner subject) };

    ghost signer_is_below = { λ s. S.signer_is_below s.inner };

    fn me(&self) -> Option<Participant> {
        self.inner.me()
    }

    fn participants(&self) -> u32 {
        self.inner.participants()
    }

    #[tactic(auto, unfolding(model_faults::specs::Wrapped::wrapped_attests))]
    fn sign(&self, subject: &Subject) -> Option<Attestation> {
        let attestation = self.inner.sign(subject)?;
        match self.behavior {
            Behavior::CorruptSignature => corrupted(&self.inner, subject, &attestation),
            Behavior::Honest | Behavior::RecoveryFailure => Some(attestation),
        }
    }

    fn verify_attestation(&self, subject: &Subject, attestation: &Attestation) -> bool {
        self.inner.verify_attestation(subject, attestation)
    }

    fn assemble(
        &self,
        alloc: Global,
        attestations: &[Attestation],
    ) -> Result<Signatures, AssemblyError> {
        let assembled = self.inner.assemble(alloc, attestations)?;
        match self.behavior {
            Behavior::RecoveryFailure => Err(AssemblyError::RecoveryFailed),
            Behavior::Honest | Behavior::CorruptSignature => Ok(assembled),
        }
    }

    fn is_attributable() -> bool {
        S::is_attributable()
    }
}

impl<S: Keep> Keep for Scheme<S> {
    fn keep(&self, alloc: Global) -> Result<Scheme<S>, AllocError> {
        Ok(Scheme {
            inner: self.inner.keep(alloc)?,
            behavior: self.behavior,
        })
    }
}
