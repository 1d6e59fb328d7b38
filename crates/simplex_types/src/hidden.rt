//! A scheme whose attestations do not prove to others who signed.
ghost use Rattle.std.specs.Prelude.{◌≡◌, ◌<◌, IfOk, IfSome, IsTrue, false};
ghost use Rattle.std.specs.Option.{ForSome};
ghost use Rattle.simplex_types.specs.Keyed.{keyed_attests, keyed_verifies};
ghost use Rattle.simplex_types.specs.KeyedLaws.{below_if_some, signer_below, signs_as_member};

use crate::keyed::Keyed;
use simplex_values::{Keep, Participant, Subject};
use simplex_wire::{AssemblyError, Attestation, Scheme, Signatures};
use std::alloc::{AllocError, Global};

/// [`Keyed`], but that its attestations are not attributable.
#[derive(Debug, Drop)]
pub struct Hidden {
    /// What signs and verifies.
    pub inner: Keyed,
}

impl Hidden {
    /// The scheme of member `me` among `participants`, with keys from the base.
    pub fn new(
        alloc: Global,
        key_base: u64,
        participants: u32,
        me: Option<Participant>,
    ) -> Result<Hidden, AllocError>
        requires some { 0 < participants }
        requires below { ForSome me (λ m. m < participants) }
        ensures { IfOk result (λ scheme. (scheme.inner.key_base ≡ key_base)
            × (scheme.inner.participants ≡ participants) × (scheme.inner.me ≡ me)) }
    {
        Ok(Hidden {
            inner: Keyed::new(alloc, key_base, participants, me)?,
        })
    }
}

impl Scheme for Hidden {
    ghost member = { λ s. ⟦<Keyed as Scheme>⟧.member s.inner };

    ghost members = { λ s. ⟦<Keyed as Scheme>⟧.members s.inner };

    ghost attests = { λ s. ⟦<Keyed as Scheme>⟧.attests s.inner };

    ghost verifies = { λ s. ⟦<Keyed as Scheme>⟧.verifies s.inner };

    ghost recovers = { λ s. ⟦<Keyed as Scheme>⟧.recovers s.inner };

    ghost attributable = { false };

    ghost some_member = { λ s. s.inner.some };

    ghost me_is_below = { λ s. below_if_some s.inner.me s.inner.participants s.inner.below };

    ghost signs_as_me = { λ s. signs_as_member s.inner.key_base s.inner.me };

    ghost signer_is_below = { λ s. signer_below s.inner.key_base s.inner.participants };

    fn me(&self) -> Option<Participant> {
        self.inner.me()
    }

    fn participants(&self) -> u32 {
        self.inner.participants()
    }

    fn sign(&self, subject: &Subject) -> Option<Attestation>
        ensures attests { result
            ≡ keyed_attests self.now.inner.key_base self.now.inner.me subject.now }
        // What it signs verifies.
        ensures verified { IfSome result (λ a. IsTrue
            (keyed_verifies self.now.inner.key_base self.now.inner.participants subject.now a)) }
    {
        self.inner.sign(subject)
    }

    fn verify_attestation(&self, subject: &Subject, attestation: &Attestation) -> bool {
        self.inner.verify_attestation(subject, attestation)
    }

    fn assemble(
        &self,
        alloc: Global,
        attestations: &[Attestation],
    ) -> Result<Signatures, AssemblyError> {
        self.inner.assemble(alloc, attestations)
    }

    fn is_attributable() -> bool {
        false
    }
}

impl Keep for Hidden {
    fn keep(&self, alloc: Global) -> Result<Hidden, AllocError> {
        Ok(Hidden {
            inner: self.inner.keep(alloc)?,
        })
    }
}
