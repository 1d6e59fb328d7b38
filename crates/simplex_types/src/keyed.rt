//! A scheme whose signatures are digests.
ghost use Rattle.std.specs.Prelude.{◌≡◌, ◌<◌, IfOk, IfSome, true, IsTrue};
ghost use Rattle.std.specs.Option.{ForSome};
ghost use Rattle.simplex_types.specs.Keyed.{keyed_attests, keyed_verifies, keys_of};
ghost use Rattle.simplex_types.specs.KeyedLaws.{below_if_some, signer_below, signs_as_member};

use crate::keys::{Keys, is_same};
use simplex_values::{Keep, Participant, Subject, quorum};
use simplex_wire::{AssemblyError, Attestation, Scheme, Signatures};
use std::alloc::{AllocError, Global};

/// The scheme of a member, or of one who only verifies. A member's key is the SHA-256 digest of a common
/// base and its number, and its signature that of the key and the subject's bytes. So it is no secret: the
/// scheme is for runs on a test bench, where whoever makes the run holds all keys. [keys-made-once]
#[derive(Debug, Drop)]
pub struct Keyed {
    /// What all keys are made from.
    pub key_base: u64,
    /// How many members there are.
    pub participants: u32,
    /// The member that signs, if any.
    pub me: Option<Participant>,
    keys: Keys,
    ghost some: { 0 < participants },
    ghost below: { ForSome me (λ m. m < participants) },
    ghost made: { keys ≡ keys_of key_base participants },
}

impl Keyed {
    /// The scheme of member `me` among `participants`, with keys from the base.
    pub fn new(
        alloc: Global,
        key_base: u64,
        participants: u32,
        me: Option<Participant>,
    ) -> Result<Keyed, AllocError>
        requires some { 0 < participants }
        requires below { ForSome me (λ m. m < participants) }
        ensures { IfOk result (λ scheme. (scheme.key_base ≡ key_base)
            × (scheme.participants ≡ participants) × (scheme.me ≡ me)) }
    {
        Ok(Keyed {
            key_base,
            participants,
            me,
            keys: Keys::new(alloc, key_base, participants)?,
        })
    }
}

impl Scheme for Keyed {
    ghost member = { λ s. s.me };

    ghost members = { λ s. s.participants };

    ghost attests = { λ s. keyed_attests s.key_base s.me };

    ghost verifies = { λ s. keyed_verifies s.key_base s.participants };

    ghost recovers = { λ _. true };

    ghost attributable = { true };

    ghost some_member = { λ s. s.some };

    ghost me_is_below = { λ s. below_if_some s.me s.participants s.below };

    ghost signs_as_me = { λ s. signs_as_member s.key_base s.me };

    ghost signer_is_below = { λ s. signer_below s.key_base s.participants };

    fn me(&self) -> Option<Participant> {
        self.me
    }

    fn participants(&self) -> u32 {
        self.participants
    }

    #[tactic(auto, unfolding(crate::specs::Keyed::keyed_attests, crate::specs::Keyed::keyed_verifies), using(crate::proofs::KeyLists::keys_length))]
    fn sign(&self, subject: &Subject) -> Option<Attestation>
        ensures attests { result ≡ keyed_attests self.now.key_base self.now.me subject.now }
        // What it signs verifies.
        ensures verified { IfSome result
            (λ a. IsTrue (keyed_verifies self.now.key_base self.now.participants subject.now a)) }
    {
        let signer = self.me?;
        Some(Attestation {
            signer,
            signature: self.keys.signature(signer.0, subject),
        })
    }

    #[tactic(auto, unfolding(crate::specs::Keyed::keyed_verifies), using(crate::proofs::KeyLists::keys_length))]
    fn verify_attestation(&self, subject: &Subject, attestation: &Attestation) -> bool {
        let signer = attestation.signer.0;
        signer < self.participants
            && is_same(
                &attestation.signature,
                &self.keys.signature(signer, subject),
            )
    }

    fn assemble(
        &self,
        alloc: Global,
        attestations: &[Attestation],
    ) -> Result<Signatures, AssemblyError> {
        if attestations.len() < quorum(self.participants) as usize {
            return Err(AssemblyError::NotEnough);
        }
        Ok(Signatures::new(Vec::from_slice(alloc, attestations)?))
    }

    fn is_attributable() -> bool {
        true
    }
}

impl Keep for Keyed {
    fn keep(&self, alloc: Global) -> Result<Keyed, AllocError> {
        Ok(Keyed {
            key_base: self.key_base,
            participants: self.participants,
            me: self.me,
            keys: self.keys.keep(alloc)?,
        })
    }
}
