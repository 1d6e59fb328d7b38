//! The attestations of a certificate.
ghost use Rattle.std.specs.Prelude.{◌≡◌, ◌<◌};
ghost use Rattle.std.proofs.Common.{rules};
ghost use Rattle.std.specs.Cmp.Rules.{comparing};
ghost use Rattle.std.specs.Cmp.Lexicographic.{pointwise, lists_per, lists_equiv};

use crate::attestation::Attestation;
use simplex_values::Keep;
use std::alloc::{AllocError, Global};
use std::marker::Model;

/// Fewer than 2^32 attestations, whose signers rise strictly.
#[derive(Debug, Drop)]
pub struct Signatures {
    attestations: Vec<Attestation>,
}

impl Model for Signatures {
    ghost use Rattle.std.specs.Prelude.{List};
    ghost use Rattle.simplex_wire.specs.declared.attestation.Attestation.{Attestation};

    ghost Value = { List Attestation };

    ghost use Rattle.simplex_wire.specs.Signatures.{IsSignatures};

    ghost view = { λ s. s.attestations.items };

    ghost invariant = { λ s. IsSignatures s.attestations.items };
}

impl Signatures {
    ghost use Rattle.simplex_wire.specs.Signatures.{IsSignatures};

    /// These attestations.
    pub fn new(attestations: Vec<Attestation>) -> Signatures
        requires { IsSignatures attestations.items }
        ensures { result ≡ attestations.items }
    {
        Signatures { attestations }
    }

    /// The attestations, by rising signer.
    pub fn as_slice(&self) -> &[Attestation]
        ensures value { result.now ≡ self.now }
        ensures rises { IsSignatures self.now }
    {
        &self.attestations
    }
}

impl PartialEq for Signatures {
    ghost eq = { λ a b. pointwise ⟦<Attestation as PartialEq>⟧.eq a b };

    ghost laws = { lists_per (Prim.search (comparing, rules)) };

    fn eq(&self, other: &Signatures) -> bool {
        self.attestations == other.attestations
    }
}

impl Eq for Signatures {
    ghost laws = { lists_equiv (Prim.search (comparing, rules)) };
}

impl Keep for Signatures {
    fn keep(&self, alloc: Global) -> Result<Signatures, AllocError> {
        Ok(Signatures {
            attestations: Vec::from_slice(alloc, &self.attestations)?,
        })
    }
}
