//! Against whom evidence was given.
ghost use Rattle.std.specs.Prelude.{◌≡◌, [], OnOk, OnErr};
ghost use Rattle.simplex_round.specs.Acceptance.{was_given, with_given};

use crate::evidence::Evidence;
use std::alloc::{AllocError, Global};
use std::collections::BTreeSet;
use std::marker::Model;

/// The members against whom evidence was given, by its kind.
#[derive(Debug, Drop)]
pub struct Accused {
    by_notarizes: BTreeSet<u32>,
    by_finalizes: BTreeSet<u32>,
    by_both: BTreeSet<u32>,
}

impl Model for Accused {
    ghost use Rattle.simplex_round.specs.Known.{Given};

    ghost Value = { Given };

    ghost view = { λ a. record {
      by_notarizes = a.by_notarizes.keys;
      by_finalizes = a.by_finalizes.keys;
      by_both = a.by_both.keys;
    } };
}

impl Accused {
    /// Nobody.
    pub fn new(alloc: Global) -> Accused
        ensures { result ≡ record { by_notarizes = []; by_finalizes = []; by_both = [] } }
    {
        Accused {
            by_notarizes: BTreeSet::new(alloc),
            by_finalizes: BTreeSet::new(alloc),
            by_both: BTreeSet::new(alloc),
        }
    }

    /// Whether evidence of this kind was given against its signer.
    pub fn has(&self, evidence: &Evidence) -> bool
        ensures { result ≡ was_given evidence.now self.now }
    {
        match evidence {
            Evidence::Notarizes(it) => self.by_notarizes.contains(&it.first.attestation.signer.0),
            Evidence::Finalizes(it) => self.by_finalizes.contains(&it.first.attestation.signer.0),
            Evidence::NullifyFinalize(it) => self
                .by_both
                .contains(&it.nullify.attestation.signer.0),
        }
    }

    /// Takes evidence that is given.
    pub fn add(&mut self, evidence: &Evidence) -> Result<(), AllocError>
        ensures ok { OnOk result (self.new ≡ with_given evidence.now self.old) }
        ensures err { OnErr result (self.new ≡ self.old) }
    {
        match evidence {
            Evidence::Notarizes(it) => {
                self.by_notarizes.insert(it.first.attestation.signer.0)?;
            }
            Evidence::Finalizes(it) => {
                self.by_finalizes.insert(it.first.attestation.signer.0)?;
            }
            Evidence::NullifyFinalize(it) => {
                self.by_both.insert(it.nullify.attestation.signer.0)?;
            }
        }
        Ok(())
    }
}
