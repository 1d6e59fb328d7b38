//! Spellings that are kept.
#![tactic(auto, unfolding(crate::specs::Before::is_in))]

ghost use Rattle.std.specs.Prelude.{◌≡◌, ◌||◌, List, ℕ, false, OnOk};
ghost use Rattle.std.specs.Str.{bytes_eq};
ghost use Rattle.simplex_stored.specs.Before.{is_in};

use simplex_types::Bytes;
use std::alloc::{AllocError, Global};
use std::collections::BTreeSet;

/// A set of spellings.
#[derive(Drop)]
pub(crate) struct Spellings {
    pub(crate) bytes: BTreeSet<Vec<u8>>,
}

impl Spellings {
    /// None.
    pub(crate) fn new(alloc: Global) -> Spellings
        ensures { (bytes : List ℕ) → is_in result bytes ≡ false }
    {
        Spellings {
            bytes: BTreeSet::new(alloc),
        }
    }

    /// Whether these bytes are kept.
    pub(crate) fn contains(&self, bytes: &[u8]) -> bool
        ensures { result ≡ is_in self.now bytes.now }
    {
        self.bytes.contains(bytes)
    }

    /// Keeps these bytes.
    pub(crate) fn add(&mut self, bytes: Bytes) -> Result<(), AllocError>
        ensures { OnOk result ((other : List ℕ)
            → is_in self.new other ≡ (bytes_eq other bytes || is_in self.old other)) }
    {
        self.bytes.insert(bytes.into_vec())?;
        Ok(())
    }
}
