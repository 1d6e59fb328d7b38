//! What is known of blocks, by their digests.
#![tactic(auto, unfolding(crate::specs::Index::found_at))]

ghost use Rattle.std.specs.Prelude.{◌≡◌, List, ℕ, Some, None, OnOk, if◌then◌else◌};
ghost use Rattle.std.specs.Option.{option_copied};
ghost use Rattle.std.specs.Str.{bytes_eq};
ghost use Rattle.simplex_ledger.specs.Index.{found_at};

use model_ledger::Transfer;
use simplex_values::Sequence;
use std::alloc::{AllocError, Global};
use std::collections::BTreeMap;

/// What is known of a block.
#[derive(Debug, Drop)]
pub(crate) struct Found {
    /// Its place among the blocks, from 0.
    pub place: u64,
    /// Its transfers, where it decodes.
    pub transfers: Option<Sequence<Transfer>>,
}

/// What is known of each block, by its digest.
#[derive(Debug, Drop)]
pub(crate) struct Index {
    found: BTreeMap<[u8; 32], Found>,
}

impl Index {
    /// No blocks.
    pub(crate) fn new(alloc: Global) -> Index
        ensures { (q : List ℕ) → found_at result q ≡ None }
    {
        Index {
            found: BTreeMap::new(alloc),
        }
    }

    /// What is known of the block with this digest.
    pub(crate) fn get(&self, digest: &[u8; 32]) -> Option<&Found>
        ensures { option_copied result ≡ found_at self.now digest.now }
    {
        self.found.get(digest)
    }

    /// Makes this what is known of the block with this digest.
    pub(crate) fn insert(&mut self, digest: [u8; 32], found: Found) -> Result<(), AllocError>
        ensures { OnOk result ((q : List ℕ)
            → found_at self.new q
            ≡ (if bytes_eq digest q then Some found else found_at self.old q)) }
    {
        self.found.insert(digest, found)?;
        Ok(())
    }
}
