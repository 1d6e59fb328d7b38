//! The records of one section.
ghost use Rattle.std.specs.Prelude.{◌≡◌, ◌≤◌, ◌++◌, ◌∷◌, [], OnOk, OnErr, take, drop, vec_len};
ghost use Rattle.simplex_journal.specs.Memory.{Lists};

use simplex_values::Keep;
use simplex_wire::Artifact;
use std::alloc::{AllocError, Global};
use std::marker::Model;

/// Records in the order of their appends, the first of them synced.
#[derive(Drop)]
pub struct SectionLists {
    records: Vec<Artifact>,
    synced: usize,
}

impl Model for SectionLists {
    ghost Value = { Lists };

    ghost view = { λ lists. record {
      synced = take lists.synced lists.records.items;
      pending = drop lists.synced lists.records.items;
    } };

    ghost invariant = { λ lists. lists.synced ≤ vec_len lists.records };
}

impl SectionLists {
    /// Its synced records, in the order of their appends.
    pub fn synced(&self) -> &[Artifact]
        ensures { result.now ≡ self.now.synced }
    {
        &self.records[..self.synced]
    }

    /// No records.
    pub(crate) fn new(alloc: Global) -> SectionLists
        ensures { result ≡ record { synced = []; pending = [] } }
    {
        SectionLists {
            records: Vec::new(alloc),
            synced: 0,
        }
    }

    /// Puts a record behind the pending ones.
    pub(crate) fn append(&mut self, artifact: Artifact) -> Result<(), AllocError>
        ensures ok { OnOk result (self.new
            ≡ record self.old { pending = self.old.pending ++ artifact ∷ [] }) }
        ensures err { OnErr result (self.new ≡ self.old) }
    {
        self.records.push(artifact)?;
        Ok(())
    }

    /// Counts all records as synced.
    pub(crate) fn sync(&mut self)
        ensures { self.new ≡ record { synced = self.old.synced ++ self.old.pending; pending = [] } }
    {
        self.synced = self.records.len();
    }

    /// Keeps the first pending records alone, and counts them as synced.
    pub(crate) fn crash(&mut self, keep: u64)
        ensures { self.new ≡ record {
          synced = self.old.synced
              ++ take keep self.old.pending;
          pending = [];
        } }
    {
        let pending = self.records.len() - self.synced;
        let kept = keep.min(pending as u64) as usize;
        self.synced += kept;
        self.records.truncate(self.synced);
    }

    /// Puts copies of all records behind those that are there.
    pub(crate) fn copy_to(
        &self,
        alloc: Global,
        copies: &mut Vec<Artifact>,
    ) -> Result<(), AllocError>
        ensures { OnOk result (copies.new.items
            ≡ copies.old.items ++ self.now.synced ++ self.now.pending) }
    {
        for record in &self.records {
            copies.push(record.keep(alloc)?)?;
        }
        Ok(())
    }
}
