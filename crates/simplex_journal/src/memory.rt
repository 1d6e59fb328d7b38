//! A journal in memory.
ghost use Rattle.std.specs.Prelude.{◌≡◌, ◌↔◌, [], Some, if◌then◌else◌, IfOk, IsErrOf, IsTrue};
ghost use Rattle.simplex_journal.specs.Journal.{appended, synced_at, all_synced, pruned, pruned_first, crashed, replayed};
ghost use Rattle.simplex_journal.specs.Memory.{Contents, sections_of, answer_of, after_call};
ghost use Rattle.simplex_journal.specs.Order.{no_order, names_next, counted};

use crate::error::JournalError;
use crate::journal::Journal;
use crate::lists::SectionLists;
use crate::sections::{
    Sections, append_to, copies_of, crash_each, drop_below, drop_first, sync_at, sync_each,
};
use simplex_values::Keep;
use simplex_wire::Artifact;
use std::alloc::Global;
use std::collections::BTreeMap;
use std::marker::Model;

/// A journal in memory. It tells its order, and fails only where it is ordered to.
#[derive(Drop)]
pub struct MemoryJournal {
    sections: Sections,
    faults: u64,
    // which call is to fail, counted from now on and from 1; 0: none
    failing_call: u64,
    // how many sections a prune drops that fails so
    failing_sections: u64,
}

impl Model for MemoryJournal {
    ghost Value = { Contents };

    ghost view = { λ journal. record {
      sections = sections_of journal.sections.entries;
      faults = journal.faults;
      order = record { call = journal.failing_call; sections = journal.failing_sections };
    } };
}

impl MemoryJournal {
    /// A journal with no section and no order.
    #[tactic(auto, unfolding(crate::specs::Memory::sections_of))]
    pub fn new(alloc: Global) -> MemoryJournal
        ensures { result ≡ record { sections = []; faults = 0; order = no_order } }
    {
        MemoryJournal {
            sections: Sections::new(alloc),
            faults: 0,
            failing_call: 0,
            failing_sections: 0,
        }
    }

    /// Its sections, by number.
    pub fn sections(&self) -> &BTreeMap<u64, SectionLists>
        ensures { sections_of result.now.entries ≡ self.now.sections }
    {
        &self.sections
    }
}

impl MemoryJournal {
    // Fails where the order names this call, which is counted then.
    fn obey(&mut self) -> Result<(), JournalError>
        ensures answer { result ≡ answer_of self.old.order }
        ensures contents { self.new ≡ (if names_next self.old.order
            then after_call self.old self.old.sections self.old.sections else self.old) }
    {
        if self.failing_call != 1 {
            return Ok(());
        }
        self.failing_call = 0;
        self.faults = self.faults.saturating_add(1);
        Err(JournalError::Failed)
    }

    // Counts a call that ended well.
    fn count_call(&mut self)
        ensures { self.new ≡ record {
          sections = self.old.sections;
          faults = self.old.faults;
          order = counted self.old.order;
        } }
    {
        self.failing_call = self.failing_call.saturating_sub(1);
    }
}

impl Journal for MemoryJournal {
    ghost sections = { λ journal. journal.sections };

    ghost fault_count = { λ journal. journal.faults };

    ghost order = { λ journal. Some journal.order };

    fn append(
        &mut self,
        alloc: Global,
        section: u64,
        artifact: &Artifact,
    ) -> Result<(), JournalError>
        ensures named { IsErrOf result JournalError.Failed ↔ IsTrue (names_next self.old.order) }
        ensures contents { ¬ IsErrOf result JournalError.Memory
            → self.new ≡ after_call self.old self.old.sections
            (appended section artifact.now self.old.sections) }
        ensures memory { IsErrOf result JournalError.Memory → self.new ≡ self.old }
    {
        // The order comes first: a call that fails copies nothing.
        self.obey()?;
        append_to(&mut self.sections, alloc, section, artifact.keep(alloc)?)?;
        self.count_call();
        Ok(())
    }

    fn sync(&mut self, section: u64) -> Result<(), JournalError>
        ensures answer { result ≡ answer_of self.old.order }
        ensures contents { self.new
            ≡ after_call self.old self.old.sections (synced_at section self.old.sections) }
    {
        self.obey()?;
        sync_at(&mut self.sections, section);
        self.count_call();
        Ok(())
    }

    fn sync_all(&mut self) -> Result<(), JournalError>
        ensures answer { result ≡ answer_of self.old.order }
        ensures contents { self.new
            ≡ after_call self.old self.old.sections (all_synced self.old.sections) }
    {
        self.obey()?;
        sync_each(&mut self.sections);
        self.count_call();
        Ok(())
    }

    fn prune(&mut self, min: u64) -> Result<(), JournalError>
        ensures answer { result ≡ answer_of self.old.order }
        ensures contents { self.new ≡ after_call self.old (pruned_first self.old.order.sections min self.old.sections)
            (pruned min self.old.sections) }
    {
        if let Err(failed) = self.obey() {
            drop_first(&mut self.sections, self.failing_sections, min);
            return Err(failed);
        }
        drop_below(&mut self.sections, min);
        self.count_call();
        Ok(())
    }

    fn replay(&mut self, alloc: Global) -> Result<Vec<Artifact>, JournalError>
        ensures records { IfOk result (λ records. records.items ≡ replayed self.old.sections) }
        ensures named { IsErrOf result JournalError.Failed ↔ IsTrue (names_next self.old.order) }
        ensures contents { ¬ IsErrOf result JournalError.Memory
            → self.new ≡ after_call self.old self.old.sections self.old.sections }
        ensures memory { IsErrOf result JournalError.Memory → self.new ≡ self.old }
    {
        self.obey()?;
        let records = copies_of(alloc, &self.sections)?;
        self.count_call();
        Ok(records)
    }

    // [faults-only-rise]
    fn faults(&self) -> u64 {
        self.faults
    }

    fn crash(&mut self, keep: u64)
        ensures { self.new ≡ record self.old { sections = crashed keep self.old.sections } }
    {
        crash_each(&mut self.sections, keep);
    }

    fn fail_next(&mut self, call: u64, dropped: u64)
        ensures { self.new ≡ record self.old {
          order = record {
            call = call;
            sections = dropped;
          };
        } }
    {
        self.failing_call = call;
        self.failing_sections = dropped;
    }
}
