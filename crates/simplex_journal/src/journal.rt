//! What every journal does.
ghost use Rattle.std.specs.Prelude.{◌≡◌, ℕ, List, Option, Some, IfOk, OnOk, OnErr, IfSome, IsErrOf};
ghost use Rattle.simplex_journal.specs.Faults.{Counts};
ghost use Rattle.simplex_journal.specs.Journal.{Section, appended, synced_at, all_synced, pruned, crashed, replayed};
ghost use Rattle.simplex_journal.specs.Order.{Order, Stands, Obeys, PrunesInPart};

use crate::error::JournalError;
use simplex_wire::Artifact;
use std::alloc::Global;

/// Keeps records in numbered sections. A record is pending until it is synced, and a synced one outlasts a
/// stop. `append`, `sync`, `sync_all`, `prune` and `replay` may fail, as the order of `fail_next` says. Where one
/// of them fails the count of faults rises, and nowhere else.
pub trait Journal {
    // its sections, in rising order of their numbers
    ghost sections: { Self → List Section };

    // how many of its calls failed; the count stops at the greatest u64
    ghost fault_count: { Self → ℕ };

    // the standing order that a call fails, if the journal tells it
    ghost order: { Self → Option Order };

    /// Keeps a copy of the record, as the last pending one of the section.
    fn append(
        &mut self,
        alloc: Global,
        section: u64,
        artifact: &Artifact,
    ) -> Result<(), JournalError>
        ensures ok { OnOk result (sections self.new
            ≡ appended section artifact.now (sections self.old)) }
        ensures err { OnErr result (sections self.new ≡ sections self.old) }
        ensures ordered { Obeys (order self.old) result (order self.new) }
        ensures faults { Counts (fault_count self.old) result (fault_count self.new) };

    /// Syncs the pending records of the section, if it is there.
    fn sync(&mut self, section: u64) -> Result<(), JournalError>
        ensures ok { OnOk result (sections self.new ≡ synced_at section (sections self.old)) }
        ensures err { OnErr result (sections self.new ≡ sections self.old) }
        ensures ordered { Obeys (order self.old) result (order self.new) }
        ensures faults { Counts (fault_count self.old) result (fault_count self.new) };

    /// Syncs the pending records of all sections.
    fn sync_all(&mut self) -> Result<(), JournalError>
        ensures ok { OnOk result (sections self.new ≡ all_synced (sections self.old)) }
        ensures err { OnErr result (sections self.new ≡ sections self.old) }
        ensures ordered { Obeys (order self.old) result (order self.new) }
        ensures faults { Counts (fault_count self.old) result (fault_count self.new) };

    /// Drops the sections below `min`. A prune that fails may drop the first of them.
    fn prune(&mut self, min: u64) -> Result<(), JournalError>
        ensures ok { OnOk result (sections self.new ≡ pruned min (sections self.old)) }
        ensures in_part { IsErrOf result JournalError.Failed
            → PrunesInPart (order self.old) min (sections self.old) (sections self.new) }
        ensures memory { IsErrOf result JournalError.Memory
            → sections self.new ≡ sections self.old }
        ensures ordered { Obeys (order self.old) result (order self.new) }
        ensures faults { Counts (fault_count self.old) result (fault_count self.new) };

    /// Copies of all records: the sections in rising order, and of each the synced before the pending.
    fn replay(&mut self, alloc: Global) -> Result<Vec<Artifact>, JournalError>
        ensures ok { IfOk result (λ records. records.items ≡ replayed (sections self.old)) }
        ensures stays { sections self.new ≡ sections self.old }
        ensures ordered { Obeys (order self.old) result (order self.new) }
        ensures faults { Counts (fault_count self.old) result (fault_count self.new) };

    /// How many calls failed.
    fn faults(&self) -> u64
        ensures { result ≡ fault_count self.now };

    /// A stop: of each section the synced records stay, and the first `keep` pending ones, which count as
    /// synced from now on. Takes no memory.
    fn crash(&mut self, keep: u64)
        ensures left { sections self.new ≡ crashed keep (sections self.old) }
        ensures order { Stands (order self.old) (order self.new) }
        ensures faults { fault_count self.new ≡ fault_count self.old };

    /// Orders that the call of this number fails, counted from now on and from 1, and that a prune that fails
    /// so drops that many sections. The number 0 takes the order back. Takes no memory. [journals-tell-or-not]
    fn fail_next(&mut self, call: u64, dropped: u64)
        ensures order { IfSome (order self.old) (λ _. order self.new
            ≡ Some (record { call = call; sections = dropped })) }
        ensures stays { sections self.new ≡ sections self.old }
        ensures faults { fault_count self.new ≡ fault_count self.old };
}
