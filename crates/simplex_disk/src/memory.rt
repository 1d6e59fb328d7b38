//! A disk in memory.
ghost use Rattle.std.specs.Prelude.{List, ◌≡◌, ◌↔◌, ◌≤◌, ◌<◌, [], length, IfOk, OnOk, OnErr, IfSome, IsErrOf, IsTrue, Some, true, false, if◌then◌else◌};
ghost use Rattle.simplex_journal.specs.Faults.{raised};
ghost use Rattle.simplex_disk.specs.Answers.{Counts, Heeds, OrderStands, IsListing};
ghost use Rattle.simplex_disk.specs.Calls.{Call, Write, Cut, Remove, Sync, Settle, Leave, bytes_of, WritesInPart, CutsInPart, RemovesInPart, Does, DoesInPart, DoesNothing};
ghost use Rattle.simplex_disk.specs.Memory.{fails, counted, answer_of, after_call, file_in, order_in, IsLeftBy};
ghost use Rattle.simplex_disk.specs.Opening.{IsSettled};

use crate::disk::{Disk, StopDisk};
use crate::error::DiskError;
use crate::files::{Files, cut_file, numbers_of, put_byte, read_file, remove_file, write_file};
use std::alloc::Global;
use std::collections::BTreeMap;
use std::marker::Model;

/// A disk in memory. It keeps its files as they read, and fails only where it is told to. [clauses-of-the-disk]
#[derive(Drop)]
pub struct MemoryDisk {
    files: Files,
    alloc: Global,
    // how many calls were answered; the count stops at the greatest u64
    made: u64,
    // the numbers of the calls that fail, counted from the first on
    failing: Vec<u64>,
    // which call from now on fails, counted from 1; 0: none
    ordered: u64,
    faults: u64,
}

impl Model for MemoryDisk {
    ghost use Rattle.simplex_disk.specs.Files.{kept_of};
    ghost use Rattle.simplex_disk.specs.Memory.{Held};

    ghost Value = { Held };

    ghost view = { λ disk. record {
      kept = kept_of disk.files.entries;
      made = disk.made;
      failing = disk.failing.items;
      ordered = disk.ordered;
      faults = disk.faults;
    } };
}

impl MemoryDisk {
    /// A disk with no file, whose calls of these numbers fail, counted from 1.
    pub fn new(alloc: Global, failing: Vec<u64>) -> MemoryDisk
        ensures { result ≡ record {
          kept = [];
          made = 0;
          failing = failing.items;
          ordered = 0;
          faults = 0;
        } }
    {
        MemoryDisk {
            files: BTreeMap::new(alloc),
            alloc,
            made: 0,
            failing,
            ordered: 0,
            faults: 0,
        }
    }

    /// A crash may leave each file as it reads: that is all that is said of a disk in memory.
    pub fn may_be_settled(&self)
        ensures { (calls : List Call) × IsLeftBy self.now.kept calls × IsSettled calls }
    {}

    // Counts a call that ended well. [faults-only-rise]
    fn count_call(&mut self)
        ensures { self.new ≡ counted self.old self.old.faults }
    {
        self.made = self.made.saturating_add(1);
        self.ordered = self.ordered.saturating_sub(1);
    }

    // Fails where this call is to fail, which is counted then.
    fn obey(&mut self) -> Result<(), DiskError>
        ensures answer { result ≡ answer_of (fails self.old) }
        ensures after { self.new
            ≡ (if fails self.old then counted self.old (raised self.old.faults) else self.old) }
        ensures ok { OnOk result (self.new ≡ self.old) }
        ensures passes { OnOk result (fails self.old ≡ false) }
        ensures err { OnErr result (fails self.old ≡ true) }
    {
        let number = self.made.saturating_add(1);
        if self.ordered != 1 && !self.failing.contains(&number) {
            return Ok(());
        }
        self.faults = self.faults.saturating_add(1);
        self.count_call();
        Err(DiskError::Failed)
    }
}

impl Disk for MemoryDisk {
    ghost use Rattle.simplex_disk.specs.Memory.{file_in, order_told, IsLeftBy};

    ghost contents = { λ disk. file_in disk.kept };

    ghost StandsFor = { λ disk calls. IsLeftBy disk.kept calls };

    ghost fault_count = { λ disk. disk.faults };

    ghost order = { λ disk. order_told disk.failing disk.ordered };

    ghost reads = { λ disk calls left. left.each };

    ghost stays = { λ disk calls left. left.stays };

    fn read(&mut self, alloc: Global, file: u64) -> Result<Vec<u8>, DiskError>
        ensures bytes { IfOk result (λ bytes. bytes.items ≡ bytes_of (file_in self.old.kept file)) }
        ensures stays { DoesNothing (IsLeftBy self.old.kept) (IsLeftBy self.new.kept) }
        ensures counts { Counts result self.old.faults self.new.faults }
        ensures heeds { Heeds (order_in self.old) result (order_in self.new) }
        // The calls of the numbers to fail do fail, and no other. Each that is answered is counted, and one that failed
        // does nothing.
        ensures named { IsErrOf result DiskError.Failed ↔ IsTrue (fails self.old) }
        ensures answered { ¬ IsErrOf result DiskError.Memory
            → self.new ≡ after_call self.old self.old.kept }
        ensures unanswered { IsErrOf result DiskError.Memory → self.new ≡ self.old }
    {
        self.obey()?;
        let bytes = read_file(&self.files, alloc, file)?;
        self.count_call();
        Ok(bytes)
    }

    fn files(&mut self, alloc: Global) -> Result<Vec<u64>, DiskError>
        ensures listed { IfOk result (λ numbers. IsListing (file_in self.old.kept) numbers.items) }
        ensures stays { DoesNothing (IsLeftBy self.old.kept) (IsLeftBy self.new.kept) }
        ensures counts { Counts result self.old.faults self.new.faults }
        ensures heeds { Heeds (order_in self.old) result (order_in self.new) }
        // The calls of the numbers to fail do fail, and no other. Each that is answered is counted, and one that failed
        // does nothing.
        ensures named { IsErrOf result DiskError.Failed ↔ IsTrue (fails self.old) }
        ensures answered { ¬ IsErrOf result DiskError.Memory
            → self.new ≡ after_call self.old self.old.kept }
        ensures unanswered { IsErrOf result DiskError.Memory → self.new ≡ self.old }
    {
        self.obey()?;
        let numbers = numbers_of(&self.files, alloc)?;
        self.count_call();
        Ok(numbers)
    }

    fn write_at(&mut self, file: u64, place: u64, bytes: &[u8]) -> Result<(), DiskError>
        requires { place ≤ length (bytes_of (file_in self.old.kept file)) }
        ensures ok { OnOk result (Does (IsLeftBy self.old.kept) (IsLeftBy self.new.kept)
            (Write file place (length bytes.now) bytes.now)) }
        ensures in_part { OnErr result (DoesInPart (IsLeftBy self.old.kept) (IsLeftBy self.new.kept)
            (WritesInPart file place (length bytes.now))) }
        ensures memory { IsErrOf result DiskError.Memory
            → DoesNothing (IsLeftBy self.old.kept) (IsLeftBy self.new.kept) }
        ensures ordered { OnErr result (IfSome (order_in self.old)
            (λ _. DoesNothing (IsLeftBy self.old.kept) (IsLeftBy self.new.kept))) }
        ensures counts { Counts result self.old.faults self.new.faults }
        ensures heeds { Heeds (order_in self.old) result (order_in self.new) }
        // The calls of the numbers to fail do fail, and no other. Each that is answered is counted, and one that failed
        // does nothing.
        ensures named { IsErrOf result DiskError.Failed ↔ IsTrue (fails self.old) }
        ensures answered { ¬ IsErrOf result DiskError.Memory
            → self.new ≡ after_call self.old self.new.kept }
        ensures unanswered { IsErrOf result DiskError.Memory → self.new ≡ self.old }
        ensures nothing { OnErr result (self.new.kept ≡ self.old.kept) }
    {
        self.obey()?;
        write_file(&mut self.files, self.alloc, file, place, bytes)?;
        self.count_call();
        Ok(())
    }

    fn cut(&mut self, file: u64, len: u64) -> Result<(), DiskError>
        ensures ok { OnOk result (Does (IsLeftBy self.old.kept) (IsLeftBy self.new.kept)
            (Cut file len true)) }
        ensures in_part { OnErr result (DoesInPart (IsLeftBy self.old.kept) (IsLeftBy self.new.kept)
            (CutsInPart file len)) }
        ensures memory { IsErrOf result DiskError.Memory
            → DoesNothing (IsLeftBy self.old.kept) (IsLeftBy self.new.kept) }
        ensures ordered { OnErr result (IfSome (order_in self.old)
            (λ _. DoesNothing (IsLeftBy self.old.kept) (IsLeftBy self.new.kept))) }
        ensures counts { Counts result self.old.faults self.new.faults }
        ensures heeds { Heeds (order_in self.old) result (order_in self.new) }
        // The calls of the numbers to fail do fail, and no other. Each that is answered is counted, and one that failed
        // does nothing.
        ensures named { IsErrOf result DiskError.Failed ↔ IsTrue (fails self.old) }
        ensures answered { ¬ IsErrOf result DiskError.Memory
            → self.new ≡ after_call self.old self.new.kept }
        ensures unanswered { IsErrOf result DiskError.Memory → self.new ≡ self.old }
        ensures nothing { OnErr result (self.new.kept ≡ self.old.kept) }
    {
        self.obey()?;
        cut_file(&mut self.files, file, len);
        self.count_call();
        Ok(())
    }

    fn sync(&mut self, file: u64) -> Result<(), DiskError>
        ensures ok { OnOk result (Does (IsLeftBy self.old.kept)
            (IsLeftBy self.new.kept) (Sync file)) }
        ensures err { OnErr result (DoesNothing (IsLeftBy self.old.kept) (IsLeftBy self.new.kept)) }
        ensures room { IsErrOf result DiskError.Memory → ⊥ }
        ensures counts { Counts result self.old.faults self.new.faults }
        ensures heeds { Heeds (order_in self.old) result (order_in self.new) }
        // The calls of the numbers to fail do fail, and no other. Each that is answered is counted, and one that failed
        // does nothing.
        ensures named { IsErrOf result DiskError.Failed ↔ IsTrue (fails self.old) }
        ensures answered { ¬ IsErrOf result DiskError.Memory
            → self.new ≡ after_call self.old self.old.kept }
        ensures unanswered { IsErrOf result DiskError.Memory → self.new ≡ self.old }
    {
        // A file counts as synced as it reads, at each moment.
        let _ = file;
        self.obey()?;
        self.count_call();
        Ok(())
    }

    fn remove(&mut self, file: u64) -> Result<(), DiskError>
        ensures ok { OnOk result (Does (IsLeftBy self.old.kept)
            (IsLeftBy self.new.kept) (Remove file true)) }
        ensures in_part { OnErr result (DoesInPart (IsLeftBy self.old.kept) (IsLeftBy self.new.kept)
            (RemovesInPart file)) }
        ensures room { IsErrOf result DiskError.Memory → ⊥ }
        ensures ordered { OnErr result (IfSome (order_in self.old)
            (λ _. DoesNothing (IsLeftBy self.old.kept) (IsLeftBy self.new.kept))) }
        ensures counts { Counts result self.old.faults self.new.faults }
        ensures heeds { Heeds (order_in self.old) result (order_in self.new) }
        // The calls of the numbers to fail do fail, and no other. Each that is answered is counted, and one that failed
        // does nothing.
        ensures named { IsErrOf result DiskError.Failed ↔ IsTrue (fails self.old) }
        ensures answered { ¬ IsErrOf result DiskError.Memory
            → self.new ≡ after_call self.old self.new.kept }
        ensures unanswered { IsErrOf result DiskError.Memory → self.new ≡ self.old }
        ensures nothing { OnErr result (self.new.kept ≡ self.old.kept) }
    {
        self.obey()?;
        remove_file(&mut self.files, file);
        self.count_call();
        Ok(())
    }

    fn faults(&self) -> u64 {
        self.faults
    }
}

impl StopDisk for MemoryDisk {
    fn settle(&mut self)
        ensures stands { Does (IsLeftBy self.old.kept) (IsLeftBy self.new.kept) Settle }
        ensures faults { self.new.faults ≡ self.old.faults }
        ensures order { OrderStands (order_in self.old) (order_in self.new) }
        ensures same { self.new ≡ self.old }
    {}

    fn leave(&mut self, file: u64, place: u64, byte: u8)
        requires { place < length (bytes_of (file_in self.old.kept file)) }
        ensures stands { Does (IsLeftBy self.old.kept) (IsLeftBy self.new.kept)
            (Leave file place byte) }
        ensures faults { self.new.faults ≡ self.old.faults }
        ensures order { OrderStands (order_in self.old) (order_in self.new) }
        ensures rest { self.new ≡ record self.old { kept = self.new.kept } }
    {
        put_byte(&mut self.files, file, place, byte);
    }

    fn fail_next(&mut self, call: u64)
        ensures stands { DoesNothing (IsLeftBy self.old.kept) (IsLeftBy self.new.kept) }
        ensures order { IfSome (order_in self.old) (λ _. order_in self.new ≡ Some call) }
        ensures faults { self.new.faults ≡ self.old.faults }
        ensures given { self.new ≡ record self.old { ordered = call } }
    {
        self.ordered = call;
    }
}
