//! A disk in a folder.
ghost use Rattle.std.specs.Prelude.{◌≡◌, ◌≤◌, List, None, IfOk, IsErrOf};
ghost use Rattle.simplex_journal.specs.Faults.{Rose};
ghost use Rattle.simplex_disk.specs.Answers.{Counts};
ghost use Rattle.simplex_disk.specs.Calls.{Call};
ghost use Rattle.simplex_disk.specs.Memory.{file_in, IsLeftBy};
ghost use Rattle.simplex_disk.specs.Opening.{IsSettled};

use crate::error::OpenError;
use crate::folder::Folder;
use simplex_disk::{Disk, DiskError, MemoryDisk, StopDisk};
use std::alloc::Global;
use std::fs::File;
use std::io;
use std::rt::Files;

/// Files of a folder, and a copy of them in memory. A call goes to the copy first, so that one for which there is no memory changes no
/// file. Once a call of the system failed, each later call fails too, since of the files no more is known: after a failed sync
/// the kernel may drop what was written, and the next sync would answer well. The folder is opened anew then.
#[derive(Drop)]
pub struct FileDisk<R: Files<File = File> + Drop> {
    copy: MemoryDisk,
    folder: Folder<R>,
    is_broken: bool,
    faults: u64,
}

impl<R: Files<File = File> + AllocGlobal + Clone + Drop> FileDisk<R> {
    /// The disk in the folder that [`crate::init`] made for this owner. It holds the folder by a lock while it lives. Each file is
    /// synced, so that a crash now would leave it as it reads.
    pub fn open(rt: &R, path: &str, owner: &str) -> Result<FileDisk<R>, OpenError>
        ensures settled { IfOk result (λ disk. (calls : List Call)
            × IsLeftBy disk.copy.kept calls × IsSettled calls) }
    {
        let mut folder = Folder::open(rt, path, owner)?;
        let copy = folder.load(rt)?;
        copy.may_be_settled();
        Ok(FileDisk {
            copy,
            folder,
            is_broken: false,
            faults: 0,
        })
    }
}

impl<R: Files<File = File> + Drop> FileDisk<R> {
    // A call of the system failed.
    fn fail(&mut self)
        ensures copy { self.new.copy ≡ self.old.copy }
        ensures later { self.old.faults ≤ self.new.faults }
        ensures rose { Rose self.old.faults self.new.faults }
    {
        self.is_broken = true;
        self.faults = self.faults.saturating_add(1);
    }

    fn begin(&mut self) -> Result<(), DiskError>
        ensures copy { self.new.copy ≡ self.old.copy }
        ensures counts { Counts result self.old.faults self.new.faults }
        ensures room { IsErrOf result DiskError.Memory → ⊥ }
    {
        if self.is_broken {
            self.fail();
            return Err(DiskError::Failed);
        }
        Ok(())
    }

    // As a call of the copy ended. The copy fails no call by itself.
    fn copied<T: Drop>(&mut self, answer: Result<T, DiskError>) -> Result<T, DiskError>
        ensures same { result ≡ answer }
        ensures copy { self.new.copy ≡ self.old.copy }
        ensures counts { Counts result self.old.faults self.new.faults }
    {
        match answer {
            Err(DiskError::Failed) => {
                self.fail();
                Err(DiskError::Failed)
            }
            Err(DiskError::Memory) => Err(DiskError::Memory),
            Ok(value) => Ok(value),
        }
    }

    // As a call of the system ended.
    fn ended(&mut self, answer: io::Result<()>) -> Result<(), DiskError>
        ensures copy { self.new.copy ≡ self.old.copy }
        ensures counts { Counts result self.old.faults self.new.faults }
        ensures room { IsErrOf result DiskError.Memory → ⊥ }
    {
        match answer {
            Ok(()) => Ok(()),
            Err(_) => {
                self.fail();
                Err(DiskError::Failed)
            }
        }
    }

    /// How many syncs the system made, of files and of the folder.
    pub fn syncs(&self) -> u64 {
        self.folder.syncs()
    }

    /// A crash may leave each file as it reads, as the copy says it: what [`simplex_disk::DiskJournal::init`] asks of a disk.
    pub fn may_be_settled(&self)
        ensures { (calls : List Call) × IsLeftBy self.now.copy.kept calls × IsSettled calls }
    {
        self.copy.may_be_settled();
    }
}

impl<R: Files<File = File> + Drop> Disk for FileDisk<R> {
    ghost use Rattle.simplex_disk.specs.Memory.{file_in, IsLeftBy};

    ghost contents = { λ disk. file_in disk.copy.kept };

    ghost StandsFor = { λ disk calls. IsLeftBy disk.copy.kept calls };

    ghost fault_count = { λ disk. disk.faults };

    ghost order = { λ _. None };

    ghost reads = { λ disk calls left. left.each };

    ghost stays = { λ disk calls left. left.stays };

    fn read(&mut self, alloc: Global, file: u64) -> Result<Vec<u8>, DiskError> {
        self.begin()?;
        let bytes = self.copy.read(alloc, file);
        self.copied(bytes)
    }

    fn files(&mut self, alloc: Global) -> Result<Vec<u64>, DiskError> {
        self.begin()?;
        let numbers = self.copy.files(alloc);
        self.copied(numbers)
    }

    #[tactic(auto, using(crate::proofs::Parts::written))]
    fn write_at(&mut self, file: u64, place: u64, bytes: &[u8]) -> Result<(), DiskError> {
        self.begin()?;
        let written = self.copy.write_at(file, place, bytes);
        self.copied(written)?;
        let ended = self.folder.write_at(file, place, bytes);
        self.ended(ended)
    }

    #[tactic(auto, using(crate::proofs::Parts::cut))]
    fn cut(&mut self, file: u64, len: u64) -> Result<(), DiskError> {
        self.begin()?;
        let cut = self.copy.cut(file, len);
        self.copied(cut)?;
        let ended = self.folder.cut(file, len);
        self.ended(ended)
    }

    fn sync(&mut self, file: u64) -> Result<(), DiskError> {
        self.begin()?;
        let synced = self.folder.sync(file);
        self.ended(synced)?;
        let synced = self.copy.sync(file);
        self.copied(synced)
    }

    #[tactic(auto, using(crate::proofs::Parts::removed))]
    fn remove(&mut self, file: u64) -> Result<(), DiskError> {
        self.begin()?;
        let removed = self.copy.remove(file);
        self.copied(removed)?;
        let ended = self.folder.remove(file);
        self.ended(ended)
    }

    fn faults(&self) -> u64 {
        self.faults
    }
}

// No member orders any of these: its stop is the end of the process.
impl<R: Files<File = File> + Drop> StopDisk for FileDisk<R> {
    fn settle(&mut self) {
        self.copy.settle();
    }

    fn leave(&mut self, file: u64, place: u64, byte: u8) {
        self.copy.leave(file, place, byte);
        if self.folder.write_at(file, place, &[byte]).is_err() {
            self.is_broken = true;
        }
    }

    fn fail_next(&mut self, _call: u64) {}
}
