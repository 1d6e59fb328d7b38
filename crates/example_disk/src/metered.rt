//! A disk that counts what is written to it.
ghost use Rattle.std.specs.Prelude.{◌≡◌, List};
ghost use Rattle.simplex.specs.DiskCalls.{Call};
ghost use Rattle.simplex.specs.DiskMemory.{IsLeftBy};
ghost use Rattle.simplex.specs.DiskOpening.{IsSettled};

use simplex::journal::{Disk, DiskError, MemoryDisk, StopDisk};
use std::alloc::Global;

/// A disk over another one, with the number of bytes that were given to it to write.
#[derive(Drop)]
pub(crate) struct Metered<D: Disk> {
    disk: D,
    written: u64,
}

impl<D: Disk> Metered<D> {
    /// The disk, with nothing counted yet.
    pub(crate) fn new(disk: D) -> Metered<D>
        ensures { result.disk ≡ disk }
    {
        Metered { disk, written: 0 }
    }

    /// How many bytes were given to it to write. The count stops at the greatest u64.
    pub(crate) fn written(&self) -> u64 {
        self.written
    }
}

// What holds of the disk below holds of this one: each call is one of its calls.
impl<D: Disk> Disk for Metered<D> {
    ghost contents = { λ metered. D.contents metered.disk };

    ghost StandsFor = { λ metered calls. D.StandsFor metered.disk calls };

    ghost fault_count = { λ metered. D.fault_count metered.disk };

    ghost order = { λ metered. D.order metered.disk };

    ghost reads = { λ metered calls stands. D.reads metered.disk calls stands };

    ghost stays = { λ metered calls stands. D.stays metered.disk calls stands };

    fn read(&mut self, alloc: Global, file: u64) -> Result<Vec<u8>, DiskError> {
        self.disk.read(alloc, file)
    }

    fn files(&mut self, alloc: Global) -> Result<Vec<u64>, DiskError> {
        self.disk.files(alloc)
    }

    fn write_at(&mut self, file: u64, place: u64, bytes: &[u8]) -> Result<(), DiskError> {
        self.written = self.written.saturating_add(bytes.len() as u64);
        self.disk.write_at(file, place, bytes)
    }

    fn cut(&mut self, file: u64, len: u64) -> Result<(), DiskError> {
        self.disk.cut(file, len)
    }

    fn sync(&mut self, file: u64) -> Result<(), DiskError> {
        self.disk.sync(file)
    }

    fn remove(&mut self, file: u64) -> Result<(), DiskError> {
        self.disk.remove(file)
    }

    fn faults(&self) -> u64 {
        self.disk.faults()
    }
}

impl<D: StopDisk> StopDisk for Metered<D> {
    fn settle(&mut self) {
        self.disk.settle();
    }

    fn leave(&mut self, file: u64, place: u64, byte: u8) {
        self.disk.leave(file, place, byte);
    }

    fn fail_next(&mut self, call: u64) {
        self.disk.fail_next(call);
    }
}

impl Metered<MemoryDisk> {
    /// A crash may leave each file as it reads.
    pub(crate) fn may_be_settled(&self)
        ensures { (calls : List Call) × IsLeftBy self.now.disk.kept calls × IsSettled calls }
    {
        self.disk.may_be_settled();
    }
}
