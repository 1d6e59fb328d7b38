//! A disk that may crash.
ghost use Rattle.std.specs.Prelude.{◌≡◌, ◌≤◌, ◌<◌, ℕ, List, Option, Some, length, IfOk, OnOk, OnErr, IsErrOf, IfSome, true};
ghost use Rattle.simplex_disk.specs.Calls.{Call, Write, Cut, Remove, Sync, Settle, Leave, bytes_of, content, MayLeave, WritesInPart, CutsInPart, RemovesInPart, Does, DoesInPart, DoesNothing};
ghost use Rattle.simplex_disk.specs.Answers.{Counts, Heeds, OrderStands, IsListing};

use crate::error::DiskError;
use std::alloc::Global;

/// Files by number. Until a sync, a crash may leave any bytes in the ranges that were written, and may or may not have
/// cut or removed what was cut or removed. [disk-by-its-calls]
pub trait Disk {
    // what a read gives of each file
    ghost contents: { Self → ℕ → Option (List ℕ) };

    // that these calls, the newest first, may be all that were made of it: what a crash may leave follows from them
    ghost StandsFor: { Self → List Call → Type 0 };

    // how many of its calls failed; the count stops at the greatest u64
    ghost fault_count: { Self → ℕ };

    // which call from now on fails, counted from 1, if the disk tells it and fails no other; 0: none
    ghost order: { Self → Option ℕ };

    // A disk that tells its order fails no other call, and a call that fails does nothing: the clause `ordered` of
    // those that might happen in part.

    /// The bytes of the file, none where it is not there.
    fn read(&mut self, alloc: Global, file: u64) -> Result<Vec<u8>, DiskError>
        ensures bytes { IfOk result (λ bytes. bytes.items ≡ bytes_of (contents self.old file)) }
        ensures stays { DoesNothing (StandsFor self.old) (StandsFor self.new) }
        ensures counts { Counts result (fault_count self.old) (fault_count self.new) }
        ensures heeds { Heeds (order self.old) result (order self.new) };

    /// The numbers of the files that are there, in rising order.
    fn files(&mut self, alloc: Global) -> Result<Vec<u64>, DiskError>
        ensures listed { IfOk result (λ numbers. IsListing (contents self.old) numbers.items) }
        ensures stays { DoesNothing (StandsFor self.old) (StandsFor self.new) }
        ensures counts { Counts result (fault_count self.old) (fault_count self.new) }
        ensures heeds { Heeds (order self.old) result (order self.new) };

    /// Writes over what is there, and past the end. The file is made where it is not there. A write that failed may
    /// have left any bytes in its range.
    fn write_at(&mut self, file: u64, place: u64, bytes: &[u8]) -> Result<(), DiskError>
        requires { place ≤ length (bytes_of (contents self.old file)) }
        ensures ok { OnOk result (Does (StandsFor self.old) (StandsFor self.new)
            (Write file place (length bytes.now) bytes.now)) }
        ensures in_part { OnErr result (DoesInPart (StandsFor self.old) (StandsFor self.new)
            (WritesInPart file place (length bytes.now))) }
        ensures memory { IsErrOf result DiskError.Memory
            → DoesNothing (StandsFor self.old) (StandsFor self.new) }
        ensures ordered { OnErr result (IfSome (order self.old)
            (λ _. DoesNothing (StandsFor self.old) (StandsFor self.new))) }
        ensures counts { Counts result (fault_count self.old) (fault_count self.new) }
        ensures heeds { Heeds (order self.old) result (order self.new) };

    /// Cuts the file to a length, where it is there and longer. A cut that failed may have happened or not.
    fn cut(&mut self, file: u64, len: u64) -> Result<(), DiskError>
        ensures ok { OnOk result (Does (StandsFor self.old) (StandsFor self.new)
            (Cut file len true)) }
        ensures in_part { OnErr result (DoesInPart (StandsFor self.old) (StandsFor self.new)
            (CutsInPart file len)) }
        ensures memory { IsErrOf result DiskError.Memory
            → DoesNothing (StandsFor self.old) (StandsFor self.new) }
        ensures ordered { OnErr result (IfSome (order self.old)
            (λ _. DoesNothing (StandsFor self.old) (StandsFor self.new))) }
        ensures counts { Counts result (fault_count self.old) (fault_count self.new) }
        ensures heeds { Heeds (order self.old) result (order self.new) };

    /// After it a crash leaves of the file what a read gives. A sync that failed counts for nothing. Takes no memory.
    fn sync(&mut self, file: u64) -> Result<(), DiskError>
        ensures ok { OnOk result (Does (StandsFor self.old) (StandsFor self.new) (Sync file)) }
        ensures err { OnErr result (DoesNothing (StandsFor self.old) (StandsFor self.new)) }
        ensures room { IsErrOf result DiskError.Memory → ⊥ }
        ensures counts { Counts result (fault_count self.old) (fault_count self.new) }
        ensures heeds { Heeds (order self.old) result (order self.new) };

    /// Removes the file, where it is there. A removal that failed may have happened or not. Takes no memory.
    fn remove(&mut self, file: u64) -> Result<(), DiskError>
        ensures ok { OnOk result (Does (StandsFor self.old)
            (StandsFor self.new) (Remove file true)) }
        ensures in_part { OnErr result (DoesInPart (StandsFor self.old) (StandsFor self.new)
            (RemovesInPart file)) }
        ensures ordered { OnErr result (IfSome (order self.old)
            (λ _. DoesNothing (StandsFor self.old) (StandsFor self.new))) }
        ensures room { IsErrOf result DiskError.Memory → ⊥ }
        ensures counts { Counts result (fault_count self.old) (fault_count self.new) }
        ensures heeds { Heeds (order self.old) result (order self.new) };

    /// How many calls failed.
    fn faults(&self) -> u64
        ensures { result ≡ fault_count self.now };

    // a read gives what its calls left
    ghost reads: { (disk : Self) (calls : List Call) → StandsFor disk calls → (n : ℕ)
        → content n calls ≡ contents disk n };

    // and so a crash may leave it
    ghost stays: { (disk : Self) (calls : List Call) → StandsFor disk calls → (n : ℕ)
        → MayLeave n calls (content n calls) };
}

/// A disk that can be left in a named image, and whose calls can be ordered to fail. [crash-may-leave-it]
pub trait StopDisk: Disk {
    /// Every file counts as synced as it reads. Takes no memory.
    fn settle(&mut self)
        ensures stands { Does (Self.StandsFor self.old) (Self.StandsFor self.new) Settle }
        ensures faults { Self.fault_count self.new ≡ Self.fault_count self.old }
        ensures order { OrderStands (Self.order self.old) (Self.order self.new) };

    /// The file reads as before but for this byte, and counts as synced so. Takes no memory.
    fn leave(&mut self, file: u64, place: u64, byte: u8)
        requires { place < length (bytes_of (Self.contents self.old file)) }
        ensures stands { Does (Self.StandsFor self.old) (Self.StandsFor self.new)
            (Leave file place byte) }
        ensures faults { Self.fault_count self.new ≡ Self.fault_count self.old }
        ensures order { OrderStands (Self.order self.old) (Self.order self.new) };

    /// Orders that the call of this number fails and does nothing, counted from now on and from 1. The number 0 takes
    /// the order back. Takes no memory.
    fn fail_next(&mut self, call: u64)
        ensures stands { DoesNothing (Self.StandsFor self.old) (Self.StandsFor self.new) }
        ensures faults { Self.fault_count self.new ≡ Self.fault_count self.old }
        ensures order { IfSome (Self.order self.old) (λ _. Self.order self.new ≡ Some call) };
}
