//! A short run, which meets all that the law on crashes asks for.
ghost use Rattle.std.specs.Prelude.{◌≡◌, [], ◌∷◌, List, None, IfOk};
ghost use Rattle.simplex_disk.specs.Calls.{Call};
ghost use Rattle.simplex_disk.specs.Contents.{sections_kept, IsOf, Any};
ghost use Rattle.simplex_disk.specs.Index.{LeavesJournal};
ghost use Rattle.simplex_disk.specs.Memory.{file_in, IsLeftBy};
ghost use Rattle.simplex_disk.specs.Moments.{Always, Then};

use simplex_disk::{DiskJournal, InitError, MemoryDisk};
use simplex_journal::{Journal, JournalError};
use simplex_wire::Artifact;
use std::alloc::Global;

/// On a disk with no file two records are appended to a section, of which the first is synced before.
pub fn two_records(
    alloc: Global,
    first: &Artifact,
    second: &Artifact,
) -> Result<DiskJournal<MemoryDisk>, JournalError>
    ensures sections { IfOk result (λ journal. sections_kept (λ disk. file_in disk.kept) journal
        ≡ record { number = 1; synced = first.now ∷ []; pending = second.now ∷ [] } ∷ []) }
    // There are calls that may be all that were made of the disk, and at each moment of the last append a crash leaves the first record.
    ensures met { IfOk result (λ journal. (before : List Call)
        × Then (IsOf (λ disk. IsLeftBy disk.kept) journal) (Always (LeavesJournal
        (record { number = 1; synced = first.now ∷ []; pending = [] }
        ∷ []) None before) before) Any) }
{
    let disk = MemoryDisk::new(alloc, Vec::new(alloc));
    disk.may_be_settled();
    let mut journal = match DiskJournal::init(disk, alloc) {
        Ok(journal) => journal,
        Err(InitError { error, .. }) => return Err(error),
    };
    journal.append(alloc, 1, first)?;
    journal.sync(1)?;
    journal.append(alloc, 1, second)?;
    Ok(journal)
}
