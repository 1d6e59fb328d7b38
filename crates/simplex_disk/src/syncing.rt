//! All sections are synced.
ghost use Rattle.std.specs.Prelude.{◌≡◌, ◌<◌, ℕ, List, Option, OnOk, length};
ghost use Rattle.std.specs.List.Sorted.{IsStrictlySortedBy};
ghost use Rattle.std.specs.Map.{keys_of};
ghost use Rattle.std.specs.Ordering.{nat_cmp};
ghost use Rattle.simplex_journal.specs.Journal.{all_synced};
ghost use Rattle.simplex_disk.specs.Calls.{Call};
ghost use Rattle.simplex_disk.specs.Ends.{Ends, IsNamed};
ghost use Rattle.simplex_disk.specs.Goes.{Goes, Changes};
ghost use Rattle.simplex_disk.specs.Index.{IsIndexed, IsIndexedBy, LeavesJournal, sections_at};
ghost use Rattle.simplex_disk.specs.Moments.{Always, Then};
ghost use Rattle.simplex_disk.specs.Syncing.{AreOpened, AreCounted};

use crate::disk::Disk;
use crate::error::DiskError;
use crate::index::Index;
use crate::segment::open_segment;
use std::alloc::Global;

/// Opens the gates of the pending records of each section. They still count as pending. [gates-first]
fn open_each<D: Disk>(disk: &mut D, index: &Index) -> Result<(), DiskError>
    requires { IsIndexedBy (D.StandsFor disk.old) index.now.entries }
    ensures stands { (calls : List Call) → D.StandsFor disk.old calls → (leaving : Option ℕ)
        → IsIndexed index.now.entries leaving calls
        → Then (D.StandsFor disk.new)
        (Always (LeavesJournal (sections_at calls index.now.entries) leaving calls) calls)
        (λ now. IsIndexed index.now.entries leaving now
        × (sections_at now index.now.entries ≡ sections_at calls index.now.entries)
        × OnOk result (AreOpened index.now.entries now)) }
    ensures ends { Ends (D.fault_count disk.old) (D.order disk.old) result
        (D.fault_count disk.new) (D.order disk.new) }
    ensures named { 0 < length index.now.entries → IsNamed (D.order disk.old) result }
{
    // The length is asked for its clause, which says that the numbers rise.
    let _ordered = index.len();
    for (number, segment) in index {
        open_segment(disk, *number, segment)?;
    }
    Ok(())
}

/// Counts the pending records of each section as synced.
fn count_each(index: &mut Index)
    ensures counted { AreCounted index.old.entries index.new.entries }
    ensures ordered { IsStrictlySortedBy nat_cmp (keys_of index.old.entries) }
{
    index.retain(|_, segment| {
        segment.count_synced();
        true
    });
}

/// Syncs the pending records of all sections, which count as synced once all of them are on the disk.
/// [each-call-a-disk-call]
pub(crate) fn sync_each<D: Disk>(
    disk: &mut D,
    index: &mut Index,
    alloc: Global,
) -> Result<(), DiskError>
    requires { IsIndexedBy (D.StandsFor disk.old) index.old.entries }
    ensures goes { (leaving : Option ℕ) → Goes (D.StandsFor disk.old) (D.StandsFor disk.new)
        index.old.entries index.new.entries leaving leaving (Changes result all_synced) }
    ensures ends { Ends (D.fault_count disk.old) (D.order disk.old) result
        (D.fault_count disk.new) (D.order disk.new) }
    ensures named { IsNamed (D.order disk.old) result }
{
    if index.is_empty() {
        // Every call of a journal makes a call of its disk.
        disk.files(alloc)?;
        return Ok(());
    }
    open_each(disk, index)?;
    count_each(index);
    Ok(())
}
