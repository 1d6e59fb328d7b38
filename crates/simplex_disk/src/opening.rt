//! A journal from the files that are there.
ghost use Rattle.std.specs.Prelude.{◌≡◌, ℕ, [], List, None, Some, IfOk};
ghost use Rattle.std.specs.List.Sorted.{IsStrictlySortedBy};
ghost use Rattle.std.specs.Map.{keys_of};
ghost use Rattle.std.specs.Ordering.{nat_cmp};
ghost use Rattle.simplex_disk.specs.Calls.{Call, content};
ghost use Rattle.simplex_disk.specs.Chain.{opened};
ghost use Rattle.simplex_disk.specs.Ends.{Ends, IsNamed};
ghost use Rattle.simplex_disk.specs.Index.{IsIndexed, sections_at};
ghost use Rattle.simplex_disk.specs.Moments.{Always, AlwaysOf, Then};
ghost use Rattle.simplex_disk.specs.Opening.{IsSettledAt, IsSettled, LeavesRead, LeavesSame, AreRead};
ghost use Rattle.simplex_disk.specs.Segments.{IsSegment};

use crate::disk::Disk;
use crate::error::DiskError;
use crate::index::{Index, put};
use crate::mending::{measure, mend};
use crate::segment::Segment;
use std::alloc::Global;
use std::collections::BTreeMap;

/// Cuts the file behind its last whole record, and closes it there.
fn open_file<D: Disk>(disk: &mut D, alloc: Global, file: u64) -> Result<Segment, DiskError>
    requires { (calls : List Call) × D.StandsFor disk.old calls × IsSettledAt file calls
        × ((bytes : List ℕ) × (content file calls ≡ Some bytes)) }
    ensures stands { (calls : List Call) → D.StandsFor disk.old calls → IsSettledAt file calls → (bytes : List ℕ)
        → content file calls ≡ Some bytes
        → Then (D.StandsFor disk.new) (AlwaysOf file (LeavesRead file bytes) calls)
        (λ now. IfOk result (λ segment. IsSegment file segment (opened bytes) [] now)) }
    ensures ends { Ends (D.fault_count disk.old) (D.order disk.old) result
        (D.fault_count disk.new) (D.order disk.new) }
{
    let bytes = disk.read(alloc, file)?;
    let extent = measure(alloc, &bytes)?;
    let Some(end) = extent.len.checked_add(1) else {
        return Err(DiskError::Memory);
    };
    mend(disk, file, extent.len)?;
    Ok(Segment {
        end,
        synced: extent.count,
        gates: Vec::new(alloc),
    })
}

/// Opens each file.
pub(crate) fn open_files<D: Disk>(disk: &mut D, alloc: Global) -> Result<Index, DiskError>
    requires { (calls : List Call) × D.StandsFor disk.old calls × IsSettled calls }
    ensures stands { (calls : List Call) → D.StandsFor disk.old calls → IsSettled calls
        → Then (D.StandsFor disk.new) (Always (LeavesSame calls) calls)
        (λ now. IfOk result
        (λ index. IsIndexed index.entries None now
        × AreRead (λ n. content n calls) (sections_at now index.entries))) }
    ensures ends { Ends (D.fault_count disk.old) (D.order disk.old) result
        (D.fault_count disk.new) (D.order disk.new) }
    ensures rising { IfOk result (λ index. IsStrictlySortedBy nat_cmp (keys_of index.entries)) }
    ensures named { IsNamed (D.order disk.old) result }
{
    let numbers = disk.files(alloc)?;
    let mut index = BTreeMap::new(alloc);
    for number in &numbers {
        let segment = open_file(disk, alloc, *number)?;
        put(&mut index, *number, segment)?;
    }
    // The length is asked for its clause, which says that the numbers rise.
    let _ordered = index.len();
    Ok(index)
}
