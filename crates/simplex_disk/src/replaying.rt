//! All records of a journal.
ghost use Rattle.std.specs.Prelude.{◌≡◌, ◌++◌, ◌+◌, List, IfOk, OnOk, length};
ghost use Rattle.simplex_journal.specs.Journal.{replayed};
ghost use Rattle.simplex_disk.specs.Calls.{Call, bytes_of, content};
ghost use Rattle.simplex_disk.specs.Chain.{walked};
ghost use Rattle.simplex_disk.specs.Ends.{Ends, IsNamed};
ghost use Rattle.simplex_disk.specs.Index.{sections_at};

use crate::disk::Disk;
use crate::error::DiskError;
use crate::index::Index;
use crate::reading::walk;
use crate::segment::Segment;
use simplex_wire::Artifact;
use std::alloc::Global;

// Puts the records of the file behind those that are there.
fn read_records<D: Disk>(
    disk: &mut D,
    alloc: Global,
    file: u64,
    segment: &Segment,
    records: &mut Vec<Artifact>,
) -> Result<(), DiskError>
    ensures stays { (calls : List Call) → D.StandsFor disk.old calls → D.StandsFor disk.new calls }
    ensures read { OnOk result ((calls : List Call) → D.StandsFor disk.old calls
        → records.new.items
        ≡ records.old.items ++ walked (segment.now.synced + length segment.now.gates.items)
        (bytes_of (content file calls))) }
    ensures ends { Ends (D.fault_count disk.old) (D.order disk.old) result
        (D.fault_count disk.new) (D.order disk.new) }
{
    // So many records have a place in no u64, nor in memory.
    let Some(count) = segment.synced.checked_add(segment.gates.len() as u64) else {
        return Err(DiskError::Memory);
    };
    let bytes = disk.read(alloc, file)?;
    walk(alloc, &bytes, count, records)?;
    Ok(())
}

/// Copies of all records: the sections in rising order, and of each the synced before the pending.
pub(crate) fn replay<D: Disk>(
    disk: &mut D,
    alloc: Global,
    index: &Index,
) -> Result<Vec<Artifact>, DiskError>
    ensures stays { (calls : List Call) → D.StandsFor disk.old calls → D.StandsFor disk.new calls }
    ensures read { IfOk result (λ records. (calls : List Call) → D.StandsFor disk.old calls
        → records.items ≡ replayed (sections_at calls index.now.entries)) }
    ensures ends { Ends (D.fault_count disk.old) (D.order disk.old) result
        (D.fault_count disk.new) (D.order disk.new) }
    ensures named { IsNamed (D.order disk.old) result }
{
    // Every call of a journal makes a call of its disk.
    disk.files(alloc)?;
    let mut records = Vec::new(alloc);
    for (number, segment) in index {
        read_records(disk, alloc, *number, segment, &mut records)?;
    }
    Ok(records)
}
