//! One file of the journal.
ghost use Rattle.std.specs.Prelude.{◌++◌, [], ◌∷◌, List, OnOk, OnErr};
ghost use Rattle.simplex_wire.specs.declared.artifact.Artifact.{Artifact};
ghost use Rattle.simplex_disk.specs.Calls.{Call};
ghost use Rattle.simplex_disk.specs.Chain.{OfRecord};
ghost use Rattle.simplex_disk.specs.Ends.{Ends, IsNamed};
ghost use Rattle.simplex_disk.specs.Gates.{Waits};
ghost use Rattle.simplex_disk.specs.Left.{Stands, IsShut, HasChain, LeavesChain, LeavesFront};
ghost use Rattle.simplex_disk.specs.Moments.{AlwaysOf, Then};
ghost use Rattle.simplex_disk.specs.Segments.{IsKept, IsSegment, IsSegmentBy};
ghost use Rattle.simplex_disk.specs.Syncing.{CountsSynced};

use crate::disk::Disk;
use crate::error::DiskError;
use std::alloc::{AllocError, Global};

/// What is kept of a file.
#[derive(Drop)]
pub(crate) struct Segment {
    // the place behind the last gate
    pub(crate) end: u64,
    // how many records are synced
    pub(crate) synced: u64,
    // the places of the closed gates, but for the last: one for each pending record
    pub(crate) gates: Vec<u64>,
}

impl Segment {
    /// Of a file with no record.
    pub(crate) fn new(alloc: Global) -> Segment
        ensures { IsKept result [] [] }
    {
        Segment {
            end: 1,
            synced: 0,
            gates: Vec::new(alloc),
        }
    }

    /// Counts the pending records as synced.
    pub(crate) fn count_synced(&mut self)
        ensures { CountsSynced self.old self.new }
    {
        // No file has more records than bytes: the end is read for what its type says of it.
        let _end = self.end;
        self.synced = self.synced.saturating_add(self.gates.len() as u64);
        self.gates.clear();
    }
}

/// Makes the file anew, in which no record is read. It is one closed gate then, on the disk. [new-file]
pub(crate) fn make_file<D: Disk>(disk: &mut D, file: u64) -> Result<(), DiskError>
    ensures stands { (calls : List Call) → D.StandsFor disk.old calls → IsShut file calls
        → Then (D.StandsFor disk.new) (AlwaysOf file (IsShut file) calls)
        (λ now. OnOk result (Stands file [] [] now)) }
    ensures ends { Ends (D.fault_count disk.old) (D.order disk.old) result
        (D.fault_count disk.new) (D.order disk.new) }
    ensures named { IsNamed (D.order disk.old) result }
{
    // Behind a gate that is torn open, what was there would count.
    disk.cut(file, 0)?;
    disk.sync(file)?; // the cut first
    disk.write_at(file, 0, &[0])?;
    disk.sync(file)
}

/// Opens these gates, which are those of the pending records.
pub(crate) fn open_gates<D: Disk>(disk: &mut D, file: u64, gates: &[u64]) -> Result<(), DiskError>
    requires { (calls : List Call) × D.StandsFor disk.old calls
        × ((synced pending : List Artifact) × Waits file synced pending gates.now calls) }
    ensures stands { (calls : List Call) → D.StandsFor disk.old calls → (synced pending : List Artifact)
        → Waits file synced pending gates.now calls
        → Then (D.StandsFor disk.new) (AlwaysOf file (LeavesChain file synced pending) calls)
        (λ now. HasChain file synced pending now
        × OnOk result (HasChain file (synced ++ pending) [] now)) }
    ensures ends { Ends (D.fault_count disk.old) (D.order disk.old) result
        (D.fault_count disk.new) (D.order disk.new) }
{
    for place in gates {
        disk.write_at(file, *place, &[1])?;
    }
    Ok(())
}

/// Writes a record behind the last gate, which are its bytes and a closed gate.
pub(crate) fn append_record<D: Disk>(
    disk: &mut D,
    file: u64,
    segment: &mut Segment,
    bytes: &[u8],
) -> Result<(), DiskError>
    requires { IsSegmentBy (D.StandsFor disk.old) file segment.old }
    ensures stands { (calls : List Call) → D.StandsFor disk.old calls → (synced pending : List Artifact)
        → IsSegment file segment.old synced pending calls
        → Then (D.StandsFor disk.new) (AlwaysOf file (LeavesFront file synced pending) calls)
        (λ now. Stands file synced pending now
        × OnOk result (OfRecord bytes.now
        (λ artifact. IsSegment file segment.new synced (pending ++ artifact ∷ []) now))
        × OnErr result (IsKept segment.new synced pending)) }
    ensures ends { Ends (D.fault_count disk.old) (D.order disk.old) result
        (D.fault_count disk.new) (D.order disk.new) }
    ensures named { IsNamed (D.order disk.old) result }
{
    let Some(end) = segment.end.checked_add(bytes.len() as u64) else {
        return Err(DiskError::Memory);
    };
    disk.write_at(file, segment.end, bytes)?;
    segment.gates.push(segment.end - 1)?;
    segment.end = end;
    Ok(())
}

/// Opens the gates of the pending records, which are on the disk then. They still count as pending.
pub(crate) fn open_segment<D: Disk>(
    disk: &mut D,
    file: u64,
    segment: &Segment,
) -> Result<(), DiskError>
    requires { IsSegmentBy (D.StandsFor disk.old) file segment.now }
    ensures stands { (calls : List Call) → D.StandsFor disk.old calls → (synced pending : List Artifact)
        → IsSegment file segment.now synced pending calls
        → Then (D.StandsFor disk.new) (AlwaysOf file (LeavesFront file synced pending) calls)
        (λ now. Stands file synced pending now
        × OnOk result (Stands file (synced ++ pending) [] now)) }
    ensures ends { Ends (D.fault_count disk.old) (D.order disk.old) result
        (D.fault_count disk.new) (D.order disk.new) }
    ensures named { IsNamed (D.order disk.old) result }
{
    disk.sync(file)?; // the records first
    open_gates(disk, file, &segment.gates)?;
    disk.sync(file) // and then their gates
}
