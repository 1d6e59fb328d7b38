//! The end of a file, after a crash.
ghost use Rattle.std.specs.Prelude.{◌≡◌, [], List, IfOk, OnOk, length};
ghost use Rattle.std.specs.Option.{option_map};
ghost use Rattle.simplex_wire.specs.declared.artifact.Artifact.{Artifact};
ghost use Rattle.simplex_disk.specs.Calls.{Call};
ghost use Rattle.simplex_disk.specs.Chain.{total};
ghost use Rattle.simplex_disk.specs.Ends.{Ends};
ghost use Rattle.simplex_disk.specs.Left.{Stands, LeavesSolid, IsMendable};
ghost use Rattle.simplex_disk.specs.Moments.{AlwaysOf, Then};
ghost use Rattle.simplex_disk.specs.Opening.{BeginsWith, GoesOn};

use crate::disk::Disk;
use crate::error::DiskError;
use crate::reading::take_record;
use std::alloc::{AllocError, Global};

/// Cuts the file behind its records, which take so many bytes, and closes it with a gate.
pub(crate) fn mend<D: Disk>(disk: &mut D, file: u64, len: u64) -> Result<(), DiskError>
    requires { (calls : List Call) × D.StandsFor disk.old calls
        × ((records : List Artifact) × IsMendable file records len calls) }
    // A crash at any moment of the call leaves a file with the same records.
    ensures stands { (calls : List Call) → D.StandsFor disk.old calls → (records : List Artifact)
        → IsMendable file records len calls
        → Then (D.StandsFor disk.new) (AlwaysOf file (LeavesSolid file records) calls)
        (λ now. OnOk result (Stands file records [] now)) }
    ensures ends { Ends (D.fault_count disk.old) (D.order disk.old) result
        (D.fault_count disk.new) (D.order disk.new) }
{
    // The cut has to be on the disk first: behind a gate that is torn open, what was there would count.
    disk.cut(file, len)?;
    disk.sync(file)?;
    disk.write_at(file, len, &[0])?;
    disk.sync(file)
}

/// What stands behind an open gate and its record, if these are at the front.
fn take_open(alloc: Global, bytes: &[u8]) -> Result<Option<&[u8]>, AllocError>
    ensures { IfOk result (λ found. GoesOn bytes.now (option_map (λ x. x.now) found)) }
{
    let Some(gate) = bytes.first() else {
        return Ok(None);
    };
    if *gate != 1 {
        return Ok(None);
    }
    let Some((artifact, behind)) = take_record(alloc, bytes)? else {
        return Ok(None);
    };
    drop(artifact);
    Ok(Some(behind))
}

/// How many bytes the records of a file take, and how many records there are.
#[derive(Clone, Copy, Debug)]
pub(crate) struct Extent {
    pub(crate) len: u64,
    pub(crate) count: u64,
}

/// Reads the records behind the open gates from the front on.
pub(crate) fn measure(alloc: Global, bytes: &[u8]) -> Result<Extent, AllocError>
    ensures { IfOk result (λ extent. (records : List Artifact) × BeginsWith records bytes.now
        × (extent.len ≡ total records) × (extent.count ≡ length records)) }
{
    let size = bytes.len() as u64;
    let mut rest = bytes;
    let mut count = 0;
    while let Some(behind) = take_open(alloc, rest)? {
        rest = behind;
        count += 1;
    }
    let len = size - rest.len() as u64;
    Ok(Extent { len, count })
}
