//! The files of a journal.
ghost use Rattle.std.specs.Prelude.{◌≡◌, ◌<◌, ◌+◌, ◌^◌, [], ◌∷◌, ℕ, List, Option, None, OnOk, OnErr, IfOk, IfSome, IsErrOf};
ghost use Rattle.std.specs.Ordering.{nat_cmp};
ghost use Rattle.std.specs.BTreeMap.{insert_entry, is_at};
ghost use Rattle.std.specs.Map.{lookup};
ghost use Rattle.simplex_journal.specs.Journal.{appended, synced_at};
ghost use Rattle.simplex_disk.specs.declared.segment.Segment.{Segment};
ghost use Rattle.simplex_disk.specs.Calls.{Call};
ghost use Rattle.simplex_disk.specs.Chain.{OfRecord};
ghost use Rattle.simplex_disk.specs.Ends.{Ends, IsNamed, IsAwaited};
ghost use Rattle.simplex_disk.specs.Goes.{Goes, Changes, LeavesNoMore, LeavesNoneBut};
ghost use Rattle.simplex_disk.specs.Index.{IsIndexedBy, IsIndexedBut};
ghost use Rattle.simplex_disk.specs.Left.{IsShut, LeavesClosed};
ghost use Rattle.simplex_disk.specs.Stopping.{IsNext};
ghost use Rattle.simplex_disk.specs.Pruning.{IsSpared, removal_calls};
ghost use Rattle.simplex_disk.specs.Moments.{AlwaysOf, Then};
ghost use Rattle.simplex_disk.specs.Segments.{IsSegment};

use crate::disk::Disk;
use crate::error::DiskError;
use crate::segment::{Segment, append_record, make_file, open_segment};
use crate::writing::record_and_gate;
use simplex_wire::Artifact;
use std::alloc::{AllocError, Global};
use std::collections::BTreeMap;
use std::ops::Bound;

/// What is kept of the files, by number: each section is one.
pub(crate) type Index = BTreeMap<u64, Segment>;

/// Keeps what is kept of one file more.
pub(crate) fn put(index: &mut Index, number: u64, segment: Segment) -> Result<(), DiskError>
    ensures ok { OnOk result (index.new.entries
        ≡ insert_entry nat_cmp index.old.entries number segment) }
    ensures err { OnErr result (index.new.entries ≡ index.old.entries) }
    ensures memory { ¬ IsErrOf result DiskError.Failed }
{
    index.insert(number, segment)?;
    Ok(())
}

/// Makes the file of a section with its first record. [first-append]
fn first_record<D: Disk>(
    disk: &mut D,
    alloc: Global,
    file: u64,
    bytes: &[u8],
) -> Result<Segment, DiskError>
    requires { (calls : List Call) × D.StandsFor disk.old calls × IsShut file calls }
    ensures stands { (calls : List Call) → D.StandsFor disk.old calls → IsShut file calls
        → Then (D.StandsFor disk.new) (AlwaysOf file (LeavesClosed file) calls)
        (λ now. IsShut file now × IfOk result
        (λ segment. OfRecord bytes.now
        (λ artifact. IsSegment file segment [] (artifact ∷ []) now))) }
    ensures ends { Ends (D.fault_count disk.old) (D.order disk.old) result
        (D.fault_count disk.new) (D.order disk.new) }
    ensures named { IsNamed (D.order disk.old) result }
{
    make_file(disk, file)?;
    let mut segment = Segment::new(alloc);
    append_record(disk, file, &mut segment, bytes)?;
    Ok(segment)
}

/// Removes the file that is leaving. [files-of-no-section]
pub(crate) fn finish_removal<D: Disk>(
    disk: &mut D,
    leaving: &mut Option<u64>,
) -> Result<(), DiskError>
    ensures goes { (es : List (ℕ × Segment))
        → Goes (D.StandsFor disk.old) (D.StandsFor disk.new) es es leaving.old leaving.new
        (λ old new. new ≡ old) }
    ensures gone { OnOk result (leaving.new ≡ None) }
    ensures less { LeavesNoMore leaving.old leaving.new }
    ensures room { ¬ IsErrOf result DiskError.Memory }
    ensures ends { Ends (D.fault_count disk.old) (D.order disk.old) result
        (D.fault_count disk.new) (D.order disk.new) }
    ensures awaited { IsAwaited (D.order disk.old) result (D.order disk.new) }
    ensures spared { IsSpared (removal_calls leaving.old)
        (D.order disk.old) result (D.order disk.new) }
{
    if let Some(file) = *leaving {
        disk.remove(file)?;
        disk.sync(file)?;
        *leaving = None;
    }
    Ok(())
}

// Opens the section of this number with its first record. A file that is leaving is removed first, so that there is
// never another of no section than this one.
fn open_section<D: Disk>(
    disk: &mut D,
    index: &mut Index,
    leaving: &mut Option<u64>,
    alloc: Global,
    number: u64,
    bytes: &[u8],
) -> Result<(), DiskError>
    requires indexed { IsIndexedBut (D.StandsFor disk.old) index.old.entries leaving.old }
    requires absent { lookup (is_at (nat_cmp number)) index.old.entries ≡ None }
    ensures goes { OfRecord bytes.now (λ artifact. Goes (D.StandsFor disk.old) (D.StandsFor disk.new)
        index.old.entries index.new.entries leaving.old leaving.new
        (Changes result (appended number artifact))) }
    ensures gone { OnOk result (leaving.new ≡ None) }
    ensures less { LeavesNoneBut number leaving.old leaving.new }
    ensures ends { Ends (D.fault_count disk.old) (D.order disk.old) result
        (D.fault_count disk.new) (D.order disk.new) }
    ensures named { IsNamed (D.order disk.old) result }
{
    finish_removal(disk, leaving)?;
    *leaving = Some(number);
    let segment = first_record(disk, alloc, number, bytes)?;
    put(index, number, segment)?;
    *leaving = None;
    Ok(())
}

// Puts what is written of a record behind the last one of the section, which is opened where it is not there.
fn append_bytes<D: Disk>(
    disk: &mut D,
    index: &mut Index,
    leaving: &mut Option<u64>,
    alloc: Global,
    number: u64,
    bytes: &[u8],
) -> Result<(), DiskError>
    requires { IsIndexedBut (D.StandsFor disk.old) index.old.entries leaving.old }
    ensures goes { OfRecord bytes.now (λ artifact. Goes (D.StandsFor disk.old) (D.StandsFor disk.new)
        index.old.entries index.new.entries leaving.old leaving.new
        (Changes result (appended number artifact))) }
    ensures made { OnOk result (LeavesNoMore leaving.old leaving.new) }
    ensures less { LeavesNoneBut number leaving.old leaving.new }
    ensures ends { Ends (D.fault_count disk.old) (D.order disk.old) result
        (D.fault_count disk.new) (D.order disk.new) }
    ensures named { IsNamed (D.order disk.old) result }
{
    if let Some(segment) = index.get_mut(&number) {
        return append_record(disk, number, segment, bytes);
    }
    open_section(disk, index, leaving, alloc, number, bytes)
}

/// Appends the record to the section of this number, which is opened where it is not there.
pub(crate) fn append_to<D: Disk>(
    disk: &mut D,
    index: &mut Index,
    leaving: &mut Option<u64>,
    alloc: Global,
    number: u64,
    artifact: &Artifact,
) -> Result<(), DiskError>
    requires { IsIndexedBut (D.StandsFor disk.old) index.old.entries leaving.old }
    ensures goes { Goes (D.StandsFor disk.old) (D.StandsFor disk.new)
        index.old.entries index.new.entries leaving.old leaving.new
        (Changes result (appended number artifact.now)) }
    ensures made { OnOk result (LeavesNoMore leaving.old leaving.new) }
    ensures less { LeavesNoneBut number leaving.old leaving.new }
    ensures ends { Ends (D.fault_count disk.old) (D.order disk.old) result
        (D.fault_count disk.new) (D.order disk.new) }
    ensures named { IsNamed (D.order disk.old) result }
{
    let bytes = record_and_gate(alloc, artifact)?;
    append_bytes(disk, index, leaving, alloc, number, &bytes)
}

/// Syncs the pending records of the section. Where it is not there, the file is synced.
pub(crate) fn sync_at<D: Disk>(
    disk: &mut D,
    index: &mut Index,
    number: u64,
) -> Result<(), DiskError>
    requires { IsIndexedBy (D.StandsFor disk.old) index.old.entries }
    ensures goes { (leaving : Option ℕ) → Goes (D.StandsFor disk.old) (D.StandsFor disk.new)
        index.old.entries index.new.entries leaving leaving (Changes result (synced_at number)) }
    ensures ends { Ends (D.fault_count disk.old) (D.order disk.old) result
        (D.fault_count disk.new) (D.order disk.new) }
    ensures named { IsNamed (D.order disk.old) result }
{
    let Some(segment) = index.get_mut(&number) else {
        return disk.sync(number);
    };
    open_segment(disk, number, segment)?;
    segment.count_synced();
    Ok(())
}

/// The least number of a section.
pub(crate) fn first_section(index: &Index) -> Option<u64>
    ensures next { IsNext index.now.entries 0 result }
    ensures small { IfSome result (λ n. n < 2 ^ 64) }
{
    match index.range(0..).next() {
        Some((number, _)) => Some(*number),
        None => None,
    }
}

/// The least number of a section above this one.
pub(crate) fn section_after(index: &Index, number: u64) -> Option<u64>
    ensures next { IsNext index.now.entries (number + 1) result }
    ensures small { IfSome result (λ n. n < 2 ^ 64) }
{
    let above = (Bound::Excluded(number), Bound::Unbounded);
    match index.range(above).next() {
        Some((next, _)) => Some(*next),
        None => None,
    }
}
