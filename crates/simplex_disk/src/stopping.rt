//! A stop.
ghost use Rattle.std.specs.Prelude.{◌≡◌, ◌+◌, ◌++◌, ℕ, List, Option, [], length, take};
ghost use Rattle.simplex_journal.specs.Journal.{crashed};
ghost use Rattle.simplex_wire.specs.declared.artifact.Artifact.{Artifact};
ghost use Rattle.simplex_disk.specs.Answers.{OrderStands};
ghost use Rattle.simplex_disk.specs.Calls.{Call};
ghost use Rattle.simplex_disk.specs.Chain.{total, places};
ghost use Rattle.simplex_disk.specs.Contents.{Any};
ghost use Rattle.simplex_disk.specs.Index.{IsIndexed, IsIndexedBy, IsBackAsBefore, sections_at};
ghost use Rattle.simplex_disk.specs.Moments.{AlwaysOf, Then};
ghost use Rattle.simplex_disk.specs.Opening.{IsSettledAt, IsSettled};
ghost use Rattle.simplex_disk.specs.Segments.{IsSegment};
ghost use Rattle.simplex_disk.specs.Stopping.{WaitsFirst, OpensFirst, IsStopped, StopsAt};

use crate::disk::StopDisk;
use crate::index::{Index, first_section, section_after};
use crate::segment::Segment;

/// Opens these gates, which are those of the first pending records.
fn leave_open<D: StopDisk>(disk: &mut D, file: u64, gates: &[u64])
    requires { (calls : List Call) × D.StandsFor disk.old calls
        × ((synced pending : List Artifact) × WaitsFirst file synced pending gates.now calls) }
    ensures stands { (calls : List Call) → D.StandsFor disk.old calls → (synced pending : List Artifact)
        → WaitsFirst file synced pending gates.now calls
        → Then (D.StandsFor disk.new) (AlwaysOf file Any calls)
        (OpensFirst file synced pending (length gates.now)) }
    ensures faults { D.fault_count disk.new ≡ D.fault_count disk.old }
    ensures order { OrderStands (D.order disk.old) (D.order disk.new) }
{
    for place in gates {
        disk.leave(file, *place, 1);
    }
}

/// Closes the gate behind the first `kept` ones, if there is one, and answers the place behind the last gate.
fn close_next<D: StopDisk>(disk: &mut D, file: u64, gates: &[u64], kept: usize, end: u64) -> u64
    requires { (calls : List Call) × D.StandsFor disk.old calls
        × ((synced pending : List Artifact) × OpensFirst file synced pending kept calls
        × (gates.now ≡ places (total synced) pending) × (end ≡ total synced + total pending + 1)) }
    ensures stands { (calls : List Call) → D.StandsFor disk.old calls → (synced pending : List Artifact)
        → OpensFirst file synced pending kept calls
        → gates.now ≡ places (total synced) pending → end ≡ total synced + total pending + 1
        → Then (D.StandsFor disk.new) (AlwaysOf file Any calls)
        (λ now. IsStopped file (synced ++ take kept pending) now
        × (result ≡ total synced + total (take kept pending) + 1)) }
    ensures faults { D.fault_count disk.new ≡ D.fault_count disk.old }
    ensures order { OrderStands (D.order disk.old) (D.order disk.new) }
{
    if kept >= gates.len() {
        return end;
    }
    let place = gates[kept];
    disk.leave(file, place, 0);
    place + 1
}

/// Keeps the first pending records alone, and counts them as synced.
fn crash_segment<D: StopDisk>(disk: &mut D, file: u64, segment: &mut Segment, keep: u64)
    requires { (calls : List Call) × D.StandsFor disk.old calls
        × ((synced pending : List Artifact) × IsSegment file segment.old synced pending calls
        × IsSettledAt file calls) }
    ensures stands { (calls : List Call) → D.StandsFor disk.old calls → (synced pending : List Artifact)
        → IsSegment file segment.old synced pending calls → IsSettledAt file calls
        → Then (D.StandsFor disk.new) (AlwaysOf file Any calls)
        (λ now. IsSegment file segment.new (synced ++ take keep pending) [] now
        × IsSettledAt file now) }
    ensures faults { D.fault_count disk.new ≡ D.fault_count disk.old }
    ensures order { OrderStands (D.order disk.old) (D.order disk.new) }
{
    let kept = keep.min(segment.gates.len() as u64) as usize;
    leave_open(disk, file, &segment.gates[..kept]);
    segment.end = close_next(disk, file, &segment.gates, kept, segment.end);
    segment.synced += kept as u64;
    segment.gates.clear();
}

// Where it is there, of the section of this number stands what a stop leaves.
fn crash_at<D: StopDisk>(disk: &mut D, index: &mut Index, number: u64, keep: u64)
    requires { (calls : List Call) × D.StandsFor disk.old calls
        × ((leaving : Option ℕ) × IsIndexed index.old.entries leaving calls × IsSettled calls) }
    ensures stands { (calls : List Call) → D.StandsFor disk.old calls → (leaving : Option ℕ)
        → IsIndexed index.old.entries leaving calls → IsSettled calls
        → Then (D.StandsFor disk.new) (AlwaysOf number Any calls)
        (λ now. IsIndexed index.new.entries leaving now × IsSettled now
        × StopsAt keep number calls now index.old.entries index.new.entries) }
    ensures faults { D.fault_count disk.new ≡ D.fault_count disk.old }
    ensures order { OrderStands (D.order disk.old) (D.order disk.new) }
{
    let Some(segment) = index.get_mut(&number) else {
        return;
    };
    crash_segment(disk, number, segment, keep);
}

/// Of each section stands what a stop leaves.
pub(crate) fn crash<D: StopDisk>(disk: &mut D, index: &mut Index, keep: u64)
    requires { IsIndexedBy (D.StandsFor disk.old) index.old.entries }
    ensures stands { (calls : List Call) → D.StandsFor disk.old calls → (leaving : Option ℕ)
        → IsIndexed index.old.entries leaving calls
        → Then (D.StandsFor disk.new) Any
        (λ now. IsIndexed index.new.entries leaving now × IsSettled now
        × (sections_at now index.new.entries ≡ crashed keep (sections_at calls index.old.entries))
        × IsBackAsBefore leaving calls now) }
    ensures faults { D.fault_count disk.new ≡ D.fault_count disk.old }
    ensures order { OrderStands (D.order disk.old) (D.order disk.new) }
{
    // The length is asked for its clause, which says that the numbers rise.
    let _ordered = index.len();
    disk.settle();
    let mut next = first_section(index);
    while let Some(number) = next {
        crash_at(disk, index, number, keep);
        next = section_after(index, number);
    }
}
