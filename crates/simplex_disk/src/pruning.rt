//! Sections that are dropped.
ghost use Rattle.std.specs.Prelude.{◌≡◌, ◌<◌, ◌≤◌, ◌*◌, ℕ, suc, min, List, None, Some, OnOk, IfSome, IsErrOf};
ghost use Rattle.std.specs.List.Sorted.{IsStrictlySortedBy};
ghost use Rattle.std.specs.Map.{keys_of};
ghost use Rattle.std.specs.Ordering.{nat_cmp};
ghost use Rattle.std.specs.Result.{MatchResult};
ghost use Rattle.simplex_journal.specs.Journal.{pruned, pruned_first};
ghost use Rattle.simplex_wire.specs.declared.artifact.Artifact.{Artifact};
ghost use Rattle.simplex_disk.specs.Calls.{Call};
ghost use Rattle.simplex_disk.specs.Ends.{Ends};
ghost use Rattle.simplex_disk.specs.Goes.{LeavesNoMore};
ghost use Rattle.simplex_disk.specs.Index.{IsIndexed, IsIndexedBut, sections_at, sections_in};
ghost use Rattle.simplex_disk.specs.Left.{IsAbsent, LeavesFront};
ghost use Rattle.simplex_disk.specs.Moments.{Always, AlwaysOf, Then};
ghost use Rattle.simplex_disk.specs.Pruning.{LeavesPruned, LeavesNoneAbove, LeavesGone, BeginsAt, behind_first, IsPaced, count_below, failing_disk_call};

use crate::disk::Disk;
use crate::error::DiskError;
use crate::index::{Index, finish_removal};
use std::alloc::Global;

/// Removes the file.
fn drop_file<D: Disk>(disk: &mut D, file: u64) -> Result<(), DiskError>
    ensures stands { (calls : List Call) → D.StandsFor disk.old calls → (synced pending : List Artifact)
        → LeavesFront file synced pending calls
        → Then (D.StandsFor disk.new) (AlwaysOf file (LeavesGone file synced pending) calls)
        (λ now. OnOk result (IsAbsent file now)) }
    ensures room { ¬ IsErrOf result DiskError.Memory }
    ensures paced { IsPaced (D.order disk.old) result (D.order disk.new) }
    ensures ends { Ends (D.fault_count disk.old) (D.order disk.old) result
        (D.fault_count disk.new) (D.order disk.new) }
{
    disk.remove(file)?;
    disk.sync(file)
}

/// Drops the first section.
fn drop_section<D: Disk>(
    disk: &mut D,
    index: &mut Index,
    leaving: &mut Option<u64>,
    number: u64,
) -> Result<(), DiskError>
    requires { BeginsAt number index.old.entries }
    ensures stands { (calls : List Call) → D.StandsFor disk.old calls → IsIndexed index.old.entries None calls
        → leaving.old ≡ None → (least : ℕ) → number < least
        → Then (D.StandsFor disk.new)
        (Always (LeavesPruned least (sections_at calls index.old.entries) None calls) calls)
        (λ now. IsIndexed index.new.entries leaving.new now
        × (sections_at now index.new.entries
        ≡ pruned_first 1 least (sections_at calls index.old.entries))) }
    ensures kept { index.new.entries ≡ behind_first index.old.entries }
    ensures gone { OnOk result (leaving.new ≡ None) }
    ensures leaves { LeavesNoMore (Some number) leaving.new }
    ensures fewer { (least : ℕ) → number < least
        → count_below least index.old.entries ≡ suc (count_below least index.new.entries) }
    ensures room { ¬ IsErrOf result DiskError.Memory }
    ensures paced { IsPaced (D.order disk.old) result (D.order disk.new) }
    ensures ends { Ends (D.fault_count disk.old) (D.order disk.old) result
        (D.fault_count disk.new) (D.order disk.new) }
{
    index.remove(&number);
    *leaving = Some(number);
    drop_file(disk, number)?;
    *leaving = None;
    Ok(())
}

/// Drops the sections below the least number. These are the numbers of all files.
fn drop_listed<D: Disk>(
    disk: &mut D,
    index: &mut Index,
    leaving: &mut Option<u64>,
    numbers: &[u64],
    least: u64,
) -> Result<(), DiskError>
    requires { numbers.now ≡ keys_of index.old.entries }
    ensures stands { (calls : List Call) → D.StandsFor disk.old calls → IsIndexed index.old.entries None calls
        → leaving.old ≡ None
        → Then (D.StandsFor disk.new)
        (Always (LeavesPruned least (sections_at calls index.old.entries) None calls) calls)
        (λ now. IsIndexed index.new.entries leaving.new now
        × MatchResult result
        (λ _. (leaving.new ≡ None)
        × (sections_at now index.new.entries ≡ pruned least (sections_at calls index.old.entries)))
        (λ _. (dropped : ℕ)
        × (sections_at now index.new.entries
        ≡ pruned_first dropped least (sections_at calls index.old.entries))
        × ((named : ℕ) → 0 < named → D.order disk.old ≡ Some (2 * named) → dropped ≡ named))) }
    ensures gone { leaving.old ≡ None → OnOk result (leaving.new ≡ None) }
    ensures leaves { leaving.old ≡ None → LeavesNoneAbove least None leaving.new }
    ensures named { (named : ℕ) → 0 < named → named ≤ count_below least index.old.entries
        → D.order disk.old ≡ Some (2 * named) → OnOk result ⊥ }
    ensures room { ¬ IsErrOf result DiskError.Memory }
    ensures ends { Ends (D.fault_count disk.old) (D.order disk.old) result
        (D.fault_count disk.new) (D.order disk.new) }
{
    // The length is asked for its clause, which says that the numbers rise.
    let _ordered = index.len();
    for number in numbers {
        if *number >= least {
            return Ok(());
        }
        drop_section(disk, index, leaving, *number)?;
    }
    Ok(())
}

/// Drops the sections below the least number: no file below it is there then.
pub(crate) fn prune_files<D: Disk>(
    disk: &mut D,
    index: &mut Index,
    leaving: &mut Option<u64>,
    alloc: Global,
    least: u64,
) -> Result<(), DiskError>
    requires { IsIndexedBut (D.StandsFor disk.old) index.old.entries leaving.old }
    ensures stands { (calls : List Call) → D.StandsFor disk.old calls → IsIndexed index.old.entries leaving.old calls
        → Then (D.StandsFor disk.new)
        (Always (LeavesPruned least (sections_at calls index.old.entries) leaving.old calls) calls)
        (λ now. IsIndexed index.new.entries leaving.new now
        × MatchResult result
        (λ _. sections_at now index.new.entries
        ≡ pruned least (sections_at calls index.old.entries))
        (λ e. (dropped : ℕ)
        × (sections_at now index.new.entries
        ≡ pruned_first dropped least (sections_at calls index.old.entries))
        × (e ≡ DiskError.Failed → (named : ℕ)
        → D.order disk.old ≡ Some (failing_disk_call leaving.old named)
        → dropped ≡ named))) }
    ensures gone { OnOk result (leaving.new ≡ None) }
    ensures leaves { LeavesNoneAbove least leaving.old leaving.new }
    ensures memory { IsErrOf result DiskError.Memory
        → sections_in (D.contents disk.new) index.new.entries
        ≡ sections_in (D.contents disk.old) index.old.entries }
    ensures ends { Ends (D.fault_count disk.old) (D.order disk.old) result
        (D.fault_count disk.new) (D.order disk.new) }
    ensures named { (named : ℕ) → named ≤ count_below least index.old.entries
        → D.order disk.old ≡ Some (failing_disk_call leaving.old named) → OnOk result ⊥ }
{
    // The length is asked for its clause, which says that the numbers rise.
    let _ordered = index.len();
    finish_removal(disk, leaving)?;
    let numbers = disk.files(alloc)?;
    drop_listed(disk, index, leaving, &numbers, least)
}

/// How many sections are below the least number.
fn sections_below(index: &Index, least: u64) -> u64
    ensures { result ≡ count_below least index.now.entries }
{
    // The length is asked for its clause, which says that it is a u64: so the count, which is no more, does not wrap.
    let _all = index.len();
    let mut count = 0;
    for (number, _) in index {
        if *number >= least {
            return count;
        }
        count += 1;
    }
    count
}

/// Which disk call of a prune fails so that it drops so many sections, or all below the least number where there are
/// fewer. None where its number has a place in no u64.
pub(crate) fn call_to_fail(
    index: &Index,
    leaving: &Option<u64>,
    sections: u64,
    least: u64,
) -> Option<u64>
    ensures number { IfSome result (λ number. number
        ≡ failing_disk_call leaving.now (min sections (count_below least index.now.entries))) }
    ensures ordered { IsStrictlySortedBy nat_cmp (keys_of index.now.entries) }
{
    // The length is asked for its clause, which says that the numbers rise.
    let _ordered = index.len();
    let dropped = sections.min(sections_below(index, least));
    let before: u64 = if leaving.is_some() { 3 } else { 1 };
    let calls = dropped.checked_mul(2)?;
    calls.checked_add(before)
}
