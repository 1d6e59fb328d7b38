//! The journal.
ghost use Rattle.std.specs.Prelude.{◌≡◌, ◌<◌, ℕ, List, None, Some, OnOk, OnErr, IfOk, IfErr, IfSome, IsErrOf};
ghost use Rattle.std.specs.Result.{MatchResult};
ghost use Rattle.simplex_journal.specs.Contents.{IsRising};
ghost use Rattle.simplex_journal.specs.Faults.{Counts};
ghost use Rattle.simplex_journal.specs.Journal.{Section, appended, synced_at, all_synced, pruned, crashed, replayed};
ghost use Rattle.simplex_journal.specs.Order.{no_order, Obeys, Stands, PrunesInPart};
ghost use Rattle.simplex_disk.specs.Calls.{Call};
ghost use Rattle.simplex_disk.specs.Contents.{OnDisk, sections_kept, order_kept, IsOf, HasNoOther, Any};
ghost use Rattle.simplex_disk.specs.Index.{LeavesJournal, IsLeaving, IsBackAsBefore, MayBeBack};
ghost use Rattle.simplex_disk.specs.Left.{IsAbsent};
ghost use Rattle.simplex_disk.specs.Moments.{Always, Then};
ghost use Rattle.simplex_disk.specs.Goes.{LeavesNoMore, LeavesNoneBut, OutlastsCrashes, OutlastsAsRead};
ghost use Rattle.simplex_disk.specs.Pruning.{LeavesPruned, LeavesNoneAbove, IsBare};
ghost use Rattle.simplex_disk.specs.Opening.{IsSettled, AreRead, not_opened};

use crate::disk::{Disk, StopDisk};
use crate::error::InitError;
use crate::index::{Index, append_to, sync_at};
use crate::opening::open_files;
use crate::orders::{begin_call, end_call};
use crate::pruning::{call_to_fail, prune_files};
use crate::replaying::replay;
use crate::stopping::crash;
use crate::syncing::sync_each;
use simplex_journal::{Journal, JournalError};
use simplex_wire::Artifact;
use std::alloc::Global;
use std::marker::Model;

/// A journal in files of a disk: each section is one. It tells its order where its disk fails no other call.
#[derive(Drop)]
pub struct DiskJournal<D: Disk> {
    disk: D,
    index: Index,
    // a file of no section that may be there: its section was dropped and the removal failed, or its first append did
    leaving: Option<u64>,
    // where a listing of the files takes its memory
    alloc: Global,
    // which call is to fail, counted from now on and from 1; 0: none
    failing_call: u64,
    // how many sections a prune drops that fails so
    failing_sections: u64,
}

impl<D: Disk> Model for DiskJournal<D> {
    ghost use Rattle.std.specs.Prelude.{List};
    ghost use Rattle.simplex_disk.specs.Calls.{Call};
    ghost use Rattle.simplex_disk.specs.Contents.{OnDisk};
    ghost use Rattle.simplex_disk.specs.Index.{IsIndexed};

    ghost Value = { OnDisk D };

    ghost view = { λ journal. record {
      disk = journal.disk;
      entries = journal.index.entries;
      leaving = journal.leaving;
      order = record { call = journal.failing_call; sections = journal.failing_sections };
    } };

    ghost invariant = { λ journal. (calls : List Call) × D.StandsFor journal.disk calls
        × IsIndexed journal.index.entries journal.leaving calls };
}

impl<D: Disk> DiskJournal<D> {
    /// The journal in the files of the disk. Each file is cut behind its last whole record. A crash now would leave
    /// each file as it reads.
    pub fn init(disk: D, alloc: Global) -> Result<DiskJournal<D>, InitError<D>>
        requires { (calls : List Call) × D.StandsFor disk calls × IsSettled calls }
        ensures ok { IfOk result (λ journal. (journal.leaving ≡ None) × (journal.order ≡ no_order)
            × AreRead (D.contents disk) (sections_kept D.contents journal)) }
        ensures rising { IfOk result (λ journal. IsRising (sections_kept D.contents journal)) }
        // A crash at any moment of the call leaves files in which the same records are read.
        ensures moments { IfOk result
            (λ journal. OutlastsAsRead (D.StandsFor disk) (IsOf D.StandsFor journal)) }
        ensures moments_of_err { IfErr result
            (λ e. OutlastsAsRead (D.StandsFor disk) (D.StandsFor e.disk)) }
        ensures faults { IfOk result (λ journal. D.fault_count journal.disk ≡ D.fault_count disk) }
        ensures failed { IfErr result
            (λ e. Counts (D.fault_count disk) (not_opened e.error) (D.fault_count e.disk)) }
        // Of a disk that fails no call the journal is opened, unless memory runs out, and it fails none then either.
        ensures quiet { D.order disk ≡ Some 0
            → MatchResult result (λ journal. D.order journal.disk ≡ Some 0)
            (λ e. (D.order e.disk ≡ Some 0) × (e.error ≡ JournalError.Memory)) }
    {
        let mut disk = disk;
        match open_files(&mut disk, alloc) {
            Ok(index) => Ok(DiskJournal {
                disk,
                index,
                leaving: None,
                alloc,
                failing_call: 0,
                failing_sections: 0,
            }),
            Err(error) => Err(InitError {
                disk,
                error: JournalError::from(error),
            }),
        }
    }

    /// A crash right now leaves a journal with all synced records, and a first part of the pending ones: that is said,
    /// and nothing done. [clauses-of-the-disk]
    pub fn outlasts_a_crash(&self)
        ensures left { (calls : List Call) → IsOf D.StandsFor self.now calls
            → LeavesJournal (sections_kept D.contents self.now) self.now.leaving calls calls }
        // Of a section that was dropped and whose removal failed it leaves that section, with all that was synced, or
        // nothing. The first append of one that was never there left no record.
        ensures back { (calls : List Call) → IsOf D.StandsFor self.now calls → (n : ℕ) → IsLeaving self.now.leaving n
            → (s : Section) × (s.number ≡ n) × MayBeBack s calls }
    {}

    /// The disk, as it is.
    pub fn into_disk(self) -> D
        ensures disk { result ≡ self.disk }
        ensures rest { HasNoOther D.contents self }
    {
        let DiskJournal { disk, .. } = self;
        disk
    }
}

impl<D: StopDisk> Journal for DiskJournal<D> {
    ghost use Rattle.simplex_disk.specs.Contents.{sections_kept};
    ghost use Rattle.simplex_disk.specs.Orders.{order_told};

    ghost sections = { λ journal. sections_kept D.contents journal };

    ghost fault_count = { λ journal. D.fault_count journal.disk };

    ghost order = { λ journal. order_told (D.order journal.disk) journal.order };

    fn append(
        &mut self,
        alloc: Global,
        section: u64,
        artifact: &Artifact,
    ) -> Result<(), JournalError>
        ensures ok { OnOk result (sections_kept D.contents self.new
            ≡ appended section artifact.now (sections_kept D.contents self.old)) }
        ensures err { OnErr result (sections_kept D.contents self.new
            ≡ sections_kept D.contents self.old) }
        ensures ordered { Obeys (order_kept D.order self.old) result (order_kept D.order self.new) }
        ensures faults { Counts (D.fault_count self.old.disk) result (D.fault_count self.new.disk) }
        ensures made { OnOk result (LeavesNoMore self.old.leaving self.new.leaving) }
        ensures leaving { LeavesNoneBut section self.old.leaving self.new.leaving }
        // A crash at any moment of the call leaves a journal with all synced records, and a first part of the pending
        // ones.
        ensures moments { OutlastsCrashes D.StandsFor D.contents self.old self.new }
    {
        begin_call(&mut self.disk, self.failing_call, 1);
        let appended = append_to(
            &mut self.disk,
            &mut self.index,
            &mut self.leaving,
            alloc,
            section,
            artifact,
        );
        end_call(&mut self.disk, &mut self.failing_call, appended)
    }

    fn sync(&mut self, section: u64) -> Result<(), JournalError>
        ensures ok { OnOk result (sections_kept D.contents self.new
            ≡ synced_at section (sections_kept D.contents self.old)) }
        ensures err { OnErr result (sections_kept D.contents self.new
            ≡ sections_kept D.contents self.old) }
        ensures ordered { Obeys (order_kept D.order self.old) result (order_kept D.order self.new) }
        ensures faults { Counts (D.fault_count self.old.disk) result (D.fault_count self.new.disk) }
        ensures leaving { self.new.leaving ≡ self.old.leaving }
        // A crash at any moment of the call leaves a journal with all synced records, and a first part of the pending
        // ones.
        ensures moments { OutlastsCrashes D.StandsFor D.contents self.old self.new }
    {
        begin_call(&mut self.disk, self.failing_call, 1);
        let synced = sync_at(&mut self.disk, &mut self.index, section);
        end_call(&mut self.disk, &mut self.failing_call, synced)
    }

    fn sync_all(&mut self) -> Result<(), JournalError>
        ensures ok { OnOk result (sections_kept D.contents self.new
            ≡ all_synced (sections_kept D.contents self.old)) }
        ensures err { OnErr result (sections_kept D.contents self.new
            ≡ sections_kept D.contents self.old) }
        ensures ordered { Obeys (order_kept D.order self.old) result (order_kept D.order self.new) }
        ensures faults { Counts (D.fault_count self.old.disk) result (D.fault_count self.new.disk) }
        ensures leaving { self.new.leaving ≡ self.old.leaving }
        // A crash at any moment of the call leaves a journal with all synced records, and a first part of the pending
        // ones.
        ensures moments { OutlastsCrashes D.StandsFor D.contents self.old self.new }
    {
        begin_call(&mut self.disk, self.failing_call, 1);
        let synced = sync_each(&mut self.disk, &mut self.index, self.alloc);
        end_call(&mut self.disk, &mut self.failing_call, synced)
    }

    fn prune(&mut self, min: u64) -> Result<(), JournalError>
        ensures ok { OnOk result (sections_kept D.contents self.new
            ≡ pruned min (sections_kept D.contents self.old)) }
        ensures in_part { IsErrOf result JournalError.Failed
            → PrunesInPart (order_kept D.order self.old) min (sections_kept D.contents self.old)
            (sections_kept D.contents self.new) }
        ensures memory { IsErrOf result JournalError.Memory
            → sections_kept D.contents self.new ≡ sections_kept D.contents self.old }
        ensures ordered { Obeys (order_kept D.order self.old) result (order_kept D.order self.new) }
        ensures faults { Counts (D.fault_count self.old.disk) result (D.fault_count self.new.disk) }
        ensures gone { OnOk result (self.new.leaving ≡ None) }
        // No file below the least number is there, and no crash brings one back.
        ensures bare { OnOk result (IsBare min (D.contents self.new.disk)) }
        ensures bare_for_good { OnOk result
            ((calls : List Call) → IsOf D.StandsFor self.new calls → (n : ℕ)
            → n < min → IsAbsent n calls) }
        ensures leaving { LeavesNoneAbove min self.old.leaving self.new.leaving }
        // A crash at any moment of the call leaves a journal from which the first sections below the least number are
        // gone.
        ensures moments { (calls : List Call) → IsOf D.StandsFor self.old calls
            → Then (IsOf D.StandsFor self.new)
            (Always (LeavesPruned min
            (sections_kept D.contents self.old) self.old.leaving calls) calls) Any }
    {
        let Some(number) = call_to_fail(&self.index, &self.leaving, self.failing_sections, min)
        else {
            return Err(JournalError::Memory);
        };
        begin_call(&mut self.disk, self.failing_call, number);
        let pruned = prune_files(
            &mut self.disk,
            &mut self.index,
            &mut self.leaving,
            self.alloc,
            min,
        );
        end_call(&mut self.disk, &mut self.failing_call, pruned)
    }

    fn replay(&mut self, alloc: Global) -> Result<Vec<Artifact>, JournalError>
        ensures ok { IfOk result (λ records. records.items
            ≡ replayed (sections_kept D.contents self.old)) }
        ensures stays { sections_kept D.contents self.new ≡ sections_kept D.contents self.old }
        ensures ordered { Obeys (order_kept D.order self.old) result (order_kept D.order self.new) }
        ensures faults { Counts (D.fault_count self.old.disk) result (D.fault_count self.new.disk) }
        ensures leaving { self.new.leaving ≡ self.old.leaving }
        ensures moments { (calls : List Call) → IsOf D.StandsFor self.old calls
            → IsOf D.StandsFor self.new calls }
    {
        begin_call(&mut self.disk, self.failing_call, 1);
        let records = replay(&mut self.disk, alloc, &self.index);
        end_call(&mut self.disk, &mut self.failing_call, records)
    }

    fn faults(&self) -> u64 {
        self.disk.faults()
    }

    fn crash(&mut self, keep: u64)
        ensures left { sections_kept D.contents self.new
            ≡ crashed keep (sections_kept D.contents self.old) }
        ensures order { Stands (order_kept D.order self.old) (order_kept D.order self.new) }
        ensures faults { D.fault_count self.new.disk ≡ D.fault_count self.old.disk }
        ensures rest { HasNoOther D.contents self.new }
        // A crash right after it leaves each file as it reads, so that the disk may be opened again.
        ensures moments { (calls : List Call) → IsOf D.StandsFor self.old calls
            → Then (IsOf D.StandsFor self.new) Any (λ now. IsSettled now
            × IsBackAsBefore self.old.leaving calls now) }
        ensures leaving { self.new.leaving ≡ self.old.leaving }
    {
        crash(&mut self.disk, &mut self.index, keep);
    }

    fn fail_next(&mut self, call: u64, dropped: u64)
        ensures order { IfSome (order_kept D.order self.old)
            (λ _. order_kept D.order self.new ≡ Some (record { call = call; sections = dropped })) }
        ensures stays { sections_kept D.contents self.new ≡ sections_kept D.contents self.old }
        ensures faults { D.fault_count self.new.disk ≡ D.fault_count self.old.disk }
        ensures leaving { self.new.leaving ≡ self.old.leaving }
        ensures moments { (calls : List Call) → IsOf D.StandsFor self.old calls
            → IsOf D.StandsFor self.new calls }
    {
        self.failing_call = call;
        self.failing_sections = dropped;
    }
}
