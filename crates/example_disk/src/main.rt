//! Uses the journal in segment files over a disk of one's own, which counts what is written to it.
#![tactic(auto)]

ghost use Rattle.std.specs.Prelude.{◌≡◌, List, OnOk};
ghost use Rattle.simplex.specs.DiskCalls.{Call};
ghost use Rattle.simplex.specs.DiskContents.{IsOf, sections_kept};
ghost use Rattle.simplex.specs.Index.{LeavesJournal};
ghost use Rattle.simplex.specs.Journal.{appended, synced_at};

mod metered;

use crate::metered::Metered;
use anyhow::{Result, bail};
use simplex::journal::{DiskJournal, Journal, JournalError, MemoryDisk, StopDisk};
use simplex::types::{Artifact, Epoch, Round, View};
use std::alloc::Global;
use std::io::Print;

/// An application's verdict on the notarization of view 7.
fn verdict() -> Artifact {
    let round = Round {
        epoch: Epoch(0),
        view: View(7),
    };
    Artifact::Certification(round, true)
}

/// Appends the verdict to the section of its view, and syncs the section: whatever disk lies below, a crash leaves it then.
fn keep<D: StopDisk>(
    journal: &mut DiskJournal<D>,
    alloc: Global,
    verdict: &Artifact,
) -> Result<(), JournalError>
    ensures kept { OnOk result (sections_kept D.contents journal.new
        ≡ synced_at 7 (appended 7 verdict.now (sections_kept D.contents journal.old))) }
    ensures left { OnOk result ((calls : List Call) → IsOf D.StandsFor journal.new calls
        → LeavesJournal (sections_kept D.contents journal.new) journal.new.leaving calls calls) }
{
    journal.append(alloc, 7, verdict)?;
    journal.sync(7)?;
    journal.outlasts_a_crash();
    Ok(())
}

/// The journal in the files of the disk.
fn opened(disk: Metered<MemoryDisk>, alloc: Global) -> Result<DiskJournal<Metered<MemoryDisk>>> {
    disk.may_be_settled();
    match DiskJournal::init(disk, alloc) {
        Ok(journal) => Ok(journal),
        Err(failed) => bail!("no journal: {}", failed.error),
    }
}

fn main(rt: HostRuntime) -> Result<()> {
    let alloc = rt.alloc();
    let disk = Metered::new(MemoryDisk::new(alloc, Vec::new(alloc)));
    let mut journal = opened(disk, alloc)?;
    keep(&mut journal, alloc, &verdict())?;
    let disk = journal.into_disk();
    let written = disk.written();
    println!(rt; "{written} bytes were written")?;
    let mut journal = opened(disk, alloc)?;
    let found = journal.replay(alloc)?.len();
    println!(rt; "{found} record was read again")?;
    Ok(())
}
