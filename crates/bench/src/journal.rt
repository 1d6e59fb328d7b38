//! A journal in segment files, over a disk in memory.

use simplex_disk::{DiskJournal, MemoryDisk};
use simplex_journal::{Journal, JournalError};
use simplex_values::{Epoch, Round, View};
use simplex_wire::Artifact;
use std::alloc::{AllocError, Global};

/// A disk in memory fails no call by itself, so what is left is want of memory.
fn done<T: Drop>(answer: Result<T, JournalError>) -> Result<T, AllocError> {
    answer.map_err(|_| AllocError)
}

fn new_journal(alloc: Global) -> Result<DiskJournal<MemoryDisk>, AllocError> {
    let disk = MemoryDisk::new(alloc, Vec::new(alloc));
    disk.may_be_settled();
    match DiskJournal::init(disk, alloc) {
        Ok(journal) => Ok(journal),
        Err(_) => Err(AllocError),
    }
}

/// So many records are appended to the section, which is synced then.
fn fill(
    journal: &mut DiskJournal<MemoryDisk>,
    alloc: Global,
    section: u64,
    size: u32,
) -> Result<(), AllocError> {
    for view in 0..size {
        let round = Round {
            epoch: Epoch(0),
            view: View(u64::from(view)),
        };
        done(journal.append(alloc, section, &Artifact::Certification(round, true)))?;
    }
    done(journal.sync(section))
}

fn count(journal: &mut DiskJournal<MemoryDisk>, alloc: Global) -> Result<u64, AllocError> {
    let records = done(journal.replay(alloc))?;
    Ok(records.len() as u64)
}

/// So many sections are filled, each with so many records. The last two of them are kept, and counted at the end.
pub(crate) fn sections(alloc: Global, size: u32, times: u32) -> Result<u64, AllocError> {
    let mut journal = new_journal(alloc)?;
    for section in 0..times {
        let section = u64::from(section);
        fill(&mut journal, alloc, section, size)?;
        done(journal.prune(section.saturating_sub(1)))?;
    }
    count(&mut journal, alloc)
}

/// A section with so many records is read again and again, and what is read is counted.
pub(crate) fn replays(alloc: Global, size: u32, times: u32) -> Result<u64, AllocError> {
    let mut journal = new_journal(alloc)?;
    fill(&mut journal, alloc, 1, size)?;
    let mut read = 0u64;
    for _ in 0..times {
        read = read.saturating_add(count(&mut journal, alloc)?);
    }
    Ok(read)
}
