//! A run of forty journal calls, and two replays between them.
use simplex_disk::{DiskJournal, InitError, MemoryDisk};
use simplex_journal::{Journal, JournalError};
use simplex_values::{Epoch, Round, View};
use simplex_wire::Artifact;
use std::alloc::{AllocError, Global};

/// A record that is told by its view.
pub(crate) fn record(view: u64) -> Artifact {
    let round = Round {
        epoch: Epoch(0),
        view: View(view),
    };
    Artifact::Certification(round, true)
}

/// The journal on the disk.
pub(crate) fn opened(
    disk: MemoryDisk,
    alloc: Global,
) -> Result<DiskJournal<MemoryDisk>, JournalError> {
    disk.may_be_settled();
    match DiskJournal::init(disk, alloc) {
        Ok(journal) => Ok(journal),
        Err(InitError { disk: _, error }) => Err(error),
    }
}

fn one_number(alloc: Global, number: u64) -> Result<Vec<u64>, AllocError> {
    let mut numbers = Vec::new(alloc);
    numbers.push(number)?;
    Ok(numbers)
}

/// A journal on a disk with no file, whose call of this number fails, if it is not 0.
pub(crate) fn new_journal(
    alloc: Global,
    failing: u64,
) -> Result<DiskJournal<MemoryDisk>, JournalError> {
    let numbers = if failing > 0 {
        one_number(alloc, failing)?
    } else {
        Vec::new(alloc)
    };
    opened(MemoryDisk::new(alloc, numbers), alloc)
}

/// The call of this number of the run: ten times two appends to a section of its own, a sync and a prune.
fn call<J: Journal>(journal: &mut J, alloc: Global, number: u64) -> Result<(), JournalError> {
    let section = number / 4 + 1;
    match number % 4 {
        0 => journal.append(alloc, section, &record(section)),
        1 => journal.append(alloc, section, &record(section + 100)),
        2 if section % 2 == 0 => journal.sync_all(),
        2 => journal.sync(section),
        _ => journal.prune(section.saturating_sub(2)),
    }
}

/// Before these calls the journal is replayed: then four sections are there, the last of them with one record.
const REPLAYED: [u64; 2] = [13, 33];

/// What is answered where a replay ends well and reads other records than it has to: no run ends in such a call.
const WRONG: u64 = 100;

/// The records are read before the call of this number, where they are read before it. None: that ended well, or was not asked.
fn replay<J: Journal>(journal: &mut J, alloc: Global, number: u64) -> Option<u64> {
    if !REPLAYED.contains(&number) {
        return None;
    }
    match journal.replay(alloc) {
        Ok(records) if records.len() == 7 && may_be(&records, number) => None,
        Ok(_) => Some(WRONG),
        Err(_) => Some(number),
    }
}

/// Makes the calls up to the first that does not end well, and answers how many did. A replay counts with the call after it.
pub(crate) fn forty<J: Journal>(journal: &mut J, alloc: Global) -> u64 {
    for number in 0..40 {
        if let Some(ended) = replay(journal, alloc, number) {
            return ended;
        }
        if call(journal, alloc, number).is_err() {
            return number;
        }
    }
    40
}

/// How many records of this section are at the front: at most two, in their order.
fn of_section(records: &[Artifact], from: usize, section: u64) -> usize {
    let Some(first) = records.get(from) else {
        return 0;
    };
    if *first != record(section) {
        return 0;
    }
    match records.get(from.saturating_add(1)) {
        Some(second) if *second == record(section.saturating_add(100)) => 2,
        _ => 1,
    }
}

/// Whether so many records of a section may be left of a run that ended in the call of this number.
fn may_be_left(section: u64, count: usize, number: u64) -> bool {
    let last = number / 4 + 1;
    let kept = last.saturating_sub(3);
    if section > last || section < kept {
        return count == 0;
    }
    if section < last || number % 4 == 3 {
        // A prune drops the section whole or not at all.
        return count == 2 || (section == kept && number % 4 == 3 && count == 0);
    }
    // The first append may have left one record, the second and the sync two.
    count <= 1 || (count == 2 && number % 4 > 0)
}

/// Whether these records may be left of a run that ended in the call of this number: those that were synced, a first part
/// of the pending ones, and one section fewer while it is pruned.
pub(crate) fn may_be(records: &[Artifact], number: u64) -> bool {
    let mut from = 0usize;
    for section in 1..=10u64 {
        let count = of_section(records, from, section);
        if !may_be_left(section, count, number) {
            return false;
        }
        from = from.saturating_add(count);
    }
    from == records.len()
}
