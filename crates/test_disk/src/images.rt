//! What a crash may leave of a disk.
use crate::runs::{forty, may_be, new_journal, opened};
use simplex_disk::{Disk, DiskError, MemoryDisk};
use simplex_journal::{Journal, JournalError};
use std::alloc::Global;

/// How the bytes from a place on are left of a file that was not synced.
#[derive(Clone, Copy, Debug, PartialEq, Eq)]
pub(crate) enum Rest {
    /// None of them.
    Cut,
    /// So many, but each of them this one.
    All(u8),
}

/// The bytes of a file, of which those from a place on are left otherwise. Where its first gate is open the records are on the
/// disk, and no byte but a gate may be lost: each record and the gate before it take six bytes.
fn torn(bytes: Vec<u8>, place: usize, rest: Rest) -> Result<Vec<u8>, DiskError> {
    let len = bytes.len();
    let mut bytes = bytes;
    let is_open = match bytes.first() {
        Some(gate) => *gate == 1,
        None => false,
    };
    if is_open {
        match rest {
            Rest::All(byte) if place % 6 == 0 && place < len => bytes[place] = byte,
            _ => {}
        }
        return Ok(bytes);
    }
    bytes.truncate(place);
    if let Rest::All(byte) = rest {
        for _ in bytes.len()..len {
            bytes.push(byte)?;
        }
    }
    Ok(bytes)
}

/// A disk with the same files, of which this one is torn at a place.
fn image(
    disk: &mut MemoryDisk,
    alloc: Global,
    file: u64,
    place: usize,
    rest: Rest,
) -> Result<MemoryDisk, DiskError> {
    let mut left = MemoryDisk::new(alloc, Vec::new(alloc));
    let numbers = disk.files(alloc)?;
    for number in &numbers {
        let bytes = disk.read(alloc, *number)?;
        let bytes = if *number == file {
            torn(bytes, place, rest)?
        } else {
            bytes
        };
        left.write_at(*number, 0, &bytes)?;
    }
    Ok(left)
}

/// The bytes of a section of which both records are synced.
fn both_records(alloc: Global, section: u64) -> Result<Vec<u8>, DiskError> {
    let mut bytes = Vec::new(alloc);
    for view in [section, section.saturating_add(100)] {
        let view = u8::try_from(view).unwrap_or(0);
        for byte in [1, 4, 2, 0, view, 1] {
            bytes.push(byte)?;
        }
    }
    bytes.push(0)?;
    Ok(bytes)
}

/// A disk with the same files and the one of the section that is pruned, whose removal may not have been on the disk yet.
fn with_the_pruned(
    disk: &mut MemoryDisk,
    alloc: Global,
    number: u64,
) -> Result<MemoryDisk, DiskError> {
    let mut left = image(disk, alloc, 0, 0, Rest::Cut)?;
    let pruned = (number / 4 + 1).saturating_sub(3);
    if pruned > 0 {
        left.cut(pruned, 0)?;
        left.write_at(pruned, 0, &both_records(alloc, pruned)?)?;
    }
    Ok(left)
}

/// Whether a journal that is opened on this image has what the run may have left.
fn fits(left: MemoryDisk, alloc: Global, number: u64) -> Result<bool, JournalError> {
    let mut journal = opened(left, alloc)?;
    let records = journal.replay(alloc)?;
    Ok(may_be(&records, number))
}

/// What was found of the images of one moment.
#[derive(Clone, Copy, Debug, PartialEq, Eq)]
pub(crate) struct Found {
    /// The journal call in which the run ended.
    pub(crate) number: u64,
    /// How many images were read.
    pub(crate) images: u64,
    /// How many of them had something else than the run may have left.
    pub(crate) wrong: u64,
}

impl Found {
    /// Counts an image more.
    fn add(&mut self, is_right: bool) {
        self.images = self.images.saturating_add(1);
        if !is_right {
            self.wrong = self.wrong.saturating_add(1);
        }
    }
}

/// Reads the images of the moment before the disk call of this number.
pub(crate) fn images_at(alloc: Global, failing: u64) -> Result<Found, JournalError> {
    let mut journal = new_journal(alloc, failing)?;
    let number = forty(&mut journal, alloc);
    let mut found = Found {
        number,
        images: 0,
        wrong: 0,
    };
    if number == 40 {
        // The run makes no such call.
        return Ok(found);
    }
    let mut disk = journal.into_disk();
    // Before its sync is done each byte of the last section may be lost, and nothing else: there is no file 0.
    let file = if number % 4 < 3 { number / 4 + 1 } else { 0 };
    if number % 4 == 3 {
        let left = with_the_pruned(&mut disk, alloc, number)?;
        found.add(fits(left, alloc, number)?);
    }
    let bytes = disk.read(alloc, file)?;
    let len = bytes.len();
    for place in 0..=len {
        for rest in [Rest::Cut, Rest::All(0), Rest::All(255)] {
            let left = image(&mut disk, alloc, file, place, rest)?;
            found.add(fits(left, alloc, number)?);
        }
    }
    Ok(found)
}
