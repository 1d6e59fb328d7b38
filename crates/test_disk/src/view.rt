//! The journal calls of a view that a member finalizes alone, stopped before each call of the disk, and each image that a crash may
//! leave of the file then.
use crate::runs::{new_journal, opened};
use simplex_disk::{Disk, DiskError, DiskJournal, MemoryDisk};
use simplex_journal::{Journal, JournalError};
use simplex_values::{Digest, Epoch, Participant, Proposal, Round, View};
use simplex_wire::{
    Artifact, Attestation, Finalization, Finalize, Notarization, Notarize, Signatures,
};
use std::alloc::{AllocError, Global};

const ROUND: Round = Round {
    epoch: Epoch(0),
    view: View(1),
};

const PROPOSAL: Proposal = Proposal {
    round: ROUND,
    parent: View(0),
    payload: Digest([17; 32]),
};

const SIGNED: Attestation = Attestation {
    signer: Participant(0),
    signature: [9; 32],
};

/// The view's section, which is its file.
const SECTION: u64 = 1;

fn signatures(alloc: Global) -> Result<Signatures, AllocError> {
    let signed = vec![in alloc; SIGNED]?;
    Ok(Signatures::new(signed))
}

/// What the member stores in the view.
fn view_records(alloc: Global) -> Result<Vec<Artifact>, AllocError> {
    let notarization = Notarization {
        proposal: PROPOSAL,
        certificate: signatures(alloc)?,
    };
    let finalization = Finalization {
        proposal: PROPOSAL,
        certificate: signatures(alloc)?,
    };
    let notarize = Notarize {
        proposal: PROPOSAL,
        attestation: SIGNED,
    };
    let finalize = Finalize {
        proposal: PROPOSAL,
        attestation: SIGNED,
    };
    let records = vec![in alloc;
        Artifact::Notarize(notarize),
        Artifact::Notarization(notarization),
        Artifact::Certification(ROUND, true),
        Artifact::Finalize(finalize),
        Artifact::Finalization(finalization),
    ]?;
    Ok(records)
}

/// How often the view appends before each of its syncs.
const APPENDS: [usize; 4] = [1, 1, 2, 1];

/// How far the view came.
#[derive(Clone, Copy, Debug, PartialEq, Eq)]
struct Progress {
    appended: usize,
    synced: usize,
    is_whole: bool,
}

/// Makes the view's calls, after a replay of nothing, up to the first that fails.
fn make_view(
    journal: &mut DiskJournal<MemoryDisk>,
    alloc: Global,
    records: &[Artifact],
) -> Progress {
    let mut progress = Progress {
        appended: 0,
        synced: 0,
        is_whole: false,
    };
    if journal.replay(alloc).is_err() {
        return progress;
    }
    for appends in APPENDS {
        for record in records.iter().skip(progress.appended).take(appends) {
            if journal.append(alloc, SECTION, record).is_err() {
                return progress;
            }
            progress.appended = progress.appended.saturating_add(1);
        }
        if journal.sync(SECTION).is_err() {
            return progress;
        }
        progress.synced = progress.appended;
    }
    progress.is_whole = true;
    progress
}

/// A call of the disk.
#[derive(Clone, Copy, Debug, PartialEq, Eq)]
enum Made {
    List,
    Cut,
    Write,
    Sync,
}

use Made::{Cut, List, Sync, Write};

/// What the view has the disk do: a file is made, and then each record is written, and each sync opens the gates of what is
/// pending between two syncs of the file.
const MADE: [Made; 24] = [
    List, List, Cut, Sync, Write, Sync, Write, Sync, Write, Sync, Write, Sync, Write, Sync, Write,
    Write, Sync, Write, Write, Sync, Write, Sync, Write, Sync,
];

/// The moment before a call of the disk.
#[derive(Drop)]
struct Moment {
    progress: Progress,
    /// The bytes of the file, if it is there.
    bytes: Option<Vec<u8>>,
}

/// How far the view comes where the disk call of this number fails, counted from 1, if it is not 0.
fn progress_until(
    alloc: Global,
    number: u64,
    records: &[Artifact],
) -> Result<Progress, JournalError> {
    let mut journal = new_journal(alloc, number)?;
    Ok(make_view(&mut journal, alloc, records))
}

/// The moment before the disk call of this number, which the view makes.
fn moment_before(alloc: Global, number: u64, records: &[Artifact]) -> Result<Moment, JournalError> {
    let mut journal = new_journal(alloc, number)?;
    let progress = make_view(&mut journal, alloc, records);
    let mut disk = journal.into_disk();
    let is_there = !disk.files(alloc)?.is_empty();
    let bytes = if is_there {
        Some(disk.read(alloc, SECTION)?)
    } else {
        None
    };
    Ok(Moment { progress, bytes })
}

/// The number of the last sync before the call of this number, or 0.
fn last_sync(number: u64) -> u64 {
    let mut last = 0;
    for (place, made) in (1u64..).zip(MADE) {
        if place < number && made == Sync {
            last = place;
        }
    }
    last
}

/// How the byte at a place is left, and those behind it.
#[derive(Clone, Copy, Debug, PartialEq, Eq)]
enum Leaving {
    /// As it was written, but for this byte.
    One(u8),
    /// From this place on as it was synced.
    Torn,
    /// From this place on there is nothing.
    Cut,
}

const LEAVINGS: [Leaving; 4] = [
    Leaving::One(0),
    Leaving::One(255),
    Leaving::Torn,
    Leaving::Cut,
];

/// The image where a crash left the bytes so from this place on, if the place was not synced: what was synced stays.
fn image(
    alloc: Global,
    written: &[u8],
    synced: &[u8],
    place: usize,
    leaving: Leaving,
) -> Result<Option<Vec<u8>>, AllocError> {
    if written.get(place) == synced.get(place) {
        return Ok(None);
    }
    let mut bytes = Vec::new(alloc);
    for (at, byte) in written.iter().enumerate() {
        let old = synced.get(at);
        match leaving {
            Leaving::One(other) if at == place => bytes.push(other)?,
            Leaving::Torn | Leaving::Cut if at >= place => {
                if let Some(old) = old {
                    bytes.push(*old)?;
                }
            }
            _ => bytes.push(*byte)?,
        }
    }
    Ok(Some(bytes))
}

/// What a journal reads that is opened over a disk with this file.
fn read_again(alloc: Global, bytes: &[u8]) -> Result<Vec<Artifact>, JournalError> {
    let mut disk = MemoryDisk::new(alloc, Vec::new(alloc));
    disk.cut(SECTION, 0)?;
    disk.write_at(SECTION, 0, bytes)?;
    let mut journal = opened(disk, alloc)?;
    let records = journal.replay(alloc)?;
    Ok(records)
}

/// Whether these are the synced records and a first part of the others.
fn is_a_front(read: &[Artifact], records: &[Artifact], progress: Progress) -> bool {
    let most = progress.appended.saturating_add(1);
    read.len() >= progress.synced
        && read.len() <= most
        && records.get(..read.len()).is_some_and(|front| front == read)
}

/// How many images of the moment before this disk call were read, and how many of them were wrong.
fn images_before(
    alloc: Global,
    number: u64,
    records: &[Artifact],
) -> Result<(u64, u64), JournalError> {
    let Moment { progress, bytes } = moment_before(alloc, number, records)?;
    let Some(written) = bytes else {
        return Ok((0, 0));
    };
    let before = match last_sync(number) {
        0 => None,
        last => moment_before(alloc, last, records)?.bytes,
    };
    let none = Vec::new(alloc);
    let synced = before.as_ref().unwrap_or(&none);
    let (mut images, mut wrong) = (0u64, 0u64);
    for place in 0..written.len() {
        for leaving in LEAVINGS {
            let Some(bytes) = image(alloc, &written, synced, place, leaving)? else {
                continue;
            };
            let read = read_again(alloc, &bytes)?;
            images = images.saturating_add(1);
            if !is_a_front(&read, records, progress) {
                wrong = wrong.saturating_add(1);
            }
        }
    }
    Ok((images, wrong))
}

#[cfg(test)]
mod tests {
    use super::{MADE, images_before, progress_until, view_records};

    #[test]
    fn a_view_is_stopped_before_each_disk_call(rt: HostRuntime) {
        let alloc = rt.alloc();
        let records = view_records(alloc).expect(&rt, "room");
        let last = MADE.len() as u64;
        for number in [0, last + 1] {
            let progress = progress_until(alloc, number, &records).expect(&rt, "room");
            assert!(rt; progress.is_whole, "no call fails");
        }
        let mut all = 0u64;
        for number in 2..=last {
            let progress = progress_until(alloc, number, &records).expect(&rt, "room");
            assert!(rt; !progress.is_whole, "disk call {number} is made");
            let (images, wrong) = images_before(alloc, number, &records).expect(&rt, "room");
            assert_eq!(rt; wrong, 0, "before disk call {number}");
            all = all.saturating_add(images);
        }
        assert!(rt; all > 1000, "{all} images were read");
    }
}
