//! The bytes of a file, each disk call failing in turn, each image that a crash may leave, and orders.
use crate::images::{Found, images_at};
use crate::runs::{forty, may_be, new_journal, opened, record};
use simplex_disk::{Disk, DiskError, DiskJournal, InitError, MemoryDisk};
use simplex_journal::{Journal, JournalError, MemoryJournal};
use simplex_wire::Artifact;
use std::alloc::Global;
use std::fmt::Debug;
use std::process::Abort;
use std::test::Fail;

/// The test ends here where the two differ, and says in which case.
fn same<T: PartialEq + Debug>(rt: &impl Abort, case: &str, got: &T, wanted: &T) {
    assert_eq!(rt; got, wanted, "{case}");
}

/// The bytes of a file.
fn bytes_of(
    journal: DiskJournal<MemoryDisk>,
    alloc: Global,
    file: u64,
) -> Result<Vec<u8>, JournalError> {
    let mut disk = journal.into_disk();
    let bytes = disk.read(alloc, file)?;
    Ok(bytes)
}

/// One record of section 1, as the bytes of file 1.
fn one_record(alloc: Global, synced: bool) -> Result<Vec<u8>, JournalError> {
    let mut journal = new_journal(alloc, 0)?;
    journal.append(alloc, 1, &record(1))?;
    if synced {
        journal.sync(1)?;
    }
    bytes_of(journal, alloc, 1)
}

/// The same after a stop that keeps so many pending records, and once more opened.
fn one_record_again(alloc: Global, keep: u64) -> Result<Vec<u8>, JournalError> {
    let mut journal = new_journal(alloc, 0)?;
    journal.append(alloc, 1, &record(1))?;
    journal.crash(keep);
    let journal = opened(journal.into_disk(), alloc)?;
    bytes_of(journal, alloc, 1)
}

#[test]
fn a_file_byte_by_byte(rt: HostRuntime) {
    let alloc = rt.alloc();
    let pending = one_record(alloc, false).expect(&rt, "room");
    same(
        &rt,
        "pending",
        &pending.as_slice(),
        &[0, 4, 2, 0, 1, 1, 0].as_slice(),
    );
    let synced = one_record(alloc, true).expect(&rt, "room");
    same(
        &rt,
        "synced",
        &synced.as_slice(),
        &[1, 4, 2, 0, 1, 1, 0].as_slice(),
    );
    let lost = one_record_again(alloc, 0).expect(&rt, "room");
    same(
        &rt,
        "a stop that keeps none",
        &lost.as_slice(),
        &[0].as_slice(),
    );
    let kept = one_record_again(alloc, 1).expect(&rt, "room");
    same(
        &rt,
        "a stop that keeps one",
        &kept.as_slice(),
        &[1, 4, 2, 0, 1, 1, 0].as_slice(),
    );
}

// A synced record and a pending one, of which a byte is wanting: an opened journal would cut the file.
const TORN: [u8; 11] = [1, 4, 2, 0, 1, 1, 0, 4, 2, 0, 1];

// The same where it was cut.
const MENDED: [u8; 7] = [1, 4, 2, 0, 1, 1, 0];

// The same of section 2, of which no record is whole.
const TORN_AT_ONCE: [u8; 4] = [0, 4, 2, 0];

/// A disk with two torn files, whose call of this number fails. The first two calls write the files; a journal that is opened lists them
/// by the third, and then makes five calls for each of them: it reads, cuts, syncs, writes the last gate, and syncs.
fn torn_disk(alloc: Global, failing: u64) -> Result<MemoryDisk, DiskError> {
    let mut disk = MemoryDisk::new(alloc, vec![in alloc; failing]?);
    disk.write_at(1, 0, &TORN)?;
    disk.write_at(2, 0, &TORN_AT_ONCE)?;
    Ok(disk)
}

const LAST_OF_OPENING: u64 = 13;

/// The disk that is handed back, and why no journal was opened on it.
fn refused(disk: MemoryDisk, alloc: Global) -> Option<InitError<MemoryDisk>> {
    disk.may_be_settled();
    DiskJournal::init(disk, alloc).err()
}

/// The disk that is handed back where this call of it fails as it is opened, with what its files have.
fn handed_back(rt: &impl Abort, alloc: Global, failing: u64) -> Result<[Vec<u8>; 2], Fail> {
    let disk = torn_disk(alloc, failing)?;
    let InitError { mut disk, error } = refused(disk, alloc).ok_or("a call fails")?;
    let case = format!(in alloc; "disk call {failing} fails")?;
    same(rt, &case, &error, &JournalError::Failed);
    same(rt, &case, &disk.faults(), &1);
    let numbers = disk.files(alloc)?;
    same(rt, &case, &numbers.as_slice(), &[1, 2].as_slice());
    let files = [disk.read(alloc, 1)?, disk.read(alloc, 2)?];
    let mut journal = opened(disk, alloc)?;
    let records = journal.replay(alloc)?;
    same(rt, &case, &records.as_slice(), &[record(1)].as_slice());
    same(rt, &case, &journal.faults(), &1);
    let mut disk = journal.into_disk();
    let mended = [disk.read(alloc, 1)?, disk.read(alloc, 2)?];
    same(rt, &case, &mended[0].as_slice(), &MENDED.as_slice());
    same(rt, &case, &mended[1].as_slice(), &[0].as_slice());
    Ok(files)
}

#[test]
fn a_disk_is_handed_back(rt: HostRuntime) -> Result<(), Fail> {
    let alloc = rt.alloc();
    let files = handed_back(&rt, alloc, 3)?;
    same(&rt, "file 1", &files[0].as_slice(), &TORN.as_slice());
    same(
        &rt,
        "file 2",
        &files[1].as_slice(),
        &TORN_AT_ONCE.as_slice(),
    );
    for failing in 4..=LAST_OF_OPENING {
        let _files = handed_back(&rt, alloc, failing)?;
    }
    let journal = opened(torn_disk(alloc, LAST_OF_OPENING + 1)?, alloc)?;
    same(&rt, "no call fails", &journal.faults(), &0);
    Ok(())
}

/// What is left of a run.
#[derive(Debug, PartialEq, Eq, Drop)]
struct Left {
    /// How many calls ended well.
    number: u64,
    /// What is replayed after a stop.
    records: Vec<Artifact>,
    faults: u64,
}

/// The run on a disk whose call of this number fails, a stop that keeps nothing, and the journal opened once more. Where the run
/// makes no such call only the faults are told.
fn after_fault(alloc: Global, failing: u64) -> Result<Left, JournalError> {
    let mut journal = new_journal(alloc, failing)?;
    let number = forty(&mut journal, alloc);
    if number == 40 {
        return Ok(Left {
            number,
            records: Vec::new(alloc),
            faults: journal.faults(),
        });
    }
    journal.crash(0);
    let mut again = opened(journal.into_disk(), alloc)?;
    let records = again.replay(alloc)?;
    Ok(Left {
        number,
        records,
        faults: again.faults(),
    })
}

#[test]
fn each_disk_call_fails_in_turn(rt: HostRuntime) {
    let alloc = rt.alloc();
    let mut made = 0u64;
    // The first call lists the files when the journal is opened.
    for failing in 2..1000u64 {
        let left = after_fault(alloc, failing).expect(&rt, "room");
        if left.number == 40 {
            assert_eq!(rt; left.faults, 0, "no call failed");
            break;
        }
        assert!(rt; may_be(&left.records, left.number), "disk call {failing}");
        assert_eq!(rt; left.faults, 1, "one call failed");
        made = failing;
    }
    assert!(rt; made > 100 && made < 999, "the run made {made} disk calls");
}

#[test]
fn each_image_is_read(rt: HostRuntime) {
    let alloc = rt.alloc();
    let mut images = 0u64;
    for failing in 2..1000u64 {
        let found = images_at(alloc, failing).expect(&rt, "room");
        let Found { number, wrong, .. } = found;
        assert_eq!(rt; wrong, 0, "before disk call {failing}");
        images = images.saturating_add(found.images);
        if number == 40 {
            break;
        }
    }
    assert!(rt; images > 1000, "{images} images were read");
}

/// The run under an order, and a stop that keeps one pending record of each section.
fn under_order<J: Journal>(
    journal: &mut J,
    alloc: Global,
    call: u64,
    dropped: u64,
) -> Result<Left, JournalError> {
    journal.fail_next(call, dropped);
    let number = forty(journal, alloc);
    journal.fail_next(0, 0);
    journal.crash(1);
    let records = journal.replay(alloc)?;
    Ok(Left {
        number,
        records,
        faults: journal.faults(),
    })
}

#[test]
fn orders_as_in_memory(rt: HostRuntime) {
    let alloc = rt.alloc();
    for call in 0..=43u64 {
        for dropped in [0, 1, 5u64] {
            let mut journal = new_journal(alloc, 0).expect(&rt, "room");
            let left = under_order(&mut journal, alloc, call, dropped).expect(&rt, "room");
            let mut other = MemoryJournal::new(alloc);
            let wanted = under_order(&mut other, alloc, call, dropped).expect(&rt, "room");
            same(&rt, "an order", &left, &wanted);
        }
    }
}

/// What is left of a section whose file was not removed.
#[derive(Clone, Copy, Debug, PartialEq, Eq)]
struct Dropped {
    failed: bool,
    /// How many records the journal has.
    kept: usize,
    /// How many are read where its disk is opened again.
    back: usize,
}

/// One synced record, a prune of its section whose removal of the file fails, and another prune if so.
fn after_failed_removal(alloc: Global, again: bool) -> Result<Dropped, JournalError> {
    // The eleventh call of the disk is the removal.
    let mut journal = new_journal(alloc, 11)?;
    journal.append(alloc, 1, &record(1))?;
    journal.sync(1)?;
    let failed = journal.prune(2).is_err();
    if again {
        journal.prune(2)?;
    }
    let kept = journal.replay(alloc)?.len();
    let mut journal = opened(journal.into_disk(), alloc)?;
    let back = journal.replay(alloc)?.len();
    Ok(Dropped { failed, kept, back })
}

#[test]
fn a_dropped_section_may_be_back(rt: HostRuntime) {
    let alloc = rt.alloc();
    let at_once = after_failed_removal(alloc, false).expect(&rt, "room");
    let wanted = Dropped {
        failed: true,
        kept: 0,
        back: 1,
    };
    same(&rt, "opened at once", &at_once, &wanted);
    let later = after_failed_removal(alloc, true).expect(&rt, "room");
    let wanted = Dropped {
        failed: true,
        kept: 0,
        back: 0,
    };
    same(&rt, "opened after another prune", &later, &wanted);
}

/// What is done behind a first append that failed.
#[derive(Clone, Copy, Debug)]
enum Behind {
    Nothing,
    /// A prune of all.
    Prune,
    /// An append to another section.
    Another,
    /// The same append.
    Again,
}

/// A first append to section 5 on a disk whose call of this number fails, what is done behind it, and which files are there then.
fn after_failed_append(
    alloc: Global,
    failing: u64,
    behind: Behind,
) -> Result<Vec<u64>, JournalError> {
    let mut journal = new_journal(alloc, failing)?;
    let failed = journal.append(alloc, 5, &record(1)).is_err();
    match behind {
        _ if !failed => {}
        Behind::Nothing => {}
        Behind::Prune => journal.prune(9)?,
        Behind::Another => journal.append(alloc, 7, &record(1))?,
        Behind::Again => journal.append(alloc, 5, &record(1))?,
    }
    let mut disk = journal.into_disk();
    let numbers = disk.files(alloc)?;
    Ok(numbers)
}

#[test]
fn a_first_append_that_fails(rt: HostRuntime) {
    let alloc = rt.alloc();
    // The file is cut and synced, its gate is written and synced, and then the record is written.
    for failing in 2..=6u64 {
        let at_once = after_failed_append(alloc, failing, Behind::Nothing).expect(&rt, "room");
        let made = if failing > 4 { 1 } else { 0 };
        assert_eq!(rt; at_once.len(), made, "disk call {failing}");
        for (behind, wanted) in [
            (Behind::Prune, [].as_slice()),
            (Behind::Another, [7].as_slice()),
            (Behind::Again, [5].as_slice()),
        ] {
            let numbers = after_failed_append(alloc, failing, behind).expect(&rt, "room");
            assert_eq!(rt;
                numbers.as_slice(),
                wanted,
                "disk call {failing}, {behind:?}"
            );
        }
    }
}

/// Appends so many records to one section, syncs them, and replays them.
fn many(alloc: Global, size: u64) -> Result<u64, JournalError> {
    let mut journal = new_journal(alloc, 0)?;
    for view in 0..size {
        journal.append(alloc, 1, &record(view))?;
    }
    journal.sync(1)?;
    let records = journal.replay(alloc)?;
    Ok(records.len() as u64)
}

#[test]
fn many_records(rt: HostRuntime) {
    let replayed = many(rt.alloc(), 10_000).expect(&rt, "room");
    assert_eq!(rt; replayed, 10_000);
}
