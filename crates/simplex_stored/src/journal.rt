//! Calls of a journal that is not ordered to fail.
ghost use Rattle.std.specs.Prelude.{◌≡◌, OnOk, IfOk};
ghost use Rattle.simplex_journal.specs.Journal.{appended, synced_at, pruned, pruned_first, replayed};

use simplex_journal::{Journal, MemoryJournal};
use simplex_types::Artifact;
use std::alloc::{AllocError, Global};

/// Appends the record to the section.
pub(crate) fn append(
    journal: &mut MemoryJournal,
    alloc: Global,
    section: u64,
    artifact: &Artifact,
) -> Result<(), AllocError>
    requires unordered { journal.old.order.call ≡ 0 }
    ensures sections { OnOk result (journal.new.sections
        ≡ appended section artifact.now journal.old.sections) }
    ensures unordered { journal.new.order.call ≡ 0 }
{
    match journal.append(alloc, section, artifact) {
        Ok(()) => Ok(()),
        Err(_) => Err(AllocError),
    }
}

/// Syncs the section.
pub(crate) fn sync(journal: &mut MemoryJournal, section: u64)
    requires unordered { journal.old.order.call ≡ 0 }
    ensures sections { journal.new.sections ≡ synced_at section journal.old.sections }
    ensures unordered { journal.new.order.call ≡ 0 }
{
    let _answer = journal.sync(section);
}

/// Drops the sections below this one.
pub(crate) fn prune(journal: &mut MemoryJournal, least: u64)
    requires unordered { journal.old.order.call ≡ 0 }
    ensures sections { journal.new.sections ≡ pruned least journal.old.sections }
    ensures unordered { journal.new.order.call ≡ 0 }
{
    let _answer = journal.prune(least);
}

/// Drops so many of the first sections below this one.
pub(crate) fn prune_first(journal: &mut MemoryJournal, count: u64, least: u64)
    ensures sections { journal.new.sections ≡ pruned_first count least journal.old.sections }
    ensures unordered { journal.new.order.call ≡ 0 }
{
    journal.fail_next(1, count);
    let _answer = journal.prune(least);
}

/// Copies of all records.
pub(crate) fn replay(
    journal: &mut MemoryJournal,
    alloc: Global,
) -> Result<Vec<Artifact>, AllocError>
    requires unordered { journal.old.order.call ≡ 0 }
    ensures records { IfOk result (λ records. records.items ≡ replayed journal.old.sections) }
    ensures sections { journal.new.sections ≡ journal.old.sections }
    ensures unordered { journal.new.order.call ≡ 0 }
{
    match journal.replay(alloc) {
        Ok(records) => Ok(records),
        Err(_) => Err(AllocError),
    }
}
