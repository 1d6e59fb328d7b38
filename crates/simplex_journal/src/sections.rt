//! Sections by number.
ghost use Rattle.std.specs.Prelude.{◌≡◌, OnOk, OnErr, IfOk};
ghost use Rattle.simplex_journal.specs.Journal.{appended, synced_at, all_synced, pruned, pruned_first, crashed, replayed};
ghost use Rattle.simplex_journal.specs.Memory.{sections_of};

use crate::lists::SectionLists;
use simplex_wire::Artifact;
use std::alloc::{AllocError, Global};
use std::collections::BTreeMap;

/// The sections of a journal, by number.
pub(crate) type Sections = BTreeMap<u64, SectionLists>;

/// Appends the record to the section of this number, which is opened where it is not there.
pub(crate) fn append_to(
    sections: &mut Sections,
    alloc: Global,
    number: u64,
    artifact: Artifact,
) -> Result<(), AllocError>
    ensures ok { OnOk result (sections_of sections.new.entries
        ≡ appended number artifact (sections_of sections.old.entries)) }
    ensures err { OnErr result (sections_of sections.new.entries
        ≡ sections_of sections.old.entries) }
{
    if let Some(lists) = sections.get_mut(&number) {
        return lists.append(artifact);
    }
    let mut lists = SectionLists::new(alloc);
    lists.append(artifact)?;
    sections.insert(number, lists)?;
    Ok(())
}

/// Syncs the section of this number, if it is there.
pub(crate) fn sync_at(sections: &mut Sections, number: u64)
    ensures { sections_of sections.new.entries
        ≡ synced_at number (sections_of sections.old.entries) }
{
    if let Some(lists) = sections.get_mut(&number) {
        lists.sync();
    }
}

/// Syncs each section.
pub(crate) fn sync_each(sections: &mut Sections)
    ensures { sections_of sections.new.entries ≡ all_synced (sections_of sections.old.entries) }
{
    sections.retain(|_, lists| {
        lists.sync();
        true
    });
}

/// Leaves of each section what a stop leaves.
pub(crate) fn crash_each(sections: &mut Sections, keep: u64)
    ensures { sections_of sections.new.entries ≡ crashed keep (sections_of sections.old.entries) }
{
    sections.retain(|_, lists| {
        lists.crash(keep);
        true
    });
}

/// Drops the first sections below the least number, at most so many.
pub(crate) fn drop_first(sections: &mut Sections, count: u64, least: u64)
    ensures { sections_of sections.new.entries
        ≡ pruned_first count least (sections_of sections.old.entries) }
{
    let mut left = count;
    while left > 0 {
        match sections.first_key_value() {
            Some((number, _)) if *number < least => {}
            _ => return,
        }
        sections.pop_first();
        left -= 1;
    }
}

/// Drops the sections below the least number.
pub(crate) fn drop_below(sections: &mut Sections, least: u64)
    ensures { sections_of sections.new.entries ≡ pruned least (sections_of sections.old.entries) }
{
    let all = sections.len() as u64;
    drop_first(sections, all, least);
}

/// Copies of all records, section by section.
#[tactic(auto, unfolding(crate::specs::Journal::replayed, crate::specs::Memory::sections_of))]
pub(crate) fn copies_of(alloc: Global, sections: &Sections) -> Result<Vec<Artifact>, AllocError>
    ensures { IfOk result (λ copies. copies.items ≡ replayed (sections_of sections.now.entries)) }
{
    let mut copies = Vec::new(alloc);
    for (_, lists) in sections {
        lists.copy_to(alloc, &mut copies)?;
    }
    Ok(copies)
}
