//! Records of votes.
ghost use Rattle.std.specs.Prelude.{◌≡◌, true, IfOk};
ghost use Rattle.std.specs.List.{list_any};
ghost use Rattle.std.specs.Str.{bytes_eq};
ghost use Rattle.simplex_journal.specs.Contents.{kept};
ghost use Rattle.simplex_journal.specs.Memory.{sections_of};
ghost use Rattle.simplex_stored.specs.Before as before;

use simplex_journal::SectionLists;
use simplex_types::{Artifact, View, Vote};
use std::alloc::{AllocError, Global};
use std::collections::BTreeMap;

/// The vote that the record is.
pub(crate) fn vote_of(artifact: &Artifact) -> Option<Vote>
    ensures { result ≡ before.vote_of artifact.now }
{
    match artifact {
        Artifact::Notarize(vote) => Some(Vote::Notarize(*vote)),
        Artifact::Nullify(vote) => Some(Vote::Nullify(*vote)),
        Artifact::Finalize(vote) => Some(Vote::Finalize(*vote)),
        _ => None,
    }
}

// Whether the record is the nullify that these bytes spell.
fn is_nullify(alloc: Global, bytes: &[u8], artifact: &Artifact) -> Result<bool, AllocError>
    ensures { IfOk result (λ is. is ≡ before.is_nullify bytes.now artifact.now) }
{
    match artifact {
        Artifact::Nullify(vote) => Ok(bytes == Vote::Nullify(*vote).encode(alloc)?.as_slice()),
        _ => Ok(false),
    }
}

// Whether one of the records is the nullify that these bytes spell.
fn have_nullify(alloc: Global, bytes: &[u8], records: &[Artifact]) -> Result<bool, AllocError>
    ensures { IfOk result (λ have. have ≡ list_any (before.is_nullify bytes.now) records.now) }
{
    for record in records {
        if is_nullify(alloc, bytes, record)? {
            return Ok(true);
        }
    }
    Ok(false)
}

/// Whether a synced record of the sections is the nullify that these bytes spell, which is of this view.
pub(crate) fn keep_nullify(
    alloc: Global,
    bytes: &[u8],
    view: View,
    sections: &BTreeMap<u64, SectionLists>,
) -> Result<bool, AllocError>
    ensures { IfOk result (λ held. held
        ≡ list_any (before.is_nullify bytes.now) (kept (sections_of sections.now.entries))) }
{
    // An engine puts it into the section of its view. While nothing becomes final there are as many sections as views, and each view has
    // repeats: to go over all sections for each would take quadratic time.
    if has_nullify_at(alloc, bytes, view.0, sections)? {
        return Ok(true);
    }
    have_nullify_anywhere(alloc, bytes, sections)
}

// Whether a synced record of this section is the nullify that these bytes spell.
fn has_nullify_at(
    alloc: Global,
    bytes: &[u8],
    section: u64,
    sections: &BTreeMap<u64, SectionLists>,
) -> Result<bool, AllocError>
    ensures { IfOk result (λ has. has ≡ true
        → list_any (before.is_nullify bytes.now) (kept (sections_of sections.now.entries)) ≡ true) }
{
    match sections.get(&section) {
        Some(lists) => have_nullify(alloc, bytes, lists.synced()),
        None => Ok(false),
    }
}

// Whether one of any section is.
fn have_nullify_anywhere(
    alloc: Global,
    bytes: &[u8],
    sections: &BTreeMap<u64, SectionLists>,
) -> Result<bool, AllocError>
    ensures { IfOk result (λ held. held
        ≡ list_any (before.is_nullify bytes.now) (kept (sections_of sections.now.entries))) }
{
    for (_, lists) in sections {
        if have_nullify(alloc, bytes, lists.synced())? {
            return Ok(true);
        }
    }
    Ok(false)
}
