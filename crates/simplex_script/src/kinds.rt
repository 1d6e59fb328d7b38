//! The kinds of members.
ghost use Rattle.std.specs.Prelude.{◌≡◌, IfOk, map};
ghost use Rattle.simplex_script.specs.Kinds as said;

use simplex_names::{named_kind_of, number_of};
use simplex_transcript::MemberKind;
use simplex_types::Sequence;
use std::alloc::{AllocError, Global};

// `outdated`, by so many views.
fn outdated(word: &str, views: Option<u64>) -> Option<MemberKind>
    ensures { result ≡ said.outdated word.now views }
{
    let views = views?;
    if word == "outdated" {
        Some(MemberKind::Outdated(views))
    } else {
        None
    }
}

// A kind: `outdated:3` is by how many views.
fn kind_of(word: &str) -> Option<MemberKind>
    ensures { result ≡ said.kind_of word.now }
{
    match word.split_once(':') {
        Some((kind, views)) => outdated(kind, number_of(views)),
        None => named_kind_of(word),
    }
}

/// The kinds that the words say, or none where a word says none.
#[tactic(auto, using(crate::proofs::KindLists::behind_none, crate::proofs::KindLists::behind_more, crate::proofs::KindLists::behind_no))]
pub(crate) fn kinds_of(
    alloc: Global,
    words: &[&str],
) -> Result<Option<Sequence<MemberKind>>, AllocError>
    ensures { IfOk result (λ kinds. kinds ≡ said.kinds_of (map (λ word. word.now) words.now)) }
{
    let mut kinds = Sequence::new(alloc);
    let mut rest = words;
    while let [word, after @ ..] = rest {
        let Some(kind) = kind_of(word) else {
            return Ok(None);
        };
        kinds.push(kind)?;
        rest = after;
    }
    Ok(Some(kinds))
}
