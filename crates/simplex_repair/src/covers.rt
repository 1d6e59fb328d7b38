//! The nullifications that cover views: of each term the one of the least view.
#![tactic(auto, unfolding(simplex_values::specs::Maps::found, crate::specs::Maps::reaching, simplex_values::specs::Covers::covers))]

ghost use Rattle.std.specs.Prelude.{◌≡◌, ℕ, ◌&&◌, nat_lt, true, Some, if◌then◌else◌, OnOk, IfOk};
ghost use Rattle.std.specs.Option.{is_some, option_map_or};
ghost use Rattle.simplex_values.specs.Terms.{term_index};
ghost use Rattle.simplex_values.specs.Covers.{covers};
ghost use Rattle.simplex_values.specs.Maps.{found};
ghost use Rattle.simplex_repair.specs.Maps.{reaching};

use simplex_values::maps::{copy_at, put};
use simplex_values::{Keep, TermLength, View};
use simplex_wire::Nullification;
use std::alloc::{AllocError, Global};
use std::collections::BTreeMap;

/// Whether a nullification of the view's term covers the view.
pub(crate) fn is_covered(
    terms: &BTreeMap<u64, Nullification>,
    length: TermLength,
    view: View,
) -> bool
    ensures { result ≡ is_some (reaching (found terms.now (term_index length view)) view) }
{
    match terms.get(&view.term_index(length)) {
        Some(it) => it.round.view <= view,
        None => false,
    }
}

/// A copy of the nullification that covers the view.
pub(crate) fn copy_covering(
    alloc: Global,
    terms: &BTreeMap<u64, Nullification>,
    length: TermLength,
    view: View,
) -> Result<Option<Nullification>, AllocError>
    ensures { IfOk result (λ copy. copy
        ≡ reaching (found terms.now (term_index length view)) view) }
{
    if !is_covered(terms, length, view) {
        return Ok(None);
    }
    copy_at(alloc, terms, view.term_index(length))
}

/// Takes one more nullification, where it is of a lesser view than its term's.
pub(crate) fn cover(
    alloc: Global,
    terms: &mut BTreeMap<u64, Nullification>,
    length: TermLength,
    it: &Nullification,
) -> Result<(), AllocError>
    ensures { OnOk result ((q : ℕ) → reaching (found terms.new (term_index length q)) q
        ≡ (if covers length it.now.round.view q
        && option_map_or (λ m. nat_lt it.now.round.view m.round.view)
        (reaching (found terms.old (term_index length q)) q) true
        then Some it.now else reaching (found terms.old (term_index length q)) q)) }
{
    let term = it.view().term_index(length);
    if let Some(held) = terms.get(&term)
        && held.round.view <= it.view()
    {
        return Ok(());
    }
    put(terms, term, it.keep(alloc)?)
}
