//! Which views nullifications cover.
#![tactic(auto, unfolding(simplex_state::specs::Stands::covered_in, simplex_values::specs::Covers::covers, simplex_values::specs::Maps::found))]

ghost use Rattle.std.specs.Prelude.{◌≡◌, ◌≤◌, ◌<◌, ◌+◌, ◌-◌, ◌==◌, ◌||◌, ◌^◌, ℕ, not, true, false, find, Bool, OnOk};
ghost use Rattle.std.specs.List.{range_with_len};
ghost use Rattle.std.specs.Option.{is_none};
ghost use Rattle.simplex_values.specs.Covers.{covers};
ghost use Rattle.simplex_values.specs.Terms.{greatest_view, term_index};
ghost use Rattle.simplex_state.specs.Ranges.{holds};
ghost use Rattle.simplex_state.specs.Stands.{covered_in};
ghost use Rattle.simplex_known.specs.Covers.{CoversStand, are_whole};

use simplex_state::Ranges;
use simplex_values::maps::{empty_map, put};
use simplex_values::{TermLength, View};
use std::alloc::{AllocError, Global};
use std::collections::BTreeMap;

/// The views that nullifications cover: each covers the rest of its term, from its own view on.
#[derive(Drop)]
pub(crate) struct Covers {
    /// How many views a term has.
    pub(crate) length: TermLength,
    /// The least nullified view of each term.
    least: BTreeMap<u64, u64>,
    /// The terms whose first view is nullified.
    whole: Ranges,
}

impl Covers {
    /// No views.
    pub(crate) fn new(alloc: Global, length: TermLength) -> Covers
        ensures length { result.length ≡ length }
        ensures stands { CoversStand result (λ view. false) }
    {
        Covers {
            length,
            least: empty_map(alloc),
            whole: Ranges::new(alloc),
        }
    }

    /// Takes one more nullified view.
    pub(crate) fn add(&mut self, view: View) -> Result<(), AllocError>
        ensures length { self.new.length ≡ self.old.length }
        ensures stands { OnOk result ((covered : ℕ → Bool) → CoversStand self.old covered
            → CoversStand self.new (λ q. covers self.old.length view q || covered q)) }
    {
        let length = self.length;
        cover(&mut self.least, length, view)?;
        complete(&mut self.whole, length, view)
    }

    /// Whether each view strictly between the two is covered.
    pub(crate) fn spans(&self, lower: View, upper: View) -> bool
        ensures { (covered : ℕ → Bool) → CoversStand self.now covered
            → result ≡ is_none
            (find (λ v. not (covered v)) (range_with_len (lower + 1) (upper - (lower + 1)))) }
    {
        if upper <= lower {
            return true;
        }
        self.covers_from(lower.next(), upper)
    }

    // Whether each view from the first to before the second is covered. [runs-of-terms]
    fn covers_from(&self, first: View, end: View) -> bool
        requires { end < 2 ^ 64 }
        ensures { are_whole self.now.whole self.now.least self.now.length first
            → result ≡ is_none (find
            (λ v. not (covered_in self.now.length self.now.least v))
            (range_with_len first (end - first))) }
    {
        let mut view = first;
        while view < end {
            if !is_covered(&self.least, self.length, view) {
                return false;
            }
            view = behind(&self.whole, self.length, view);
        }
        true
    }
}

/// Covers the rest of the view's term from the view on.
fn cover(least: &mut BTreeMap<u64, u64>, length: TermLength, view: View) -> Result<(), AllocError>
    ensures { OnOk result ((q : ℕ)
        → covered_in length least.new q ≡ (covers length view q || covered_in length least.old q)) }
{
    let term = view.term_index(length);
    let first = match least.get(&term) {
        Some(first) => view.0.min(*first),
        None => view.0,
    };
    put(least, term, first)
}

/// Takes the view's term for whole, where the view is its first.
fn complete(whole: &mut Ranges, length: TermLength, view: View) -> Result<(), AllocError>
    ensures { OnOk result ((q : ℕ) → holds whole.new (term_index length q) ≡ true
        → (covers length view q || holds whole.old (term_index length q)) ≡ true) }
{
    if view != view.term_start(length) {
        return Ok(());
    }
    whole.insert(view.term_index(length))?;
    Ok(())
}

/// Whether the view's term has a nullified view that is not later.
fn is_covered(least: &BTreeMap<u64, u64>, length: TermLength, view: View) -> bool
    ensures { result ≡ covered_in length least.now view }
{
    match least.get(&view.term_index(length)) {
        Some(first) => *first <= view.0,
        None => false,
    }
}

/// The view behind the whole terms that follow the view's term, or the first of the next term.
fn behind(whole: &Ranges, length: TermLength, view: View) -> View
    ensures later { view < greatest_view → view < result }
    ensures passed { (q : ℕ) → view ≤ q → q < result
        → (term_index length q == term_index length view
        || holds whole.now (term_index length q)) ≡ true }
{
    let next = view.next_term_start(length);
    match whole.run_end(next.term_index(length)) {
        None => next,
        Some(last) => View(last.saturating_mul(length.get())).next(),
    }
}
