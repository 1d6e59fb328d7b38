//! Which views lie strictly between a view and one below it, of pairs that come one by one.
#![tactic(auto, unfolding(simplex_values::specs::Maps::found))]

ghost use Rattle.std.specs.Prelude.{◌≡◌, ◌≤◌, ◌<◌, ◌==◌, ◌||◌, ◌↔◌, ℕ, Bool, false, true, Some, None, IsTrue, IfSome, IfNone, OnOk, if◌then◌else◌};
ghost use Rattle.std.specs.BTreeMap.{btree_map_len};
ghost use Rattle.std.specs.Option.{is_some};
ghost use Rattle.simplex_values.specs.Maps.{found};
ghost use Rattle.simplex_conflicts.specs.Stairs.{StairsStand, Reaches, Cleared, is_between};

use simplex_values::maps::{empty_map, put};
use std::alloc::{AllocError, Global};
use std::collections::BTreeMap;

/// Pairs of two views, the lower one and the upper. A pair between whose views another one lies is not kept.
#[derive(Drop)]
pub(crate) struct Stairs {
    /// By its lower view the upper view of each pair. Both rise.
    uppers: BTreeMap<u64, u64>,
}

impl Stairs {
    /// No pairs.
    pub(crate) fn new(alloc: Global) -> Stairs
        ensures { StairsStand result (λ view. false) }
    {
        Stairs {
            uppers: empty_map(alloc),
        }
    }

    /// Whether the view lies strictly between those of a pair.
    pub(crate) fn spans(&self, view: u64) -> bool
        ensures { (spanned : ℕ → Bool) → StairsStand self.now spanned → result ≡ spanned view }
    {
        let Some(before) = view.checked_sub(1) else {
            return false;
        };
        match self.last_up_to(before) {
            None => false,
            Some((_, upper)) => upper > view,
        }
    }

    /// Takes one more pair.
    pub(crate) fn add(&mut self, lower: u64, upper: u64) -> Result<(), AllocError>
        ensures { OnOk result ((spanned : ℕ → Bool) → StairsStand self.old spanned
            → StairsStand self.new (λ view. is_between lower upper view || spanned view)) }
    {
        if self.reaches(lower, upper) {
            return Ok(());
        }
        self.clear(lower, upper);
        put(&mut self.uppers, lower, upper)
    }

    /// Whether both lie between the views of a pair, or are those.
    fn reaches(&self, lower: u64, upper: u64) -> bool
        ensures { (spanned : ℕ → Bool) → StairsStand self.now spanned
            → IsTrue result ↔ Reaches self.now lower upper }
    {
        match self.last_up_to(lower) {
            None => false,
            Some((_, other)) => other >= upper,
        }
    }

    /// The pair of the greatest lower view up to this one.
    fn last_up_to(&self, view: u64) -> Option<(u64, u64)>
        ensures pair { IfSome result (λ pair. found self.now.uppers pair.0 ≡ Some pair.1) }
        ensures bound { IfSome result (λ pair. pair.0 ≤ view) }
        ensures greatest { IfSome result (λ pair. (q : ℕ) → q ≤ view
            → is_some (found self.now.uppers q) ≡ true → q ≤ pair.0) }
        ensures none { IfNone result ((q : ℕ) → q ≤ view → found self.now.uppers q ≡ None) }
    {
        let (lower, upper) = self.uppers.range(..=view).next_back()?;
        Some((*lower, *upper))
    }

    /// The pair of the least lower view from this one on.
    fn first_from(&self, view: u64) -> Option<(u64, u64)>
        ensures pair { IfSome result (λ pair. found self.now.uppers pair.0 ≡ Some pair.1) }
        ensures bound { IfSome result (λ pair. view ≤ pair.0) }
        ensures least { IfSome result (λ pair. (q : ℕ) → view ≤ q → q < pair.0
            → found self.now.uppers q ≡ None) }
        ensures none { IfNone result ((q : ℕ) → view ≤ q → found self.now.uppers q ≡ None) }
    {
        let (lower, upper) = self.uppers.range(view..).next()?;
        Some((*lower, *upper))
    }

    /// Drops the pairs that lie between these two views.
    fn clear(&mut self, lower: u64, upper: u64)
        ensures { (spanned : ℕ → Bool) → StairsStand self.old spanned
            → Cleared self.old self.new lower upper }
    {
        while let Some((first, other)) = self.first_from(lower) {
            if other > upper {
                break;
            }
            remove(&mut self.uppers, first);
        }
    }
}

/// Drops what stands at the view.
fn remove(values: &mut BTreeMap<u64, u64>, view: u64)
    ensures values { (q : ℕ)
        → found values.new q ≡ (if view == q then None else found values.old q) }
    ensures fewer { is_some (found values.old view) ≡ true
        → btree_map_len values.new < btree_map_len values.old }
{
    values.remove(&view);
}
