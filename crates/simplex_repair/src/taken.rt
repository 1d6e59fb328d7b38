//! Views as ranges, so that a long row of views takes the room of one.
#![tactic(auto, unfolding(simplex_values::specs::Maps::found, crate::specs::Taken::is_taken))]

ghost use Rattle.std.specs.Prelude.{◌≡◌, ◌≤◌, ◌<◌, ◌+◌, ◌==◌, ◌||◌, ◌&&◌, ℕ, max, not, false, IfSome, IfNone, None, Some, if◌then◌else◌, true, unwrap_or, OnOk};
ghost use Rattle.std.specs.Option.{is_some, option_map};
ghost use Rattle.simplex_values.specs.Maps.{found};
ghost use Rattle.simplex_repair.specs.Taken.{is_taken, last_at, reaches};

use simplex_values::maps::put;
use std::alloc::{AllocError, Global};
use std::collections::BTreeMap;

/// The views of which something was taken.
#[derive(Debug, Drop)]
pub(crate) struct Taken {
    /// Of each range its first view, and its last.
    lasts: BTreeMap<u64, u64>,
}

impl Taken {
    /// No views.
    #[tactic(auto, unfolding(simplex_values::specs::Maps::found, crate::specs::Taken::is_taken, crate::specs::Taken::reaches), using(crate::proofs::Spans::last_none))]
    pub(crate) fn new(alloc: Global) -> Taken
        ensures { (q : ℕ) → is_taken result q ≡ false }
    {
        Taken {
            lasts: BTreeMap::new(alloc),
        }
    }

    /// Whether the view is one of them.
    #[tactic(auto, unfolding(crate::specs::Taken::is_taken, crate::specs::Taken::reaches), using(crate::proofs::Spans::last_none, crate::proofs::Spans::last_up_to))]
    pub(crate) fn contains(&self, view: u64) -> bool
        ensures { result ≡ is_taken self.now view }
    {
        match range_up_to(&self.lasts, view) {
            Some((_, last)) => view <= last,
            None => false,
        }
    }

    /// Adds the view.
    #[tactic(auto, unfolding(crate::specs::Taken::is_taken))]
    pub(crate) fn add(&mut self, view: u64) -> Result<(), AllocError>
        ensures { OnOk result ((q : ℕ) → is_taken self.new q ≡ (view == q || is_taken self.old q)) }
    {
        if self.contains(view) {
            return Ok(());
        }
        let first = first_to(&self.lasts, view);
        let last = end_from(view, cut_behind(&mut self.lasts, view));
        put(&mut self.lasts, first, last)?;
        Ok(())
    }
}

/// The range whose first view is the greatest up to this one.
fn range_up_to(lasts: &BTreeMap<u64, u64>, view: u64) -> Option<(u64, u64)>
    ensures bound { IfSome result (λ range. range.0 ≤ view) }
    ensures value { IfSome result (λ range. found lasts.now range.0 ≡ Some range.1) }
    ensures greatest { IfSome result (λ range. (q : ℕ) → range.0 < q → q ≤ view
        → found lasts.now q ≡ None) }
    ensures none { IfNone result ((q : ℕ) → q ≤ view → found lasts.now q ≡ None) }
{
    match lasts.range(..=view).next_back() {
        Some((first, last)) => Some((*first, *last)),
        None => None,
    }
}

/// Where a range that this view goes on begins: before the view, or at it.
#[tactic(auto, unfolding(crate::specs::Taken::reaches), using(crate::proofs::Spans::last_up_to))]
fn first_to(lasts: &BTreeMap<u64, u64>, view: u64) -> u64
    requires { reaches (last_at (found lasts.now) view) view ≡ false }
    ensures bound { result ≤ view }
    ensures free { (q : ℕ) → result < q → q ≤ view → found lasts.now q ≡ None }
    ensures before { (q : ℕ) → result ≤ q → q < view
        → reaches (last_at (found lasts.now) q) q ≡ true }
{
    match range_up_to(lasts, view) {
        Some((first, last)) if last.saturating_add(1) == view => first,
        _ => view,
    }
}

/// Cuts off the range that begins behind the view, if there is one, and answers where it ends.
fn cut_behind(lasts: &mut BTreeMap<u64, u64>, view: u64) -> Option<u64>
    ensures last { IfSome result (λ last. found lasts.old (view + 1) ≡ Some last) }
    ensures cut { (q : ℕ)
        → found lasts.new q
        ≡ (if is_some result && view + 1 == q then None else found lasts.old q) }
{
    lasts.remove(&view.checked_add(1)?)
}

/// Where a range ends that goes on from the view to the end of what was cut off.
fn end_from(view: u64, cut: Option<u64>) -> u64
    ensures { result ≡ unwrap_or (option_map (max view) cut) view }
{
    match cut {
        Some(last) => view.max(last),
        None => view,
    }
}

/// Holds the value of a view, where none was taken yet.
pub(crate) fn hold<V: Drop>(
    values: &mut BTreeMap<u64, V>,
    taken: &mut Taken,
    view: u64,
    value: V,
) -> Result<(), AllocError>
    ensures taken { OnOk result ((q : ℕ)
        → is_taken taken.new q ≡ (view == q || is_taken taken.old q)) }
    ensures held { OnOk result ((q : ℕ) → found values.new q
        ≡ (if view == q && not (is_taken taken.old view) then Some value else found values.old q)) }
{
    if taken.contains(view) {
        return Ok(());
    }
    put(values, view, value)?;
    taken.add(view)
}
