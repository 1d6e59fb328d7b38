//! Maps and sets by number, as of views.
#![tactic(auto, unfolding(crate::specs::Maps::found, crate::specs::Maps::has))]

ghost use Rattle.std.specs.Prelude.{◌≡◌, ◌≤◌, ◌<◌, ℕ, ◌==◌, ◌||◌, true, false, IfSome, IfNone, Some, None, if◌then◌else◌, OnOk, OnErr, IfOk};
ghost use Rattle.std.specs.Option.{is_some};
ghost use Rattle.simplex_values.specs.Maps.{found, has};

use crate::keep::Keep;
use std::alloc::{AllocError, Global};
use std::collections::{BTreeMap, BTreeSet};

/// An empty map.
pub fn empty_map<V>(alloc: Global) -> BTreeMap<u64, V>
    ensures { (q : ℕ) → found result q ≡ None }
{
    BTreeMap::new(alloc)
}

/// An empty set.
pub fn empty_set(alloc: Global) -> BTreeSet<u64>
    ensures { (q : ℕ) → has result q ≡ false }
{
    BTreeSet::new(alloc)
}

/// Makes this the value at a view.
pub fn put<V: Drop>(values: &mut BTreeMap<u64, V>, view: u64, value: V) -> Result<(), AllocError>
    ensures ok { OnOk result ((q : ℕ)
        → found values.new q ≡ (if view == q then Some value else found values.old q)) }
    ensures err { OnErr result ((q : ℕ) → found values.new q ≡ found values.old q) }
{
    values.insert(view, value)?;
    Ok(())
}

/// A copy of the value at a number.
pub fn copy_at<V: Keep + Drop>(
    alloc: Global,
    values: &BTreeMap<u64, V>,
    number: u64,
) -> Result<Option<V>, AllocError>
    ensures { IfOk result (λ copy. copy ≡ found values.now number) }
{
    match values.get(&number) {
        None => Ok(None),
        Some(value) => Ok(Some(value.keep(alloc)?)),
    }
}

/// Whether the view is in the set.
pub fn contains(views: &BTreeSet<u64>, view: u64) -> bool
    ensures { result ≡ has views.now view }
{
    views.contains(&view)
}

/// Puts the view into the set.
pub fn add(views: &mut BTreeSet<u64>, view: u64) -> Result<(), AllocError>
    ensures ok { OnOk result ((q : ℕ) → has views.new q ≡ (view == q || has views.old q)) }
    ensures err { OnErr result ((q : ℕ) → has views.new q ≡ has views.old q) }
{
    views.insert(view)?;
    Ok(())
}

/// Drops what stands below a view.
pub fn drop_below<V: Drop>(values: &mut BTreeMap<u64, V>, least: u64)
    ensures kept { (q : ℕ) → least ≤ q → found values.new q ≡ found values.old q }
    ensures dropped { (q : ℕ) → q < least → found values.new q ≡ None }
{
    while let Some((first, _)) = values.first_key_value() {
        if *first >= least {
            break;
        }
        values.pop_first();
    }
}

/// Drops the views below a view.
pub fn remove_below(views: &mut BTreeSet<u64>, least: u64)
    ensures kept { (q : ℕ) → least ≤ q → has views.new q ≡ has views.old q }
    ensures dropped { (q : ℕ) → q < least → has views.new q ≡ false }
{
    while let Some(first) = views.first() {
        if *first >= least {
            break;
        }
        views.pop_first();
    }
}

/// The least view of the set from this one on.
pub fn first_from(views: &BTreeSet<u64>, view: u64) -> Option<u64>
    ensures member { IfSome result (λ u. has views.now u ≡ true) }
    ensures bound { IfSome result (λ u. view ≤ u) }
    ensures least { IfSome result (λ u. (q : ℕ) → view ≤ q → q < u → has views.now q ≡ false) }
    ensures none { IfNone result ((q : ℕ) → view ≤ q → has views.now q ≡ false) }
{
    match views.range(view..).next() {
        Some(first) => Some(*first),
        None => None,
    }
}

/// The greatest view of the set up to this one.
pub fn last_up_to(views: &BTreeSet<u64>, view: u64) -> Option<u64>
    ensures member { IfSome result (λ u. has views.now u ≡ true) }
    ensures bound { IfSome result (λ u. u ≤ view) }
    ensures greatest { IfSome result (λ u. (q : ℕ) → q ≤ view → has views.now q ≡ true → q ≤ u) }
    ensures none { IfNone result ((q : ℕ) → q ≤ view → has views.now q ≡ false) }
{
    match views.range(..=view).next_back() {
        Some(last) => Some(*last),
        None => None,
    }
}

/// The least view of the map from one to another.
pub fn first_between<V>(values: &BTreeMap<u64, V>, first: u64, last: u64) -> Option<u64>
    ensures member { IfSome result (λ view. is_some (found values.now view) ≡ true) }
    ensures bounds { IfSome result (λ view. (first ≤ view) × (view ≤ last)) }
    ensures least { IfSome result (λ view. (q : ℕ) → first ≤ q → q < view
        → found values.now q ≡ None) }
    ensures none { IfNone result ((q : ℕ) → first ≤ q → q ≤ last → found values.now q ≡ None) }
{
    let (view, _) = values.range(first..).next()?;
    if *view > last {
        return None;
    }
    Some(*view)
}

/// The greatest view of the map below one.
pub fn last_below<V>(values: &BTreeMap<u64, V>, end: u64) -> Option<u64>
    ensures bound { IfSome result (λ view. view < end) }
    ensures member { IfSome result (λ view. is_some (found values.now view) ≡ true) }
    ensures greatest { IfSome result (λ view. (q : ℕ) → q < end
        → is_some (found values.now q) ≡ true → q ≤ view) }
    ensures none { IfNone result ((q : ℕ) → q < end → found values.now q ≡ None) }
{
    match values.range(..end).next_back() {
        Some((view, _)) => Some(*view),
        None => None,
    }
}

/// The greatest view of the map.
pub fn last_view<V>(values: &BTreeMap<u64, V>) -> Option<u64>
    ensures member { IfSome result (λ view. is_some (found values.now view) ≡ true) }
    ensures greatest { IfSome result (λ view. (q : ℕ)
        → is_some (found values.now q) ≡ true → q ≤ view) }
    ensures none { IfNone result ((q : ℕ) → found values.now q ≡ None) }
{
    match values.last_key_value() {
        Some((view, _)) => Some(*view),
        None => None,
    }
}
