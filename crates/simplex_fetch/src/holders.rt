//! The views that have asks which are done with at one time.
ghost use Rattle.std.specs.Prelude.{◌≡◌, ◌==◌, ◌≤◌, ◌&&◌, ◌||◌, ℕ, not, IfOk, OnOk, OnErr, [], filter};
ghost use Rattle.std.specs.Ordering.{nat_cmp};
ghost use Rattle.std.specs.List.Sorted.{IsStrictlySortedBy};
ghost use Rattle.std.specs.declared.ops.Bound.TheVariants.{Included};
ghost use Rattle.std.specs.BTreeMap.Range.{range_contains};
ghost use Rattle.simplex_fetch.specs.Index.{is_there};
ghost use Rattle.simplex_fetch.specs.Holders.{of_kind, IsNoted, IsForgotten};

use model_resolver::Held;
use simplex_types::Kind;
use std::alloc::{AllocError, Global};
use std::collections::BTreeSet;

/// The views that have asks which are done with at one time. A view may be among several.
#[derive(Drop)]
pub(crate) struct Holders {
    /// The views with an ask for a nullification.
    pub(crate) nullifications: BTreeSet<u64>,
    /// The views with an ask for a notarization.
    pub(crate) notarizations: BTreeSet<u64>,
    /// The views with an ask that stands until the floor.
    pub(crate) floors: BTreeSet<u64>,
}

/// Adds the view, if it holds such an ask.
fn add(views: &mut BTreeSet<u64>, holds: bool, view: u64) -> Result<(), AllocError>
    ensures ok { OnOk result ((q : ℕ)
        → is_there q views.new.keys ≡ ((holds && q == view) || is_there q views.old.keys)) }
    ensures elsewhere { (q : ℕ) → (not (holds && q == view) && is_there q views.new.keys)
        ≡ (not (holds && q == view) && is_there q views.old.keys) }
{
    if holds {
        views.insert(view)?;
    }
    Ok(())
}

/// Takes the view away, if it holds such an ask.
fn remove(views: &mut BTreeSet<u64>, holds: bool, view: u64)
    ensures { (q : ℕ) → is_there q views.new.keys
        ≡ (not (holds && q == view) && is_there q views.old.keys) }
{
    if holds {
        views.remove(&view);
    }
}

/// Those from the first to the last.
pub(crate) fn within(
    alloc: Global,
    views: &BTreeSet<u64>,
    first: u64,
    last: u64,
) -> Result<Vec<u64>, AllocError>
    requires { first ≤ last }
    ensures items { IfOk result (λ found. found.items
        ≡ filter (range_contains nat_cmp (Included first) (Included last)) views.now.keys) }
    ensures rising { IsStrictlySortedBy nat_cmp views.now.keys }
{
    views.range(first..=last).copied().collect(alloc)
}

impl Holders {
    /// No views.
    pub(crate) fn new(alloc: Global) -> Holders
        ensures nullifications { result.nullifications.keys ≡ [] }
        ensures notarizations { result.notarizations.keys ≡ [] }
        ensures floors { result.floors.keys ≡ [] }
    {
        Holders {
            nullifications: BTreeSet::new(alloc),
            notarizations: BTreeSet::new(alloc),
            floors: BTreeSet::new(alloc),
        }
    }

    /// The views with an ask of this kind.
    pub(crate) fn of_kind(&self, kind: Kind) -> &BTreeSet<u64>
        ensures { result.now.keys ≡ of_kind kind self.now }
    {
        match kind {
            Kind::Nullification => &self.nullifications,
            Kind::Notarization => &self.notarizations,
        }
    }

    /// Notes what the view holds. Where memory is missing it is as if the view had been forgotten.
    pub(crate) fn note(&mut self, view: u64, held: &Held) -> Result<(), AllocError>
        ensures ok { OnOk result (IsNoted view held.now self.old self.new) }
        ensures err { OnErr result (IsForgotten view held.now self.old self.new) }
    {
        let noted = self.note_each(view, held);
        if noted.is_err() {
            self.forget(view, held);
        }
        noted
    }

    /// Notes what the view holds, or some of it.
    fn note_each(&mut self, view: u64, held: &Held) -> Result<(), AllocError>
        ensures ok { OnOk result (IsNoted view held.now self.old self.new) }
        ensures nullifications { (q : ℕ)
            → (not (held.now.nullification && q == view) && is_there q self.new.nullifications.keys)
            ≡ (not (held.now.nullification && q == view)
            && is_there q self.old.nullifications.keys) }
        ensures notarizations { (q : ℕ)
            → (not (held.now.notarization && q == view) && is_there q self.new.notarizations.keys)
            ≡ (not (held.now.notarization && q == view) && is_there q self.old.notarizations.keys) }
        ensures floors { (q : ℕ) → (not (held.now.floor && q == view) && is_there q self.new.floors.keys)
            ≡ (not (held.now.floor && q == view) && is_there q self.old.floors.keys) }
    {
        add(&mut self.nullifications, held.nullification, view)?;
        add(&mut self.notarizations, held.notarization, view)?;
        add(&mut self.floors, held.floor, view)
    }

    /// Forgets what the view held.
    pub(crate) fn forget(&mut self, view: u64, held: &Held)
        ensures { IsForgotten view held.now self.old self.new }
    {
        remove(&mut self.nullifications, held.nullification, view);
        remove(&mut self.notarizations, held.notarization, view);
        remove(&mut self.floors, held.floor, view);
    }
}
