//! The deadlines of views, in order.
ghost use Rattle.std.specs.Prelude.{◌≡◌, ◌<◌, ◌==◌, ◌&&◌, ◌||◌, ℕ, not, ◌+◌, ◌^◌, IfOk, OnOk, OnErr, map, filter};
ghost use Rattle.std.specs.Ordering.{nat_cmp};
ghost use Rattle.std.specs.declared.ops.Bound.TheVariants.{Excluded, Unbounded};
ghost use Rattle.std.specs.BTreeMap.Range.{range_contains};
ghost use Rattle.std.specs.BTreeSet.{IsFromIterResult};
ghost use Rattle.std.specs.List.{list_any};
ghost use Rattle.std.specs.BTreeMap.{is_at};
ghost use Rattle.simplex_fetch.specs.Index.{pair_cmp, is_value};

use std::alloc::{AllocError, Global};
use std::collections::BTreeSet;

/// The deadlines of views, each with its view.
pub(crate) type Timers = BTreeSet<(u64, u64)>;

/// Sets the view's deadline, if there is one.
pub(crate) fn set_timer(
    timers: &mut Timers,
    deadline: Option<u64>,
    view: u64,
) -> Result<(), AllocError>
    ensures ok { OnOk result ((d v : ℕ) → list_any (is_at (pair_cmp (d, v))) timers.new.keys
        ≡ ((is_value d deadline && v == view)
        || list_any (is_at (pair_cmp (d, v))) timers.old.keys)) }
    ensures err { OnErr result (timers.new.keys ≡ timers.old.keys) }
{
    if let Some(deadline) = deadline {
        timers.insert((deadline, view))?;
    }
    Ok(())
}

/// Takes the view's deadline away, if there is one.
pub(crate) fn clear_timer(timers: &mut Timers, deadline: Option<u64>, view: u64)
    ensures { (d v : ℕ) → list_any (is_at (pair_cmp (d, v))) timers.new.keys
        ≡ (not (is_value d deadline && v == view)
        && list_any (is_at (pair_cmp (d, v))) timers.old.keys) }
{
    if let Some(deadline) = deadline {
        timers.remove(&(deadline, view));
    }
}

/// The views whose deadline is reached.
pub(crate) fn reached(alloc: Global, timers: &Timers, now: u64) -> Result<BTreeSet<u64>, AllocError>
    requires { now < 2 ^ 63 }
    ensures { IfOk result (λ views. IsFromIterResult nat_cmp
        (map (λ t. t.1) (filter
        (range_contains pair_cmp Unbounded (Excluded (now + 1, 0))) timers.now.keys)) views) }
{
    timers
        .range(..(now + 1, 0))
        .map(|(_, view)| *view)
        .collect(alloc)
}
