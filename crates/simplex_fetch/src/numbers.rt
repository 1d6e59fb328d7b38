//! Which view a request is for.
ghost use Rattle.std.specs.Prelude.{◌≡◌, ℕ, if◌then◌else◌, OnOk, OnErr, Some, None};
ghost use Rattle.std.specs.Ordering.{nat_cmp};
ghost use Rattle.std.specs.Map.{lookup};
ghost use Rattle.std.specs.BTreeMap.{is_at};
ghost use Rattle.simplex_fetch.specs.Index.{is_value};

use std::alloc::AllocError;
use std::collections::BTreeMap;

/// The views of the requests that are open or judged, by number.
pub(crate) type Numbers = BTreeMap<u64, u64>;

/// Notes the view of the request, if there is one.
pub(crate) fn open(numbers: &mut Numbers, id: Option<u64>, view: u64) -> Result<(), AllocError>
    ensures ok { OnOk result ((q : ℕ) → lookup (is_at (nat_cmp q)) numbers.new.entries
        ≡ (if is_value q id then Some view else lookup (is_at (nat_cmp q)) numbers.old.entries)) }
    ensures err { OnErr result (numbers.new.entries ≡ numbers.old.entries) }
{
    if let Some(id) = id {
        numbers.insert(id, view)?;
    }
    Ok(())
}

/// Forgets the request, if there is one.
pub(crate) fn close(numbers: &mut Numbers, id: Option<u64>)
    ensures { (q : ℕ) → lookup (is_at (nat_cmp q)) numbers.new.entries
        ≡ (if is_value q id then None else lookup (is_at (nat_cmp q)) numbers.old.entries) }
{
    if let Some(id) = id {
        numbers.remove(&id);
    }
}
