//! Sets of numbers that are kept as runs.
#![tactic(auto, unfolding(crate::specs::Ranges::start_of, crate::specs::Ranges::holds, simplex_values::specs::Maps::found))]

ghost use Rattle.std.specs.Prelude.{◌≡◌, ◌≤◌, ◌<◌, ℕ, ◌==◌, ◌||◌, true, false, Some, None, IfSome, IfNone, OnOk};
ghost use Rattle.std.specs.Option.{is_some};
ghost use Rattle.simplex_values.specs.Maps.{found};
ghost use Rattle.simplex_state.specs.Ranges.{holds};

use simplex_values::maps::{empty_map, first_between, put};
use std::alloc::{AllocError, Global};
use std::collections::BTreeMap;

/// A set of numbers, as of views, which takes little where they follow one another.
#[derive(Debug, Drop)]
pub struct Ranges {
    /// Where each run starts, and how many more numbers follow. The last start up to a number decides on it.
    runs: BTreeMap<u64, u64>,
}

impl Ranges {
    /// The empty set.
    pub fn new(alloc: Global) -> Ranges
        ensures { (q : ℕ) → holds result q ≡ false }
    {
        Ranges {
            runs: empty_map(alloc),
        }
    }

    /// Whether the number is in the set.
    pub fn contains(&self, number: u64) -> bool
        ensures { result ≡ holds self.now number }
    {
        match self.run_at(number) {
            None => false,
            Some((start, more)) => number - start <= more,
        }
    }

    /// Puts the number into the set.
    pub fn insert(&mut self, number: u64) -> Result<(), AllocError>
        ensures { OnOk result ((q : ℕ) → holds self.new q ≡ (number == q || holds self.old q)) }
    {
        if self.contains(number) {
            return Ok(());
        }
        let start = self.start_for(number);
        put(&mut self.runs, start, number - start)?;
        Ok(())
    }

    /// The greatest number of the set up to this one.
    pub fn last_up_to(&self, number: u64) -> Option<u64>
        ensures member { IfSome result (λ u. holds self.now u ≡ true) }
        ensures bound { IfSome result (λ u. u ≤ number) }
        ensures greatest { IfSome result (λ u. (q : ℕ) → q ≤ number
            → holds self.now q ≡ true → q ≤ u) }
        ensures none { IfNone result ((q : ℕ) → q ≤ number → holds self.now q ≡ false) }
    {
        match self.run_at(number) {
            None => None,
            Some((start, more)) => Some(start + more.min(number - start)),
        }
    }

    /// A number up to which each one from this one on is in the set.
    pub fn run_end(&self, number: u64) -> Option<u64>
        ensures bound { IfSome result (λ last. number ≤ last) }
        ensures held { IfSome result (λ last. (q : ℕ) → number ≤ q → q ≤ last
            → holds self.now q ≡ true) }
    {
        let (start, more) = self.run_at(number)?;
        let last = start.saturating_add(more);
        if last <= number {
            return None;
        }
        match first_between(&self.runs, number + 1, last) {
            None => Some(last),
            Some(next) => Some(next - 1),
        }
    }

    /// Where the run starts that the number goes into: that of the number before, or one of its own.
    fn start_for(&self, number: u64) -> u64
        ensures bound { result ≤ number }
        ensures held { (q : ℕ) → result ≤ q → q < number → holds self.now q ≡ true }
        ensures alone { (q : ℕ) → result < q → q ≤ number → found self.now.runs q ≡ None }
    {
        let Some((start, more)) = self.run_at(number) else {
            return number;
        };
        if (number - start).saturating_sub(more) > 1 {
            return number;
        }
        start
    }

    /// The run that decides on the number.
    fn run_at(&self, number: u64) -> Option<(u64, u64)>
        ensures run { IfSome result (λ run. found self.now.runs run.0 ≡ Some run.1) }
        ensures bound { IfSome result (λ run. run.0 ≤ number) }
        ensures greatest { IfSome result (λ run. (q : ℕ) → q ≤ number
            → is_some (found self.now.runs q) ≡ true → q ≤ run.0) }
        ensures none { IfNone result ((q : ℕ) → q ≤ number → found self.now.runs q ≡ None) }
    {
        let (start, more) = self.runs.range(..=number).next_back()?;
        Some((*start, *more))
    }
}
