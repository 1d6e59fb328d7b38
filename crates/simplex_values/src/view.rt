//! Views and their place in terms.
//!
//! With terms of L views the terms are [1..L], [L + 1..2L] and so on. View 0 is genesis, a term by itself.
//! A view that would pass the greatest u64 stops there.
ghost use Rattle.std.specs.Prelude.{Some};
ghost use Rattle.std.specs.Fmt.{decimal};
ghost use Rattle.std.specs.Prelude.{◌≡◌, ◌+◌, ◌-◌};
ghost use Rattle.std.specs.Prelude.{◌<◌, IsNone, IfSome, ◌↔◌};
ghost use Rattle.simplex_values.specs.Terms.{next_of, term_index, term_start, term_end, next_term_start};
ghost use Rattle.simplex_values.specs.Covers.{covers};

use crate::term::TermLength;
use std::fmt;
use std::marker::Model;

/// The number of a view: one attempt to agree on one payload.
#[derive(Clone, Copy, Debug, PartialEq, Eq, PartialOrd, Ord, Hash)]
pub struct View(pub u64);

impl Model for View {
    ghost use Rattle.std.specs.Prelude.{ℕ, ◌<◌, ◌^◌};

    ghost Value = { ℕ };

    ghost view = { λ v. v.0 };

    ghost invariant = { λ v. v.0 < 2 ^ 64 };

    ghost inverse = { λ n. record { 0 = n } };
}

/// A number of views.
#[derive(Clone, Copy, Debug, PartialEq, Eq, PartialOrd, Ord, Hash)]
pub struct ViewDelta(pub u64);

impl Model for ViewDelta {
    ghost use Rattle.std.specs.Prelude.{ℕ, ◌<◌, ◌^◌};

    ghost Value = { ℕ };

    ghost view = { λ delta. delta.0 };

    ghost invariant = { λ delta. delta.0 < 2 ^ 64 };

    ghost inverse = { λ n. record { 0 = n } };
}

impl fmt::Display for View {
    ghost output = { λ number. Some (decimal number) };

    fn fmt<W: fmt::Write>(&self, f: &mut fmt::Formatter<W>) -> fmt::Result {
        let number = self.0;
        write!(f, "{number}")
    }
}

impl View {
    /// The view behind this one. [views-end]
    #[tactic(auto, unfolding(crate::specs::Terms::next_of))]
    pub fn next(self) -> View
        ensures { result ≡ next_of self }
    {
        View(self.0.saturating_add(1))
    }

    /// The view before this one. Genesis has none.
    pub fn previous(self) -> Option<View>
        ensures none { IsNone result ↔ (self ≡ 0) }
        ensures before { IfSome result (λ view. view + 1 ≡ self) }
    {
        Some(View(self.0.checked_sub(1)?))
    }

    /// So many views before this one, or genesis.
    pub fn saturating_sub(self, delta: ViewDelta) -> View
        ensures { result ≡ self - delta }
    {
        View(self.0.saturating_sub(delta.0))
    }

    /// The number of the view's term, from 1. Genesis has term 0.
    #[tactic(auto, unfolding(crate::specs::Terms::term_index), using(crate::proofs::TermCounts::rounded_up, crate::proofs::TermCounts::rounded_up_zero))]
    pub fn term_index(self, length: TermLength) -> u64
        ensures { result ≡ term_index length self }
    {
        let length = length.get();
        match self.0.checked_sub(1) {
            None => 0,
            Some(before) => before / length + 1,
        }
    }

    /// The first view of the view's term.
    #[tactic(auto, unfolding(crate::specs::Opened::terms), using(crate::proofs::TermCounts::rounded_up, crate::proofs::TermCounts::rounded_up_zero, crate::proofs::TermCounts::product_fits))]
    pub fn term_start(self, length: TermLength) -> View
        ensures { result ≡ term_start length self }
    {
        let length = length.get();
        match self.0.checked_sub(1) {
            None => View(0),
            Some(before) => View(before / length * length + 1),
        }
    }

    /// The last view of the view's term.
    #[tactic(auto, unfolding(crate::specs::Terms::term_end))]
    pub fn term_end(self, length: TermLength) -> View
        ensures { result ≡ term_end length self }
    {
        View(self.term_index(length).saturating_mul(length.get()))
    }

    /// The first view of the next term. [views-end]
    #[tactic(auto, unfolding(crate::specs::Terms::next_term_start))]
    pub fn next_term_start(self, length: TermLength) -> View
        ensures { result ≡ next_term_start length self }
    {
        self.term_end(length).next()
    }

    /// Whether the other view is of the same term, and not before this one.
    #[tactic(auto, unfolding(crate::specs::Covers::covers))]
    pub fn covers(self, other: View, length: TermLength) -> bool
        ensures { result ≡ covers length self other }
    {
        self.term_index(length) == other.term_index(length) && self <= other
    }
}
