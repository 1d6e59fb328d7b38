//! The length of a term.
ghost use Rattle.std.specs.Prelude.{◌≡◌, ◌<◌, ◌≤◌, ◌^◌};
ghost use Rattle.std.specs.Option.{SomeIff};

use std::marker::Model;

/// How many views a term has: 1 to 2^32.
#[derive(Clone, Copy, Debug, PartialEq, Eq, PartialOrd, Ord, Hash)]
pub struct TermLength(u64);

impl Model for TermLength {
    ghost use Rattle.std.specs.Prelude.{ℕ, ◌<◌, ◌≤◌, ◌^◌};

    ghost Value = { ℕ };

    ghost view = { λ length. length.0 };

    ghost invariant = { λ length. (0 < length.0) × (length.0 ≤ 2 ^ 32) };

    ghost inverse = { λ n. record { 0 = n } };
}

const _: () = prove!(TermLength::ONE.0 == 1);

impl TermLength {
    /// Terms of a single view.
    pub const ONE: TermLength = TermLength(1);

    /// A term of so many views, or none where that is outside 1 to 2^32.
    pub fn new(views: u64) -> Option<TermLength>
        ensures { SomeIff result ((0 < views) × (views ≤ 2 ^ 32)) views }
    {
        if views == 0 || views > 1 << 32 {
            return None;
        }
        Some(TermLength(views))
    }

    /// How many views it is.
    pub fn get(self) -> u64
        ensures value { result ≡ self }
        ensures positive { 0 < self }
        ensures limit { self ≤ 2 ^ 32 }
    {
        self.0
    }
}
