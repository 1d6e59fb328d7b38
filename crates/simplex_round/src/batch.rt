//! What a round answers.
use simplex_types::{Activity, BlockCause};
use simplex_values::{Participant, Sequence};
use simplex_wire::Certificate;
use std::alloc::Global;

/// What a round reports, and whom it blocks and why.
#[derive(Debug, Drop)]
pub struct RoundOut {
    /// What is reported, in order.
    pub reports: Sequence<Activity>,
    /// The members that are blocked, and why, in order.
    pub blocks: Sequence<(Participant, BlockCause)>,
}

impl RoundOut {
    ghost use Rattle.std.specs.Prelude.{◌≡◌, []};

    /// Nothing yet.
    pub fn new(alloc: Global) -> RoundOut
        ensures reports { result.reports ≡ [] }
        ensures blocks { result.blocks ≡ [] }
    {
        RoundOut {
            reports: Sequence::new(alloc),
            blocks: Sequence::new(alloc),
        }
    }
}

/// What checking the votes of a kind came to.
#[derive(Debug, PartialEq, Eq, Drop)]
pub struct Batch {
    /// How many votes were checked.
    pub processed: u64,
    /// The signers of those that are invalid.
    pub invalid: Sequence<Participant>,
    /// The certificate, where the valid votes make one.
    pub certificate: Option<Certificate>,
}
