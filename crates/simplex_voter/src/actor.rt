//! The voter.
ghost use Rattle.simplex_state.specs.Bound.{Knows};

use crate::planner::Planner;
use simplex_journal::Journal;
use simplex_types::elector::Elector;
use simplex_types::{Floor, Scheme};
use std::alloc::Global;

/// Votes for a member: it takes messages, answers and the clock, and keeps its journal.
#[derive(Drop)]
pub struct Actor<S: Scheme, L: Elector, J: Journal> {
    pub(crate) alloc: Global,
    pub(crate) planner: Planner<S, L>,
    pub(crate) floor: Floor,
    pub(crate) journal: J,
    // true of any: contracts read from an actor's type what its journal does [types-know-what-they-do]
    ghost by_journal: { Knows J.fault_count },
}
