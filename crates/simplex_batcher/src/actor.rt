//! The batcher's actor.
ghost use Rattle.simplex_batcher.specs.Bound.{Knows};

use crate::config::Config;
use crate::rounds::Rounds;
use crate::seen::Seen;
use simplex_types::{Participant, Scheme, View};
use std::alloc::Global;

/// A batcher between two steps.
#[derive(Drop)]
pub struct Actor<S: Scheme> {
    pub(crate) alloc: Global,
    pub(crate) config: Config<S>,
    /// The leader of the view that the voter is in.
    pub(crate) leader: Option<Participant>,
    /// The last final view.
    pub(crate) finalized: View,
    /// Whether the leader's nullify of the current view was hinted at.
    pub(crate) hinted: bool,
    /// When each member was seen last.
    pub(crate) seen: Seen,
    pub(crate) rounds: Rounds,
    // true of any: contracts read from an actor's type what its scheme does
    ghost by_scheme: { Knows S.members },
}
