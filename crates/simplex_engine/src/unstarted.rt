//! An engine before its start.
ghost use Rattle.std.proofs.Props.{props};
ghost use Rattle.simplex_state.specs.Stands.{IsConfigured};
ghost use Rattle.simplex_voter.specs.Actor.{state_config};

use crate::boxes::Boxes;
use simplex_journal::Journal;
use simplex_types::Scheme;
use simplex_types::elector::Elector;

/// What an engine is until its start. The voter is made then, since its rules count from that clock.
#[derive(Drop)]
pub(crate) struct Unstarted<S: Scheme, L: Elector, J: Journal> {
    pub(crate) config: simplex_voter::Config<S, L>,
    pub(crate) journal: J,
    pub(crate) batcher: simplex_batcher::Actor<S>,
    pub(crate) resolver: simplex_resolver::Actor<S>,
    pub(crate) boxes: Boxes,
    ghost limits: { IsConfigured S.members L.built_for L.cuts (state_config config) } by { Prim.hlevel props },
}
