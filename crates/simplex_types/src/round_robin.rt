//! Members lead in turn.
ghost use Rattle.std.specs.Prelude.{◌≡◌, ◌<◌};
ghost use Rattle.simplex_types.specs.RoundRobin.{leader_of, leader_of-below};

use crate::elector::{Config, Elector};
use simplex_values::{Keep, Participant, Round, Terms};
use std::alloc::{AllocError, Global};

/// Each term is led by the member behind the leader of the one before, and each epoch begins one further on.
#[derive(Clone, Copy, Debug, PartialEq, Eq)]
pub struct RoundRobin {
    /// How views are cut into terms.
    pub terms: Terms,
}

impl RoundRobin {
    /// With these terms.
    pub fn new(terms: Terms) -> RoundRobin
        ensures { result.terms ≡ terms }
    {
        RoundRobin { terms }
    }
}

impl Config for RoundRobin {
    type Elector = RoundRobinElector;

    ghost can_build = { λ _ _. Unit {0} };

    ghost leader = { λ config n. leader_of config.terms.length n };

    ghost cuts = { λ config. config.terms };

    fn build(self, n: u32) -> RoundRobinElector {
        RoundRobinElector {
            terms: self.terms,
            members: n,
        }
    }
}

impl Keep for RoundRobin {
    fn keep(&self, _alloc: Global) -> Result<RoundRobin, AllocError> {
        Ok(*self)
    }
}

/// The elector of a [`RoundRobin`].
#[derive(Clone, Copy, Debug, PartialEq, Eq)]
pub struct RoundRobinElector {
    /// How views are cut into terms.
    pub terms: Terms,
    /// How many members lead in turn.
    pub members: u32,
    ghost some: { 0 < members },
}

impl Elector for RoundRobinElector {
    ghost built_for = { λ e. e.members };

    ghost elects = { λ e. leader_of e.terms.length e.members };

    ghost cuts = { λ e. e.terms };

    ghost leader_is_below = { λ e round. leader_of-below e.terms.length e.members round e.some };

    fn terms(&self) -> Terms {
        self.terms
    }

    // [leaders-in-turn]
    #[tactic(auto, unfolding(crate::specs::RoundRobin::leader_of))]
    fn elect(&self, round: Round) -> Participant {
        let n = u128::from(self.members);
        let index = round.view.term_index(self.terms.length);
        let turn = (u128::from(round.epoch.0) + u128::from(index)) % n;
        Participant(turn as u32)
    }
}

impl Keep for RoundRobinElector {
    fn keep(&self, _alloc: Global) -> Result<RoundRobinElector, AllocError> {
        Ok(*self)
    }
}
