//! Scripted leaders.
ghost use Rattle.std.specs.Prelude.{◌≡◌, ◌<◌, ◌≤◌, IsTrue, IfOk, IfErr, map, [], false, if◌then◌else◌};
ghost use Rattle.simplex_twins.specs.declared.error.TwinsError.TheVariants.{BadLeader, Memory};
ghost use Rattle.simplex_twins.specs.Faults.{has_bad_leader};
ghost use Rattle.simplex_twins.specs.Leaders.{scripted_leader, are_members};
ghost use Rattle.simplex_twins.specs.LeaderLaws.{scripted_leader-below};

use crate::error::TwinsError;
use crate::round::RoundScenario;
use crate::scenario::{Scenario, round_index};
use simplex_types::elector;
use simplex_values::{Keep, Members, Participant, Round, Terms};
use std::alloc::{AllocError, Global};
use std::marker::Model;

/// Elects the scripted leaders of the first terms, and behind them as the fallback does.
#[derive(Debug, Drop)]
pub struct Elector<C> {
    fallback: C,
    leaders: Members,
    participants: u32,
}

impl<C> Model for Elector<C> {
    ghost use Rattle.std.specs.Prelude.{IsTrue};
    ghost use Rattle.simplex_twins.specs.Leaders.{Leading, are_members};

    ghost Value = { Leading C };

    ghost view = { λ e. record { leaders = e.leaders; fallback = e.fallback; members = e.participants } };

    ghost invariant = { λ e. IsTrue (are_members e.leaders e.participants) };
}

impl<C: Drop> Elector<C> {
    /// With the leaders of the scenario, for at least so many members.
    ///
    /// `BadLeader` tells that a leader is none of them.
    #[tactic(auto, using(crate::proofs::Members::leaders_are_members))]
    pub fn new(
        alloc: Global,
        fallback: C,
        scenario: &Scenario,
        participants: u32,
    ) -> Result<Elector<C>, TwinsError>
        ensures fault { IfErr result (λ fault. fault
            ≡ (if has_bad_leader scenario.now participants then BadLeader else Memory)) }
        ensures good { IfOk result (λ _. has_bad_leader scenario.now participants ≡ false) }
        ensures made { IfOk result (λ e. (e.leaders ≡ map (λ round. round.leader) scenario.now)
            × (e.fallback ≡ fallback) × (e.members ≡ participants)) }
    {
        let rounds = scenario.rounds();
        if has_bad_leader(rounds, participants) {
            return Err(TwinsError::BadLeader);
        }
        Ok(Elector {
            fallback,
            leaders: leaders_of(alloc, rounds)?,
            participants,
        })
    }
}

impl<C> Elector<C> {
    /// Elects as the fallback does: nothing is scripted.
    pub fn unscripted(alloc: Global, fallback: C) -> Elector<C>
        ensures { (result.leaders ≡ []) × (result.fallback ≡ fallback) × (result.members ≡ 0) }
    {
        Elector {
            fallback,
            leaders: Members::new(alloc),
            participants: 0,
        }
    }
}

/// Whether a round has a leader who is none of so many members.
#[tactic(auto, unfolding(crate::specs::Faults::has_bad_leader))]
fn has_bad_leader(rounds: &[RoundScenario], participants: u32) -> bool
    ensures { result ≡ has_bad_leader rounds.now participants }
{
    rounds.iter().any(|round| round.leader() >= participants)
}

/// The leaders of the rounds, in their order.
fn leaders_of(alloc: Global, rounds: &[RoundScenario]) -> Result<Members, AllocError>
    ensures { IfOk result (λ leaders. leaders ≡ map (λ round. round.leader) rounds.now) }
{
    let leaders: Vec<Participant> = rounds
        .iter()
        .map(|round| Participant(round.leader()))
        .collect(alloc)?;
    Ok(Members::from_vec(leaders))
}

impl<C: elector::Config> elector::Config for Elector<C> {
    type Elector = ElectorState<C::Elector>;

    ghost can_build = { λ e n. C.can_build e.fallback n × (e.members ≤ n) };

    ghost leader = { λ e n. scripted_leader e.leaders (C.cuts e.fallback).length (C.leader e.fallback n) };

    ghost cuts = { λ e. C.cuts e.fallback };

    #[tactic(auto, using(crate::proofs::Members::members_among_more))]
    fn build(self, n: u32) -> ElectorState<C::Elector> {
        let Elector {
            fallback,
            leaders,
            participants: _,
        } = self;
        ElectorState {
            leaders,
            fallback: fallback.build(n),
        }
    }
}

/// The elector of an [`Elector`].
#[derive(Debug, Drop)]
pub struct ElectorState<E: elector::Elector> {
    fallback: E,
    leaders: Members,
    ghost members: { IsTrue (are_members leaders (E.built_for fallback)) },
}

impl<E: elector::Elector> elector::Elector for ElectorState<E> {
    ghost built_for = { λ e. E.built_for e.fallback };

    ghost elects = { λ e. scripted_leader e.leaders (E.cuts e.fallback).length (E.elects e.fallback) };

    ghost cuts = { λ e. E.cuts e.fallback };

    ghost leader_is_below = { λ e round. scripted_leader-below e.leaders (E.cuts e.fallback).length
        (E.built_for e.fallback) (E.elects e.fallback) round e.members (E.leader_is_below e.fallback round) };

    fn terms(&self) -> Terms {
        self.fallback.terms()
    }

    #[tactic(auto, unfolding(crate::specs::Leaders::scripted_leader))]
    fn elect(&self, round: Round) -> Participant {
        let index = round_index(round.view, self.fallback.terms().length);
        match self.leaders.as_slice().get(index) {
            Some(leader) => *leader,
            None => self.fallback.elect(round),
        }
    }
}

impl<E: elector::Elector + Keep + Drop> Keep for ElectorState<E> {
    fn keep(&self, alloc: Global) -> Result<ElectorState<E>, AllocError> {
        Ok(ElectorState {
            fallback: self.fallback.keep(alloc)?,
            leaders: self.leaders.keep(alloc)?,
        })
    }
}

impl<C: Keep + Drop> Keep for Elector<C> {
    fn keep(&self, alloc: Global) -> Result<Elector<C>, AllocError> {
        Ok(Elector {
            fallback: self.fallback.keep(alloc)?,
            leaders: self.leaders.keep(alloc)?,
            participants: self.participants,
        })
    }
}
