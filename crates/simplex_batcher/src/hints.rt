//! Hints to the voter that the current view's leader is of no use.
ghost use Rattle.std.specs.Prelude.{◌≡◌, ℕ, List, OnOk};
ghost use Rattle.model_steps.specs.Batcher.{Made, Standing, Doing, leader_nullified, hinting, hinting_nullify, hinted_at_vote, hinted_at_update, is_me, has_skipping};
ghost use Rattle.simplex_batcher.specs.Stands.{Does, IsAt, Reads, Stands};

use crate::actor::Actor;
use crate::work::hand;
use simplex_messages::{StepOut, voter};
use simplex_types::{Participant, Round, Scheme, SkipPolicy, TimeoutReason, View};
use std::alloc::AllocError;

/// Whether leaders that seem to be gone are hinted at.
fn has_skipping(skip: SkipPolicy) -> bool
    ensures { result ≡ has_skipping skip }
{
    match skip {
        SkipPolicy::Disabled => false,
        SkipPolicy::Enabled { .. } => true,
    }
}

impl<S: Scheme + Drop> Actor<S> {
    /// Whether the leader's nullify of the current view is accepted.
    #[tactic(auto, unfolding(model_steps::specs::Batcher::leader_nullified))]
    fn leader_nullified(&self) -> bool
        ensures { Reads self.now (λ made standing. leader_nullified standing) result }
    {
        match self.leader {
            None => false,
            Some(leader) => self.rounds.has_nullify(self.rounds.current, leader),
        }
    }

    /// Whether it is this member.
    #[tactic(auto, unfolding(crate::specs::Stands::batcher_made))]
    pub(crate) fn is_me(&self, member: Participant) -> bool
        ensures { Reads self.now (λ made standing. is_me made member) result }
    {
        match self.config.scheme.me() {
            None => false,
            Some(me) => me == member,
        }
    }

    /// The voter is told that the current view is to be given up.
    #[tactic(auto, unfolding(crate::specs::Stands::batcher_made))]
    fn hint(&self, reason: TimeoutReason, work: &mut StepOut) -> Result<(), AllocError>
        ensures { OnOk result (Does self.now work.old self.now work.new
            (λ made. hinting made reason)) }
    {
        let round = Round {
            epoch: self.config.epoch,
            view: self.rounds.current,
        };
        hand(work, voter::Message::Timeout { round, reason })?;
        Ok(())
    }

    /// The voter is told that the leader gave the current view up.
    fn hint_nullify(&mut self, work: &mut StepOut) -> Result<(), AllocError>
        ensures { OnOk result (Does self.old work.old self.new work.new
            (λ made. hinting_nullify made)) }
    {
        self.hinted = true;
        self.hint(TimeoutReason::LeaderNullify, work)?;
        Ok(())
    }

    /// Whether the leader's nullify of the current view is accepted, where it is known of this view.
    fn is_nullified(&self, view: View, nullified: bool) -> bool
        ensures { (made : Made) (standing : Standing) → IsAt self.now made standing
            → (view ≡ standing.current → nullified ≡ leader_nullified standing)
            → result ≡ leader_nullified standing }
    {
        if view == self.rounds.current {
            return nullified;
        }
        self.leader_nullified()
    }

    /// The hint that a vote from the network gives, once between two updates. Where its view is current, it is known
    /// whether the leader's nullify is accepted.
    #[tactic(auto, unfolding(crate::specs::Stands::batcher_made, model_steps::specs::Batcher::hinted_at_vote))]
    pub(crate) fn hint_at_vote(
        &mut self,
        view: View,
        accepted: bool,
        nullified: bool,
        work: &mut StepOut,
    ) -> Result<(), AllocError>
        ensures { OnOk result ((dirty : List ℕ) (made : Made) (doing : Doing)
            → (view ≡ doing.standing.current → nullified ≡ leader_nullified doing.standing)
            → Stands self.old work.old dirty made doing
            → Stands self.new work.new dirty made (hinted_at_vote made accepted doing)) }
    {
        let is_skipping = has_skipping(self.config.skip);
        if accepted && is_skipping && !self.hinted && self.is_nullified(view, nullified) {
            self.hint_nullify(work)?;
        }
        Ok(())
    }

    /// The hint that an update gives, where views are skipped. [own-nullify-is-told]
    #[tactic(auto, unfolding(crate::specs::Stands::batcher_made, model_steps::specs::Batcher::hinted_at_update))]
    pub(crate) fn hint_at_update(
        &mut self,
        leader: Participant,
        now: u64,
        work: &mut StepOut,
    ) -> Result<(), AllocError>
        ensures { OnOk result (Does self.old work.old self.new work.new
            (λ made. hinted_at_update made made.skip leader now)) }
    {
        let SkipPolicy::Enabled { timeout, .. } = self.config.skip else {
            return Ok(());
        };
        if self.leader_nullified() {
            self.hint_nullify(work)?;
            return Ok(());
        }
        if self.is_me(leader) {
            return Ok(());
        }
        if self.seems_active(leader, timeout, now) {
            return Ok(());
        }
        self.hint(TimeoutReason::Inactivity, work)?;
        Ok(())
    }
}
