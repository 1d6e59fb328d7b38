//! Which views are kept, and the rounds that are made for them.
ghost use Rattle.std.specs.Prelude.{◌≡◌, ◌&&◌, IfOk, OnOk, unwrap_or};
ghost use Rattle.model_steps.specs.Batcher.{retains_view, admits_view, round_for, new_round};
ghost use Rattle.simplex_batcher.specs.Rounds.{round_of};
ghost use Rattle.simplex_batcher.specs.Working.{put, with_lead, lead_of};
ghost use Rattle.simplex_batcher.specs.Stands.{Moves, Reads};

use crate::actor::Actor;
use crate::kept::Kept;
use simplex_round::Round;
use simplex_types::{Participant, Round as ViewRound, Scheme, View, Viewport, quorum};
use std::alloc::AllocError;

impl<S: Scheme + Drop> Actor<S> {
    /// Which views the batcher still cares for.
    fn viewport(&self) -> Viewport
        ensures { result ≡ record {
          finalized = self.now.finalized;
          current = self.now.rounds.current;
          view_retention = self.now.config.view_retention;
          lookahead = self.now.config.lookahead;
        } }
    {
        Viewport {
            finalized: self.finalized,
            current: self.rounds.current,
            view_retention: self.config.view_retention,
            lookahead: self.config.lookahead,
        }
    }

    /// Whether the view is kept.
    #[tactic(auto, unfolding(crate::specs::Stands::batcher_made, model_steps::specs::Batcher::retains_view))]
    pub(crate) fn retains(&self, view: View) -> bool
        ensures { Reads self.now (λ made standing. retains_view made standing view) result }
    {
        self.viewport().retains(view)
    }

    /// Whether the view is admitted.
    #[tactic(auto, unfolding(crate::specs::Stands::batcher_made, model_steps::specs::Batcher::admits_view))]
    pub(crate) fn admits(&self, view: View) -> bool
        ensures { Reads self.now (λ made standing. admits_view made standing view) result }
    {
        self.config.lookahead.admits(self.rounds.current, view)
    }

    /// Whether a vote of the view is of use: the view is kept and admitted.
    #[tactic(auto, unfolding(crate::specs::Stands::batcher_made, model_steps::specs::Batcher::retains_view, model_steps::specs::Batcher::admits_view))]
    pub(crate) fn admits_vote(&self, view: View) -> bool
        ensures { Reads self.now (λ made standing. retains_view made standing view
            && admits_view made standing view) result }
    {
        self.viewport().admits_vote(view)
    }

    /// A new round of the view: it is skipped where the view is below current and votes are not tracked.
    #[tactic(auto, unfolding(crate::specs::Stands::batcher_made, crate::specs::Rounds::round_of, simplex_round::specs::Stands::StandsFor, model_steps::specs::Batcher::new_round))]
    fn new_round(&self, view: View) -> Result<Round, AllocError>
        ensures { IfOk result (λ round. Reads self.now
            (λ made standing. round_of (new_round made standing view)) round) }
    {
        let round = ViewRound {
            epoch: self.config.epoch,
            view,
        };
        let members = self.config.scheme.participants();
        if view < self.rounds.current && !self.config.track_historical_votes {
            return Round::skipped(self.alloc, round, members);
        }
        let track = self.config.track_historical_votes;
        Round::new(self.alloc, round, members, quorum(members), track)
    }

    /// A new round of the view, in its place.
    pub(crate) fn new_kept(&self, view: View) -> Result<Kept, AllocError>
        ensures { IfOk result (λ kept. Reads self.now
            (λ made standing. round_of (new_round made standing view)) kept) }
    {
        let round = self.new_round(view)?;
        Kept::new(self.alloc, round)
    }

    /// The view has a round from now on.
    #[tactic(auto, unfolding(crate::specs::Rounds::found))]
    fn make_bare_round(&mut self, view: View) -> Result<(), AllocError>
        ensures { OnOk result (Moves self.old self.new (λ made standing. put view
            (unwrap_or (standing.rounds view) (new_round made standing view)) standing)) }
    {
        if self.rounds.has(view) {
            return Ok(());
        }
        let round = self.new_kept(view)?;
        self.rounds.put(view, round)?;
        Ok(())
    }

    /// The leader that a round of the view is given.
    #[tactic(auto, unfolding(crate::specs::Stands::batcher_made, crate::specs::Working::lead_of))]
    pub(crate) fn leader_at(&self, view: View) -> Option<Participant>
        ensures { Reads self.now (λ made standing. lead_of made standing view) result }
    {
        if view == self.rounds.current {
            return self.leader;
        }
        let lookahead = self.config.lookahead;
        if lookahead.in_admission_window(self.rounds.current, view) {
            return self.leader;
        }
        None
    }

    /// The round of the view, if there is one, has the leader, where it is current or in the admission window.
    pub(crate) fn lead(&mut self, view: View)
        ensures { Moves self.old self.new (λ made. with_lead made view) }
    {
        let Some(leader) = self.leader_at(view) else {
            return;
        };
        self.rounds.set_leader(view, leader);
    }

    /// The view has a round from now on, with the leader where the view is current or in the admission window.
    /// [rounds-are-made]
    pub(crate) fn make_round(&mut self, view: View) -> Result<(), AllocError>
        ensures { OnOk result (Moves self.old self.new
            (λ made standing. put view (round_for made standing view) standing)) }
    {
        self.make_bare_round(view)?;
        self.lead(view);
        Ok(())
    }
}
