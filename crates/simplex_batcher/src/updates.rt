//! Updates from the voter.
ghost use Rattle.std.specs.Prelude.{IfOk, OnOk};
ghost use Rattle.model_steps.specs.Batcher.{took_update, with_leader, window_views};
ghost use Rattle.simplex_batcher.specs.Working.{entered, with_leads, with_window};
ghost use Rattle.simplex_batcher.specs.Stands.{Marks, Moves, Reads};

use crate::actor::Actor;
use crate::marks::Marked;
use crate::others;
use simplex_messages::StepOut;
use simplex_types::{Participant, Proposal, Scheme, View};
use std::alloc::AllocError;

impl<S: Scheme + Drop> Actor<S> {
    /// The voter is in a view now.
    fn enter(
        &mut self,
        current: View,
        leader: Participant,
        finalized: View,
    ) -> Result<(), AllocError>
        ensures { OnOk result (Moves self.old self.new (λ made. entered current leader finalized)) }
    {
        self.rounds.enter(current)?;
        self.leader = Some(leader);
        self.finalized = finalized;
        self.hinted = false;
        Ok(())
    }

    /// The views of the admission window that have a round, in rising order.
    fn window_views(&self) -> Result<Vec<u64>, AllocError>
        ensures { IfOk result (λ views. Reads self.now
            (λ made standing. window_views made standing) views.items) }
    {
        let current = self.rounds.current;
        let limit = self.config.lookahead.admission_limit(current);
        if limit <= current {
            return Ok(Vec::new(self.alloc));
        }
        let first = current.0 + 1;
        let views = others::views_between(self.alloc, &self.rounds.others, first, limit.0)?;
        Ok(views)
    }

    /// The rounds of these views are given the leader. [round-keeps-its-leader]
    fn lead_each(&mut self, views: &[u64])
        ensures { Moves self.old self.new (λ made. with_leads made views.now) }
    {
        for view in views {
            self.lead(View(*view));
        }
    }

    /// The rounds of the admission window are given the leader. Which views these are.
    fn lead_window(&mut self) -> Result<Vec<u64>, AllocError>
        ensures stands { OnOk result (Moves self.old self.new (λ made. with_window made)) }
        ensures views { IfOk result (λ views. Reads self.old
            (λ made standing. window_views made standing) views.items) }
    {
        let views = self.window_views()?;
        self.lead_each(&views);
        Ok(views)
    }

    /// The current view has a round, and it and those of the admission window have the leader. Which views the
    /// latter are.
    fn lead_current(&mut self) -> Result<Vec<u64>, AllocError>
        ensures stands { OnOk result (Moves self.old self.new (λ made. with_leader made)) }
        ensures views { IfOk result (λ views. Reads self.old
            (λ made standing. window_views made (with_leader made standing)) views.items) }
    {
        self.make_round(self.rounds.current)?;
        let views = self.lead_window()?;
        Ok(views)
    }

    /// The voter is in a view now.
    #[tactic(auto, unfolding(model_steps::specs::Batcher::took_update))]
    pub(crate) fn take_update(
        &mut self,
        current: View,
        leader: Participant,
        finalized: View,
        proposal: &Option<Proposal>,
        now: u64,
        dirty: &mut Marked,
        work: &mut StepOut,
    ) -> Result<(), AllocError>
        ensures { OnOk result (Marks self.old work.old dirty.old self.new work.new dirty.new
            (λ made. took_update made current leader finalized proposal.now now)) }
    {
        self.enter(current, leader, finalized)?;
        let window = self.lead_current()?;
        *dirty = Marked::of(self.alloc, current, &window)?;
        self.hint_at_update(leader, now, work)?;
        self.forward(leader, proposal, work)?;
        Ok(())
    }
}
