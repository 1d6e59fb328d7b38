//! The proposal that a node takes for a view's.
#![tactic(auto, unfolding(crate::specs::Opened::slots))]

ghost use Rattle.std.specs.Prelude.{◌≡◌, ℕ};
ghost use Rattle.model_rules.specs.Slot.{slot_of, records_proposal, records_answer};
ghost use Rattle.simplex_known.specs.Rounds.{round_of};
ghost use Rattle.simplex_known.specs.Knows.{Answers};

use crate::known::Known;
use crate::rounds::{RoundRecord, round_at};
use simplex_values::{Proposal, View};

impl Known {
    /// The view's proposal: the notarized one, else the finalized one, else that of the own vote, else the first
    /// that was taken or answered.
    pub fn slot(&self, view: View) -> Option<Proposal>
        ensures { Answers self.now (λ made known. slot_of known view) result }
    {
        self.round(view).slot()
    }

    /// Whether a proposal from the batcher is recorded.
    pub fn records_proposal(&self, proposal: &Proposal) -> bool
        ensures { Answers self.now (λ made known. records_proposal made known proposal.now) result }
    {
        let view = proposal.view();
        self.admits_vote(view) && view > self.last_finalized && self.slot(view).is_none()
    }

    /// Whether the application's answer for a view is recorded.
    pub fn records_answer(&self, view: View) -> bool
        ensures { Answers self.now (λ made known. records_answer made known view) result }
    {
        view >= self.current && self.slot(view).is_none() && !self.has_nullified(view)
    }

    /// What is known of the view.
    pub(crate) fn round(&self, view: View) -> RoundRecord
        ensures { Answers self.now (λ made known. round_of known view) result }
    {
        round_at(&self.rounds, view.0)
    }
}
