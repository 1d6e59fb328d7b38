//! Proposals that the batcher or the application gives.
#![tactic(auto, unfolding(crate::specs::Opened::proposals))]

ghost use Rattle.std.specs.Prelude.{◌≡◌, ◌≤◌, ◌∷◌, true, List, OnOk, IfOk};
ghost use Rattle.std.specs.Option.{is_none};
ghost use Rattle.model_rules.specs.Known.{Made, Fact, Taken, view_of};
ghost use Rattle.model_rules.specs.Slot.{records_proposal, records_answer};
ghost use Rattle.model_rules.specs.Calls.{SetProposal, Proposed, Verified};
ghost use Rattle.simplex_state.specs.Rounds.{round_of, slot_in};
ghost use Rattle.simplex_state.specs.Progress.{progress_of};
ghost use Rattle.simplex_state.specs.Stands.{Takes, Answers, Keeps};

use crate::rounds::{put_round, round_at};
use crate::state::State;
use simplex_types::elector::Elector;
use simplex_values::{Context, Digest, Proposal, View};
use simplex_wire::Scheme;
use std::alloc::AllocError;

impl<S: Scheme + Drop, L: Elector + Drop> State<S, L> {
    /// Records a proposal from the batcher for its view, where one is still of use and none stands there.
    pub fn set_proposal(&mut self, view: View, proposal: &Proposal) -> Result<bool, AllocError>
        ensures stands { OnOk result (Takes self.old self.new (SetProposal view proposal.now)) }
        ensures answer { IfOk result (Answers self.old
            (λ made known. records_proposal made known proposal.now)) }
    {
        if !self.records_proposal(proposal) {
            return Ok(false);
        }
        self.take(proposal)?;
        Ok(true)
    }

    /// Records the application's own proposal, where its view is not past, has no proposal and was not given up.
    pub fn proposed(&mut self, context: &Context, payload: Digest) -> Result<bool, AllocError>
        ensures stands { OnOk result (Takes self.old self.new (Proposed context.now payload)) }
        ensures answer { IfOk result (Answers self.old
            (λ made known. records_answer made known context.now.round.view)) }
    {
        if !self.records_answer(context.round.view) {
            return Ok(false);
        }
        let view = context.round.view.0;
        let mut round = round_at(&self.rounds, view);
        round.proposed = Some(Proposal {
            round: context.round,
            parent: context.parent.view,
            payload,
        });
        round.answered = true;
        put_round(&mut self.rounds, view, round)?;
        Ok(true)
    }

    /// Takes it that the application verified the proposal that it was asked to verify. [checked-as-asked]
    pub fn verified(&mut self, view: View) -> Result<(), AllocError>
        ensures { OnOk result (Takes self.old self.new (Verified view)) }
    {
        let mut round = round_at(&self.rounds, view.0);
        if round.asked.is_none() {
            return Ok(());
        }
        round.approved = true;
        put_round(&mut self.rounds, view.0, round)
    }

    /// Takes a proposal for its view's.
    #[tactic(auto)]
    fn take(&mut self, proposal: &Proposal) -> Result<(), AllocError>
        ensures { OnOk result ((made : Made) (known : List Fact)
            → Keeps self.old made known → (progress_of made known).pruned ≤ view_of proposal.now
            → is_none (slot_in (round_of known (view_of proposal.now))) ≡ true
            → Keeps self.new made (Taken proposal.now ∷ known)) }
    {
        let view = proposal.view().0;
        let mut round = round_at(&self.rounds, view);
        round.proposed = Some(*proposal);
        put_round(&mut self.rounds, view, round)
    }

    /// Whether a proposal from the batcher is recorded.
    fn records_proposal(&self, proposal: &Proposal) -> bool
        ensures { Answers self.now (λ made known. records_proposal made known proposal.now) result }
    {
        let view = proposal.view();
        self.admits_vote(view)
            && view > self.progress.last_finalized
            && round_at(&self.rounds, view.0).slot().is_none()
    }

    /// Whether the application's proposal for the view is recorded.
    #[tactic(auto, unfolding(crate::specs::Opened::slots, model_rules::specs::Slot::records_answer))]
    fn records_answer(&self, view: View) -> bool
        ensures { Answers self.now (λ made known. records_answer made known view) result }
    {
        view >= self.progress.current
            && round_at(&self.rounds, view.0).slot().is_none()
            && !self.has_given_up(view)
    }
}
