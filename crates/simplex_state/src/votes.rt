//! The member's own votes.
#![tactic(auto, unfolding(crate::specs::Opened::votes))]

ghost use Rattle.std.specs.Prelude.{◌≡◌, ◌≤◌, ◌∷◌, true, List, OnOk, IfOk};
ghost use Rattle.simplex_wire.specs.declared.vote.Vote.TheVariants as votes;
ghost use Rattle.model_rules.specs.Known.{Made, Fact, Voted};
ghost use Rattle.model_rules.specs.Votes.{notarize_at, is_votable, finalize_at, finalizes, is_gated};
ghost use Rattle.model_rules.specs.Calls.{ConstructNotarize, ConstructFinalize};
ghost use Rattle.simplex_state.specs.Progress.{progress_of};
ghost use Rattle.simplex_state.specs.Stands.{Takes, Answers, Keeps};

use crate::rounds::{put_round, round_at};
use crate::state::State;
use simplex_types::elector::Elector;
use simplex_values::View;
use simplex_values::maps::contains;
use simplex_wire::{Finalize, Notarize, Scheme};
use std::alloc::AllocError;

impl<S: Scheme + Drop, L: Elector + Drop> State<S, L> {
    /// Votes for the proposal of the view, where the vote rule gives it and the scheme signs it.
    pub fn construct_notarize(&mut self, view: View) -> Result<Option<Notarize>, AllocError>
        ensures stands { OnOk result (Takes self.old self.new (ConstructNotarize view)) }
        ensures answer { IfOk result (Answers self.old
            (λ made known. notarize_at made known view)) }
    {
        let Some(vote) = self.notarize_at(view) else {
            return Ok(None);
        };
        self.vote_notarize(view, &vote)?;
        Ok(Some(vote))
    }

    /// Votes that the proposal of the view is final, where the vote rule gives it and the scheme signs it.
    pub fn construct_finalize(&mut self, view: View) -> Result<Option<Finalize>, AllocError>
        ensures stands { OnOk result (Takes self.old self.new (ConstructFinalize view)) }
        ensures answer { IfOk result (Answers self.old
            (λ made known. finalize_at made known view)) }
    {
        let Some(vote) = self.finalize_at(view) else {
            return Ok(None);
        };
        self.vote_final(view, &vote)?;
        Ok(Some(vote))
    }

    /// The member's vote for the view's proposal.
    #[tactic(auto, using(crate::proofs::Checking::signed, crate::proofs::Checking::slotless, crate::proofs::Checking::early, crate::proofs::Proposing::slot_is), unfolding(crate::specs::Opened::signing))]
    fn notarize_at(&self, view: View) -> Option<Notarize>
        ensures { Answers self.now (λ made known. notarize_at made known view) result }
    {
        if !self.is_votable(view) {
            return None;
        }
        let round = round_at(&self.rounds, view.0);
        let Some(proposal) = round.slot() else {
            return None;
        };
        let ready = round.is_checked()
            && round.voted.is_none()
            && !self.has_given_up(view)
            && self.has_ancestry(proposal.parent, view);
        if !ready {
            return None;
        }
        Notarize::sign(&self.scheme, proposal)
    }

    /// Whether the member votes in the view now: the current one, one ahead of it, or its own first of the next term.
    #[tactic(auto, using(crate::proofs::Checking::unvotable, crate::proofs::Checking::own_slot_is), unfolding(crate::specs::Opened::votable))]
    fn is_votable(&self, view: View) -> bool
        ensures above { (made : Made) (known : List Fact) → Keeps self.now made known
            → result ≡ true → (progress_of made known).pruned ≤ view }
        ensures answer { Answers self.now (λ made known. is_votable made known view) result }
    {
        let current = self.progress.current;
        if view < current {
            return false;
        }
        view == current
            || self.lookahead().in_admission_window(current, view)
            || (view == current.next_term_start(self.settings.terms.length)
                && round_at(&self.rounds, view.0).has_own_slot())
    }

    /// Takes an own vote for a proposal.
    pub(crate) fn vote_notarize(&mut self, view: View, vote: &Notarize) -> Result<(), AllocError>
        ensures { OnOk result ((made : Made) (known : List Fact) → Keeps self.old made known
            → vote.now.proposal.round.view ≡ view
            → Keeps self.new made (Voted (votes.Notarize vote.now) ∷ known)) }
    {
        let mut round = round_at(&self.rounds, view.0);
        round.voted = round.voted.or(Some(vote.proposal));
        put_round(&mut self.rounds, view.0, round)
    }

    /// The member's vote that the view's proposal is final.
    #[tactic(auto, unfolding(crate::specs::Opened::votes, model_rules::specs::Votes::finalize_at, model_rules::specs::Votes::signed_finalize))]
    fn finalize_at(&self, view: View) -> Option<Finalize>
        ensures { Answers self.now (λ made known. finalize_at made known view) result }
    {
        if !self.finalizes(view) {
            return None;
        }
        let proposal = round_at(&self.rounds, view.0).slot()?;
        Finalize::sign(&self.scheme, proposal)
    }

    /// Whether the member votes for the finality of the view's slot.
    #[tactic(auto, unfolding(crate::specs::Opened::votes, model_rules::specs::Votes::finalizes))]
    fn finalizes(&self, view: View) -> bool
        ensures above { (made : Made) (known : List Fact) → Keeps self.now made known
            → result ≡ true → (progress_of made known).pruned ≤ view }
        ensures answer { Answers self.now (λ made known. finalizes made known view) result }
    {
        if view <= self.progress.last_finalized || !contains(&self.certified, view.0) {
            return false;
        }
        !round_at(&self.rounds, view.0).voted_final && !self.is_gated(view)
    }

    /// Whether the member gave up a view that finality of this one would have to skip.
    #[tactic(auto, unfolding(crate::specs::Stands::StandsFor, crate::specs::Progress::progress_of, model_rules::specs::Votes::is_gated))]
    fn is_gated(&self, view: View) -> bool
        ensures { Answers self.now (λ made known. is_gated made known view) result }
    {
        match self.last_given_up(view) {
            None => false,
            Some(last) => {
                self.progress.last_finalized < last && last.covers(view, self.settings.terms.length)
            }
        }
    }

    /// Takes an own vote for finality.
    pub(crate) fn vote_final(&mut self, view: View, vote: &Finalize) -> Result<(), AllocError>
        ensures { OnOk result ((made : Made) (known : List Fact) → Keeps self.old made known
            → vote.now.proposal.round.view ≡ view
            → Keeps self.new made (Voted (votes.Finalize vote.now) ∷ known)) }
    {
        let mut round = round_at(&self.rounds, view.0);
        round.voted_final = true;
        put_round(&mut self.rounds, view.0, round)
    }
}
