//! The node's own votes.
#![tactic(auto, unfolding(crate::specs::Opened::votes))]

ghost use Rattle.std.specs.Prelude.{◌≡◌, List};
ghost use Rattle.model_rules.specs.Known.{Made, Fact};
ghost use Rattle.model_rules.specs.Slot.{is_own_slot};
ghost use Rattle.model_rules.specs.Votes.{is_vouched, is_unopposed, is_checked, is_votable, notarizes, is_gated, finalizes};
ghost use Rattle.model_rules.specs.Votes.{notarize_at, finalize_at, nullify_at};
ghost use Rattle.simplex_known.specs.Knows.{Knows, Answers, names_only};

use crate::known::Known;
use crate::proposals::holds_proposal;
use simplex_values::{Proposal, Round, View};
use simplex_wire::{Finalize, Notarize, Nullify, Scheme};

impl Known {
    /// The vote for the proposal of the view, where the vote rule gives it and the node's scheme signs it.
    #[tactic(auto, unfolding(crate::specs::Opened::signing))]
    pub fn notarize_at<S: Scheme>(&self, scheme: &S, view: View) -> Option<Notarize>
        ensures { (made : Made) (known : List Fact) → Knows self.now made known
            → S.attests scheme.now ≡ made.signs → result ≡ notarize_at made known view }
    {
        let proposal = self.slot(view)?;
        if !self.notarizes(&proposal) {
            return None;
        }
        Notarize::sign(scheme, proposal)
    }

    /// The vote that the view's proposal is final, where the vote rule gives it and the node's scheme signs it.
    #[tactic(auto, unfolding(crate::specs::Opened::signing))]
    pub fn finalize_at<S: Scheme>(&self, scheme: &S, view: View) -> Option<Finalize>
        ensures { (made : Made) (known : List Fact) → Knows self.now made known
            → S.attests scheme.now ≡ made.signs → result ≡ finalize_at made known view }
    {
        if !self.finalizes(view) {
            return None;
        }
        let proposal = self.slot(view)?;
        Finalize::sign(scheme, proposal)
    }

    /// The vote that gives the view up, where the node's scheme signs it.
    #[tactic(auto, unfolding(crate::specs::Opened::signing))]
    pub fn nullify_at<S: Scheme>(&self, scheme: &S, view: View) -> Option<Nullify>
        ensures { (made : Made) (known : List Fact) → Knows self.now made known
            → S.attests scheme.now ≡ made.signs → result ≡ nullify_at made view }
    {
        let round = Round {
            epoch: self.rules.epoch,
            view,
        };
        Nullify::sign(scheme, round)
    }

    /// Whether a proposal that stands in the slot of its view gets the node's vote.
    pub fn notarizes(&self, proposal: &Proposal) -> bool
        ensures { Answers self.now (λ made known. notarizes made known proposal.now) result }
    {
        let view = proposal.view();
        self.is_votable(view)
            && self.is_checked(view)
            && self.has_ancestry(proposal.parent, view)
            && self.round(view).voted.is_none()
            && !self.has_nullified(view)
    }

    /// Whether the node votes for the finality of the view's slot.
    pub fn finalizes(&self, view: View) -> bool
        ensures { Answers self.now (λ made known. finalizes made known view) result }
    {
        self.has_true_verdict(view)
            && self.last_finalized < view
            && !self.round(view).voted_final
            && !self.is_gated(view)
    }

    /// Whether the node votes in the view now: the current one, one ahead of it, or its own first of the next term.
    fn is_votable(&self, view: View) -> bool
        ensures { Answers self.now (λ made known. is_votable made known view) result }
    {
        view == self.current
            || self.rules.lookahead.in_admission_window(self.current, view)
            || (view == self.current.next_term_start(self.rules.lookahead.length)
                && self.has_own_slot(view))
    }

    /// Whether the slot is the application's own answer.
    fn has_own_slot(&self, view: View) -> bool
        ensures { Answers self.now (λ made known. is_own_slot known view) result }
    {
        match self.slot(view) {
            None => false,
            Some(proposal) => holds_proposal(&self.answered, &proposal),
        }
    }

    /// Whether the slot's proposal is checked.
    fn is_checked(&self, view: View) -> bool
        ensures { Answers self.now (λ made known. is_checked known view) result }
    {
        match self.slot(view) {
            None => false,
            Some(proposal) => self.is_vouched(&proposal) && self.is_unopposed(&proposal),
        }
    }

    /// Whether the node vouches for the proposal: it voted for it, made it, or the application verified it.
    fn is_vouched(&self, proposal: &Proposal) -> bool
        ensures { Answers self.now (λ made known. is_vouched known proposal.now) result }
    {
        let round = self.round(proposal.view());
        (round.voted.is_some() && names_only(&round.voted, proposal))
            || holds_proposal(&self.answered, proposal)
            || holds_proposal(&self.approved, proposal)
    }

    /// Whether no known certificate of its view names another proposal.
    fn is_unopposed(&self, proposal: &Proposal) -> bool
        ensures { Answers self.now (λ made known. is_unopposed known proposal.now) result }
    {
        let round = self.round(proposal.view());
        names_only(&round.notarized, proposal) && names_only(&round.finalized, proposal)
    }

    /// Whether the node gave up a view that finality of this one would have to skip.
    #[tactic(auto)]
    fn is_gated(&self, view: View) -> bool
        ensures { Answers self.now (λ made known. is_gated made known view) result }
    {
        match self.given_up.last_up_to(view.0) {
            None => false,
            Some(last) => {
                let last = View(last);
                self.last_finalized < last && last.covers(view, self.rules.lookahead.length)
            }
        }
    }
}

/// Whether it is no other proposal than this one.
fn names_only(slot: &Option<Proposal>, proposal: &Proposal) -> bool
    ensures { result ≡ names_only slot.now proposal.now }
{
    match slot {
        None => true,
        Some(own) => own.is_same(proposal),
    }
}
