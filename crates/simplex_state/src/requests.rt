//! What the application is asked to propose.
#![tactic(auto, unfolding(crate::specs::Opened::slots, model_rules::specs::Views::least_active))]

ghost use Rattle.std.specs.Prelude.{◌≡◌, ◌≤◌, ◌<◌, ◌∷◌, true, not, ◌&&◌, List, find, OnOk, IfOk};
ghost use Rattle.std.specs.Option.{is_none};
ghost use Rattle.model_rules.specs.Known.{Made, Fact, ProposalAsked, has_nullified};
ghost use Rattle.model_rules.specs.Slot.{slot_of};
ghost use Rattle.model_rules.specs.Views.{admits_certificate};
ghost use Rattle.model_rules.specs.Ancestry.{payload_at};
ghost use Rattle.model_rules.specs.Best.{forwardable_at};
ghost use Rattle.model_rules.specs.Requests.{was_proposal_asked, may_propose, admitted_views, proposal_view, context_at, needs_handoff, proposal_request};
ghost use Rattle.model_rules.specs.Calls.{Call, TryPropose, ReleaseProposalRequest, known_of};
ghost use Rattle.simplex_state.specs.Progress.{progress_of};
ghost use Rattle.simplex_state.specs.Stands.{StandsFor, Takes, Answers, Keeps};

use crate::rounds::{first_round, free_proposal, put_round, round_at};
use crate::state::State;
use model_rules::ProposalRequest;
use simplex_types::elector::Elector;
use simplex_values::{Context, Digest, Parent, Proposal, Round, View};
use simplex_wire::Scheme;
use std::alloc::AllocError;

impl<S: Scheme + Drop, L: Elector + Drop> State<S, L> {
    /// What to ask the application to propose, where no proposal is pending.
    pub fn try_propose(&mut self) -> Result<Option<ProposalRequest>, AllocError>
        ensures stands { OnOk result (Takes self.old self.new TryPropose) }
        ensures answer { IfOk result (Answers self.old
            (λ made known. proposal_request made known)) }
    {
        let Some(request) = self.proposal_request() else {
            return Ok(None);
        };
        let view = request.context().round.view;
        self.ask_proposal(view)?;
        Ok(Some(request))
    }

    /// Lets the application be asked for a proposal of the view again.
    pub fn release_proposal_request(&mut self, view: View)
        ensures stands { Takes self.old self.new (ReleaseProposalRequest view) }
    {
        free_proposal(&mut self.rounds, view.0);
    }

    /// The proposal of the view, where it was notarized and the member checked it.
    #[tactic(auto, using(crate::proofs::Checking::forwardable_is), unfolding(crate::specs::Opened::progress, model_rules::specs::Views::least_active, model_rules::specs::Views::admits_certificate))]
    pub fn forwardable_proposal(&self, view: View) -> Option<Proposal>
        requires active { Answers self.now (λ made known. admits_certificate made known view) true }
        ensures answer { Answers self.now (λ made known. forwardable_at known view) result }
    {
        let round = round_at(&self.rounds, view.0);
        if round.notarized.is_some() && round.is_checked() {
            return round.slot();
        }
        None
    }

    /// What to ask the application to propose. [no-handoff-no-candidate]
    #[tactic(auto, using(crate::proofs::Walking::parent_above), unfolding(crate::specs::Opened::requested))]
    fn proposal_request(&self) -> Option<ProposalRequest>
        ensures { Answers self.now (λ made known. proposal_request made known) result }
    {
        let view = self.proposal_view()?;
        let parent = self.greatest_parent(view)?;
        let context = self.context(parent, view);
        if !self.needs_handoff(parent, view) {
            return Some(ProposalRequest::Propose(context));
        }
        if self.settings.handoff {
            return Some(ProposalRequest::Prepare(context));
        }
        None
    }

    /// The first admitted view, or with handoffs the next term's first, in which the member may propose.
    #[tactic(auto, unfolding(crate::specs::Stands::StandsFor, crate::specs::Progress::progress_of, model_rules::specs::Views::least_active, model_rules::specs::Requests::proposal_view))]
    fn proposal_view(&self) -> Option<View>
        ensures { Answers self.now (λ made known. proposal_view made known) result }
    {
        if let Some(view) = self.first_admitted() {
            return Some(view);
        }
        let next = self
            .progress
            .current
            .next_term_start(self.settings.terms.length);
        if self.settings.handoff && self.may_propose(next) {
            return Some(next);
        }
        None
    }

    /// The first admitted view in which the member may propose. Ahead of the current view only a view whose
    /// parent has the member's vote can be it, so the walk goes over the views of which something is known.
    /// [own-parent-ahead]
    #[tactic(auto, unfolding(crate::specs::Stands::StandsFor, crate::specs::Progress::progress_of, model_rules::specs::Views::least_active, model_rules::specs::Requests::admitted_views))]
    fn first_admitted(&self) -> Option<View>
        ensures { Answers self.now
            (λ made known. find (may_propose made known) (admitted_views made known)) result }
    {
        let limit = self.lookahead().admission_limit(self.progress.current);
        let mut view = self.progress.current;
        if self.may_propose(view) {
            return Some(view);
        }
        while let Some(parent) = first_round(&self.rounds, view, limit) {
            if parent == limit {
                return None;
            }
            view = parent.next();
            if self.is_met(parent, view) && self.may_propose(view) {
                return Some(view);
            }
        }
        None
    }

    /// Whether the member may propose in the view: it leads it, and nothing is proposed, given up or asked for yet.
    #[tactic(auto, using(crate::proofs::Walking::parent_some), unfolding(crate::specs::Opened::proposing))]
    fn may_propose(&self, view: View) -> bool
        ensures { Answers self.now (λ made known. may_propose made known view) result }
    {
        self.settings.me == Some(self.leader_index(view))
            && self.greatest_parent(view).is_some()
            && self.is_free(view)
    }

    /// Whether nothing is proposed in the view, given up or asked for yet.
    #[tactic(auto, unfolding(crate::specs::Stands::StandsFor, crate::specs::Rounds::round_of, crate::specs::Rounds::slot_in, model_rules::specs::Slot::slot_of))]
    fn is_free(&self, view: View) -> bool
        ensures { (made : Made) (known : List Fact) → Keeps self.now made known
            → (progress_of made known).pruned ≤ view → result ≡ (is_none (slot_of known view)
            && not (has_nullified known view) && not (was_proposal_asked known view)) }
    {
        let round = round_at(&self.rounds, view.0);
        round.slot().is_none() && !self.has_given_up(view) && !round.proposal_asked
    }

    /// Whether a term begins on a parent that is not certified.
    #[tactic(auto, unfolding(crate::specs::Stands::StandsFor, model_rules::specs::Requests::needs_handoff))]
    fn needs_handoff(&self, parent: View, view: View) -> bool
        ensures { Answers self.now (λ made known. needs_handoff made known parent view) result }
    {
        view == view.term_start(self.settings.terms.length) && !self.is_certified(parent)
    }

    /// A proposal of the view on the parent.
    #[tactic(auto, unfolding(crate::specs::Stands::StandsFor, model_rules::specs::Requests::context_at, model_rules::specs::Requests::leader_of))]
    pub(crate) fn context(&self, parent: View, view: View) -> Context
        ensures { (made : Made) (calls : List Call) → StandsFor self.now made calls
            → (progress_of made (known_of made calls)).pruned ≤ parent
            → result ≡ context_at made (known_of made calls) parent view }
    {
        Context {
            round: Round {
                epoch: self.settings.epoch,
                view,
            },
            leader: self.leader_index(view),
            parent: Parent {
                view: parent,
                payload: self.payload(parent),
            },
        }
    }

    /// The payload of a parent: the floor's, else the finalized one, else the slot's, else that of genesis.
    #[tactic(auto, unfolding(crate::specs::Stands::StandsFor, crate::specs::Rounds::round_of, crate::specs::Rounds::slot_in, model_rules::specs::Slot::slot_of, model_rules::specs::Ancestry::payload_at))]
    pub(crate) fn payload(&self, view: View) -> Digest
        ensures { (made : Made) (known : List Fact) → Keeps self.now made known
            → (progress_of made known).pruned ≤ view → result ≡ payload_at made known view }
    {
        let round = round_at(&self.rounds, view.0);
        if let Some(payload) = round.floor {
            return payload;
        }
        if let Some(proposal) = round.finalized {
            return proposal.payload;
        }
        match round.slot() {
            Some(proposal) => proposal.payload,
            None => self.settings.genesis,
        }
    }

    /// The application is asked for a proposal of the view.
    fn ask_proposal(&mut self, view: View) -> Result<(), AllocError>
        ensures { OnOk result ((made : Made) (known : List Fact) → Keeps self.old made known
            → Keeps self.new made (ProposalAsked view ∷ known)) }
    {
        let mut round = round_at(&self.rounds, view.0);
        round.proposal_asked = true;
        put_round(&mut self.rounds, view.0, round)
    }
}
