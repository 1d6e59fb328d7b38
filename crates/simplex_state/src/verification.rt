//! What the application is asked to verify, and what is missing for it.
#![tactic(auto, unfolding(crate::specs::Opened::slots, model_rules::specs::Views::least_active))]

ghost use Rattle.std.specs.Prelude.{◌≡◌, ◌≤◌, ◌+◌, ◌-◌, ◌&&◌, ◌++◌, ◌∷◌, true, not, List, None, find, unwrap_or, IfSome, OnOk, IfOk};
ghost use Rattle.std.specs.Option.{is_none, option_map, option_and_then};
ghost use Rattle.std.specs.List.{range_with_len};
ghost use Rattle.simplex_values.specs.declared.ask.Kind as kinds;
ghost use Rattle.model_rules.specs.declared.request.Verify.TheVariants as requests;
ghost use Rattle.model_rules.specs.Known.{Made, Fact, VerifyAsked, MissingAsked, view_of, notarization_of};
ghost use Rattle.model_rules.specs.Slot.{slot_of};
ghost use Rattle.model_rules.specs.Ancestry.{is_certified, is_met};
ghost use Rattle.model_rules.specs.Requests.{wants_verify, is_founded, verify_of, verify_asked, missing_below, resolve_of, verify_request};
ghost use Rattle.model_rules.specs.Calls.{Call, TryVerify, known_of, verify_facts};
ghost use Rattle.simplex_state.specs.Progress.{progress_of};
ghost use Rattle.simplex_state.specs.Verifying.{is_unasked};
ghost use Rattle.simplex_state.specs.Stands.{StandsFor, Takes, Answers, Keeps};

use crate::rounds::{first_round, put_round, round_at};
use crate::state::State;
use model_rules::Verify;
use simplex_types::elector::Elector;
use simplex_values::maps::contains;
use simplex_values::{Context, Kind, Parent, Proposal, View};
use simplex_wire::Scheme;
use std::alloc::AllocError;

impl<S: Scheme + Drop, L: Elector + Drop> State<S, L> {
    /// What to ask the application to verify, or else which missing certificate to ask for, where no
    /// verification is pending.
    pub fn try_verify(&mut self) -> Result<Verify, AllocError>
        ensures stands { OnOk result (Takes self.old self.new TryVerify) }
        ensures answer { IfOk result (Answers self.old (λ made known. verify_request made known)) }
    {
        let request = self.verify_request();
        self.note_verify(&request)?;
        Ok(request)
    }

    /// What to ask the application to verify, or else which missing certificate to ask for.
    fn verify_request(&self) -> Verify
        ensures answer { Answers self.now (λ made known. verify_request made known) result }
        ensures fresh { (made : Made) (calls : List Call) → StandsFor self.now made calls
            → is_unasked (known_of made calls) result ≡ true }
    {
        let limit = self.lookahead().admission_limit(self.progress.current);
        let Some(first) = self.next_wanting(self.progress.current, limit) else {
            return Verify::Wait;
        };
        match self.first_ready(first, limit) {
            Some(view) => self.ready_verify(view),
            None => self.missing_verify(first),
        }
    }

    /// The least view from one to another whose slot waits to be verified.
    fn next_wanting(&self, first: View, limit: View) -> Option<View>
        ensures bounds { IfSome result (λ view. (first ≤ view) × (view ≤ limit)) }
        ensures least { (made : Made) (known : List Fact) → Keeps self.now made known
            → (progress_of made known).pruned ≤ first
            → result ≡ find (wants_verify known) (range_with_len first (limit + 1 - first)) }
    {
        let mut from = first;
        while let Some(view) = first_round(&self.rounds, from, limit) {
            if self.wants_verify(view) {
                return Some(view);
            }
            if view == limit {
                return None;
            }
            from = view.next();
        }
        None
    }

    /// The least such view whose slot may stand on its parent.
    fn first_ready(&self, first: View, limit: View) -> Option<View>
        ensures { (made : Made) (calls : List Call) → StandsFor self.now made calls
            → (progress_of made
            (known_of made calls)).pruned ≤ first
            → result ≡ find (λ view. wants_verify (known_of made calls) view
            && is_founded made (known_of made calls) view) (range_with_len first
            (limit + 1 - first)) }
    {
        let mut from = first;
        while let Some(view) = self.next_wanting(from, limit) {
            if self.is_founded(view) {
                return Some(view);
            }
            if view == limit {
                return None;
            }
            from = view.next();
        }
        None
    }

    /// Whether the view's slot waits to be verified: another's, in a view without own vote or certificate.
    #[tactic(auto, using(crate::proofs::Wanting::wants_by), unfolding(crate::specs::Stands::StandsFor))]
    fn wants_verify(&self, view: View) -> bool
        ensures { (made : Made) (known : List Fact) → Keeps self.now made known
            → (progress_of made known).pruned ≤ view → result ≡ wants_verify known view }
    {
        round_at(&self.rounds, view.0).wants_verify() && !self.has_given_up(view)
    }

    /// Whether the view's slot may stand on its parent.
    #[tactic(auto, unfolding(crate::specs::Stands::StandsFor, crate::specs::Rounds::round_of, crate::specs::Rounds::slot_in, model_rules::specs::Slot::slot_of, model_rules::specs::Requests::is_founded))]
    fn is_founded(&self, view: View) -> bool
        ensures { (made : Made) (calls : List Call) → StandsFor self.now made calls → (progress_of made
            (known_of made calls)).pruned ≤ view
            → result ≡ is_founded made (known_of made calls) view }
    {
        match round_at(&self.rounds, view.0).slot() {
            None => false,
            Some(proposal) => self.has_ancestry(proposal.parent, view),
        }
    }

    /// The slot of the view, to be verified.
    #[tactic(auto, using(crate::proofs::Wanting::founded_above), unfolding(crate::specs::Opened::slots, model_rules::specs::Views::least_active, model_rules::specs::Requests::verify_of))]
    fn ready_verify(&self, view: View) -> Verify
        ensures answer { (made : Made) (calls : List Call) → StandsFor self.now made calls
            → (progress_of made
            (known_of made calls)).pruned ≤ view → is_founded made (known_of made calls) view ≡ true
            → result ≡ unwrap_or (option_map (verify_of made (known_of made calls) view)
            (slot_of (known_of made calls) view)) requests.Wait }
        ensures fresh { (made : Made) (calls : List Call)
            → StandsFor self.now made calls → (progress_of made (known_of made calls)).pruned ≤ view
            → wants_verify (known_of made calls) view ≡ true
            → is_unasked (known_of made calls) result ≡ true }
    {
        let Some(proposal) = round_at(&self.rounds, view.0).slot() else {
            return Verify::Wait;
        };
        let context = Context {
            round: proposal.round,
            leader: self.leader_index(view),
            parent: Parent {
                view: proposal.parent,
                payload: self.payload(proposal.parent),
            },
        };
        Verify::Ready(context, proposal)
    }

    /// What is missing below the slot of the view, where it was not asked for.
    #[tactic(auto, unfolding(crate::specs::Stands::StandsFor, model_rules::specs::Requests::resolve_of))]
    fn missing_verify(&self, view: View) -> Verify
        ensures answer { (made : Made) (calls : List Call) → StandsFor self.now made calls
            → (progress_of made (known_of made calls)).pruned ≤ view
            → result ≡ unwrap_or
            (option_and_then (resolve_of made (known_of made calls) view)
            (option_and_then (missing_below made (known_of made calls) view)
            (slot_of (known_of made calls) view))) requests.Wait }
        ensures fresh { (known : List Fact) → is_unasked known result ≡ true }
    {
        let Some((gap, kind)) = self.missing_below(view) else {
            return Verify::Wait;
        };
        if self.missing.is_asked(view, gap, kind) {
            return Verify::Wait;
        }
        Verify::Resolve {
            proposal: view,
            view: gap,
            kind,
            target: self.leader_index(view),
        }
    }

    /// The least missing view below the slot of the view, and what is missing of it.
    #[tactic(auto, unfolding(crate::specs::Opened::slots, model_rules::specs::Views::least_active, model_rules::specs::Requests::missing_below))]
    fn missing_below(&self, view: View) -> Option<(View, Kind)>
        ensures { (made : Made) (calls : List Call)
            → StandsFor self.now made calls → (progress_of made (known_of made calls)).pruned ≤ view
            → result ≡ option_and_then (missing_below made (known_of made calls) view)
            (slot_of (known_of made calls) view) }
    {
        let parent = round_at(&self.rounds, view.0).slot()?.parent;
        if parent < self.progress.last_finalized || view <= parent {
            return None;
        }
        if self.lacks_notarization(parent, view) {
            return Some((parent, Kind::Notarization));
        }
        let gap = self.gap_between(parent, view)?;
        Some((gap, Kind::Nullification))
    }

    /// Whether nothing shows yet that a proposal of the view may stand on the parent.
    #[tactic(auto, unfolding(crate::specs::Stands::StandsFor, crate::specs::Rounds::round_of))]
    fn lacks_notarization(&self, parent: View, view: View) -> bool
        ensures { (made : Made) (calls : List Call) → StandsFor self.now made calls
            → (progress_of made
            (known_of made calls)).pruned ≤ parent
            → result ≡ (not (is_certified (known_of made calls) parent) && is_none (notarization_of
            (known_of made calls) parent) && not (is_met (known_of made calls) parent view)) }
    {
        !self.is_certified(parent)
            && round_at(&self.rounds, parent.0).notarized.is_none()
            && !self.is_met(parent, view)
    }

    /// The request is made.
    fn note_verify(&mut self, request: &Verify) -> Result<(), AllocError>
        ensures { OnOk result ((made : Made) (known : List Fact) → Keeps self.old made known
            → is_unasked known request.now ≡ true
            → Keeps self.new made (verify_facts request.now ++ known)) }
    {
        match *request {
            Verify::Ready(_, proposal) => self.ask_verify(&proposal),
            Verify::Resolve {
                proposal,
                view,
                kind,
                ..
            } => self.ask_missing(proposal, view, kind),
            Verify::Wait => Ok(()),
        }
    }

    /// The application is asked to verify the proposal.
    fn ask_verify(&mut self, proposal: &Proposal) -> Result<(), AllocError>
        ensures { OnOk result ((made : Made) (known : List Fact) → Keeps self.old made known
            → verify_asked known (view_of proposal.now) ≡ None
            → Keeps self.new made (VerifyAsked proposal.now ∷ known)) }
    {
        let view = proposal.view();
        let mut round = round_at(&self.rounds, view.0);
        round.asked = round.asked.or(Some(*proposal));
        put_round(&mut self.rounds, view.0, round)
    }

    /// For the proposal of the first view, the certificate of this kind of the second is asked for.
    fn ask_missing(&mut self, proposal: View, view: View, kind: Kind) -> Result<(), AllocError>
        ensures { OnOk result ((made : Made) (known : List Fact) → Keeps self.old made known
            → Keeps self.new made (MissingAsked proposal view kind ∷ known)) }
    {
        self.missing.ask(proposal, view, kind)
    }
}
