//! Which notarizations the application is asked to certify.
#![tactic(auto, unfolding(crate::specs::Opened::uncertified))]

ghost use Rattle.std.specs.Prelude.{◌≡◌, ◌≤◌, ◌∷◌, ◌++◌, ◌&&◌, ℕ, nat_lt, true, List, map, option_to_list, OnOk, IfOk};
ghost use Rattle.std.specs.Option.{is_some};
ghost use Rattle.model_rules.specs.declared.request.CertificateFetch.{CertificateFetch};
ghost use Rattle.model_rules.specs.Known.{Made, Fact, CertifyAsked, ParentAsked, view_of};
ghost use Rattle.model_rules.specs.Requests.{certify_requests, parent_fetches};
ghost use Rattle.model_rules.specs.Calls.{CertifyCandidates};
ghost use Rattle.simplex_values.specs.Maps.{has};
ghost use Rattle.simplex_state.specs.Rounds.{round_in, is_open};
ghost use Rattle.simplex_state.specs.Certifying.{certify_at, fetch_at, open_at, is_lacking};
ghost use Rattle.simplex_state.specs.Progress.{progress_of};
ghost use Rattle.simplex_state.specs.Stands.{Takes, Stays, Answers, Keeps};

use crate::rounds::{RoundRecord, put_round, round_at};
use crate::state::State;
use model_rules::CertificateFetch;
use simplex_types::elector::Elector;
use simplex_values::{Proposal, View};
use simplex_wire::Scheme;
use std::alloc::AllocError;
use std::collections::{BTreeMap, BTreeSet};

impl<S: Scheme + Drop, L: Elector + Drop> State<S, L> {
    /// The notarized proposals to certify, whose parents are certified, and the parents whose notarizations
    /// have to be asked for, both in rising order of view. From now on they count as asked for.
    pub fn certify_candidates(
        &mut self,
    ) -> Result<(Vec<Proposal>, Vec<CertificateFetch>), AllocError>
        ensures stands { OnOk result (Takes self.old self.new CertifyCandidates) }
        ensures proposals { IfOk result (λ found. Answers self.old
            (λ made known. certify_requests known) found.0.items) }
        ensures fetches { IfOk result (λ found. Answers self.old
            (λ made known. parent_fetches known) found.1.items) }
    {
        self.drop_settled();
        let (proposals, fetches) = self.candidates()?;
        self.ask_certify(&proposals)?;
        self.ask_parents(&fetches)?;
        Ok((proposals, fetches))
    }

    /// Lets go of the views that wait no more.
    fn drop_settled(&mut self)
        ensures { Stays self.old self.new }
    {
        keep_open(
            &mut self.waiting,
            &self.rounds,
            self.progress.last_finalized,
        );
    }

    /// What is to be asked for the views that wait, in their order.
    fn candidates(&self) -> Result<(Vec<Proposal>, Vec<CertificateFetch>), AllocError>
        ensures proposals { IfOk result (λ found. Answers self.now
            (λ made known. certify_requests known) found.0.items) }
        ensures fetches { IfOk result (λ found. Answers self.now
            (λ made known. parent_fetches known) found.1.items) }
    {
        let mut proposals = Vec::new(self.alloc);
        let mut fetches = Vec::new(self.alloc);
        for view in &self.waiting {
            self.note_proposal(View(*view), &mut proposals)?;
            self.note_parent(View(*view), &mut fetches)?;
        }
        Ok((proposals, fetches))
    }

    /// Notes the proposal of the view, where it can be certified now.
    fn note_proposal(&self, view: View, proposals: &mut Vec<Proposal>) -> Result<(), AllocError>
        ensures { OnOk result (Answers self.now (λ made known. proposals.old.items
            ++ option_to_list (certify_at known view)) proposals.new.items) }
    {
        if let Some(proposal) = self.proposal_to_certify(view) {
            proposals.push(proposal)?;
        }
        Ok(())
    }

    /// Notes the parent of the view's proposal, where its notarization has to be asked for.
    fn note_parent(&self, view: View, fetches: &mut Vec<CertificateFetch>) -> Result<(), AllocError>
        ensures { OnOk result (Answers self.now
            (λ made known. fetches.old.items
            ++ option_to_list (fetch_at known view)) fetches.new.items) }
    {
        if let Some(fetch) = self.parent_to_fetch(view) {
            fetches.push(fetch)?;
        }
        Ok(())
    }

    /// The proposal of the view, where it can be certified now.
    fn proposal_to_certify(&self, view: View) -> Option<Proposal>
        ensures { Answers self.now (λ made known. certify_at known view) result }
    {
        let proposal = self.open_proposal(view)?;
        if !self.is_certified(proposal.parent) {
            return None;
        }
        Some(proposal)
    }

    /// The parent of the view's proposal, where its notarization has to be asked for.
    fn parent_to_fetch(&self, view: View) -> Option<CertificateFetch>
        ensures { Answers self.now (λ made known. fetch_at known view) result }
    {
        let parent = self.open_proposal(view)?.parent;
        if round_at(&self.rounds, view.0).parent_asked {
            return None;
        }
        if !self.is_lacking(parent) {
            return None;
        }
        Some(CertificateFetch {
            proposal: view,
            view: parent,
        })
    }

    /// The notarized proposal of the view, where its verdict has still to be asked for.
    fn open_proposal(&self, view: View) -> Option<Proposal>
        ensures answer { Answers self.now (λ made known. open_at known view) result }
        ensures above { (made : Made) (known : List Fact) → Keeps self.now made known
            → is_some result ≡ true → (progress_of made known).pruned ≤ view }
    {
        if view <= self.progress.last_finalized {
            return None;
        }
        let round = round_at(&self.rounds, view.0);
        if !round.is_open() {
            return None;
        }
        round.notarized
    }

    /// Whether the parent is later than the last final view, and nothing is known of it.
    fn is_lacking(&self, parent: View) -> bool
        ensures { Answers self.now (λ made known. is_lacking known parent) result }
    {
        if parent <= self.progress.last_finalized {
            return false;
        }
        let round = round_at(&self.rounds, parent.0);
        round.verdict.is_none() && round.notarized.is_none()
    }

    /// The application is asked to certify the proposals. The last one is noted first: what is known is a
    /// list with the newest first.
    fn ask_certify(&mut self, proposals: &[Proposal]) -> Result<(), AllocError>
        ensures { OnOk result ((made : Made) (known : List Fact) → Keeps self.old made known
            → Keeps self.new made (map (λ p. CertifyAsked (view_of p)) proposals.now ++ known)) }
    {
        let mut left = proposals.len();
        while left > 0 {
            left -= 1;
            self.mark_certify(proposals[left].view())?;
        }
        Ok(())
    }

    /// The parents' notarizations are asked for, the last one noted first as well.
    fn ask_parents(&mut self, fetches: &[CertificateFetch]) -> Result<(), AllocError>
        ensures { OnOk result ((made : Made) (known : List Fact) → Keeps self.old made known
            → Keeps self.new made
            (map (λ (f : CertificateFetch). ParentAsked f.proposal) fetches.now ++ known)) }
    {
        let mut left = fetches.len();
        while left > 0 {
            left -= 1;
            self.mark_parent(fetches[left].proposal)?;
        }
        Ok(())
    }

    /// The application is asked to certify the view.
    fn mark_certify(&mut self, view: View) -> Result<(), AllocError>
        ensures { OnOk result ((made : Made) (known : List Fact) → Keeps self.old made known
            → Keeps self.new made (CertifyAsked view ∷ known)) }
    {
        let mut round = round_at(&self.rounds, view.0);
        round.certify_asked = true;
        put_round(&mut self.rounds, view.0, round)
    }

    /// The notarization of the parent of the view's proposal is asked for.
    fn mark_parent(&mut self, view: View) -> Result<(), AllocError>
        ensures { OnOk result ((made : Made) (known : List Fact) → Keeps self.old made known
            → Keeps self.new made (ParentAsked view ∷ known)) }
    {
        let mut round = round_at(&self.rounds, view.0);
        round.parent_asked = true;
        put_round(&mut self.rounds, view.0, round)
    }
}

/// Keeps of the views those that are later than the last final one and wait for their verdict to be asked for.
fn keep_open(views: &mut BTreeSet<u64>, rounds: &BTreeMap<u64, RoundRecord>, last: View)
    ensures { (q : ℕ) → has views.new q
        ≡ (has views.old q && (nat_lt last q && is_open (round_in rounds.now q))) }
{
    views.retain(|view| last.0 < *view && round_at(rounds, *view).is_open());
}
