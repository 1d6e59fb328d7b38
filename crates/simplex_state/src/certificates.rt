//! Certificates that are added, and the verdicts on them.
#![tactic(auto, unfolding(crate::specs::Opened::certificates))]

ghost use Rattle.std.specs.Prelude.{◌≡◌, ◌≤◌, ◌<◌, ◌^◌, ◌∷◌, ℕ, ◌||◌, false, true, List, Some, OnOk, IfOk};
ghost use Rattle.simplex_wire.specs.declared.certificate.Certificate.TheVariants as certificates;
ghost use Rattle.simplex_values.specs.Covers.{covers};
ghost use Rattle.simplex_values.specs.Terms.{term_index};
ghost use Rattle.model_rules.specs.Known.{Made, Fact, Added, view_of};
ghost use Rattle.model_rules.specs.Calls.{Call, AddNotarization, AddNullification, AddFinalization, known_of, adds_notarization, adds_nullification, adds_finalization, contradicted_leader, add_notarization_answer, add_finalization_answer};
ghost use Rattle.simplex_values.specs.Maps.{found};
ghost use Rattle.simplex_state.specs.Certificates.{held};
ghost use Rattle.simplex_state.specs.Progress.{progress_of};
ghost use Rattle.simplex_state.specs.Ranges.{holds};
ghost use Rattle.simplex_state.specs.Stands.{StandsFor, Takes, Answers, Keeps, covered_in};

use crate::held::hold;
use crate::ranges::Ranges;
use crate::rounds::{put_round, round_at};
use crate::state::State;
use simplex_types::elector::Elector;
use simplex_values::maps::{add, put};
use simplex_values::{Participant, Proposal, TermLength, View};
use simplex_wire::{Finalization, Notarization, Nullification, Scheme};
use std::alloc::AllocError;
use std::collections::BTreeMap;

impl<S: Scheme + Drop, L: Elector + Drop> State<S, L> {
    /// Adds a notarization, where its view is active and none of the view is known. The answer tells whether
    /// it was added, and then the leader to block: where the slot named another proposal.
    pub fn add_notarization(
        &mut self,
        notarization: Notarization,
        now: u64,
    ) -> Result<(bool, Option<Participant>), AllocError>
        requires clock { now < 2 ^ 63 }
        ensures stands { OnOk result (Takes self.old self.new (AddNotarization notarization now)) }
        ensures answer { IfOk result (Answers self.old
            (λ made known. add_notarization_answer made known notarization)) }
    {
        if !self.adds_notarization(&notarization) {
            return Ok((false, None));
        }
        let leader = self.contradicted_leader(&notarization.proposal);
        self.know_notarization(notarization, now)?;
        Ok((true, leader))
    }

    /// Adds a nullification, where its view is active and none of the view is known.
    pub fn add_nullification(
        &mut self,
        nullification: Nullification,
        now: u64,
    ) -> Result<bool, AllocError>
        requires clock { now < 2 ^ 63 }
        ensures stands { OnOk result (Takes self.old self.new
            (AddNullification nullification now)) }
        ensures answer { IfOk result (Answers self.old
            (λ made known. adds_nullification made known nullification)) }
    {
        if !self.adds_nullification(&nullification) {
            return Ok(false);
        }
        self.know_nullification(nullification, now)?;
        Ok(true)
    }

    /// Adds a finalization, as [`State::add_notarization`] a notarization.
    pub fn add_finalization(
        &mut self,
        finalization: Finalization,
        now: u64,
    ) -> Result<(bool, Option<Participant>), AllocError>
        requires clock { now < 2 ^ 63 }
        ensures stands { OnOk result (Takes self.old self.new (AddFinalization finalization now)) }
        ensures answer { IfOk result (Answers self.old
            (λ made known. add_finalization_answer made known finalization)) }
    {
        if !self.adds_finalization(&finalization) {
            return Ok((false, None));
        }
        let leader = self.contradicted_leader(&finalization.proposal);
        self.know_finalization(finalization, now)?;
        Ok((true, leader))
    }

    /// Whether a notarization is added.
    fn adds_notarization(&self, notarization: &Notarization) -> bool
        ensures { Answers self.now
            (λ made known. adds_notarization made known notarization.now) result }
    {
        let view = notarization.view();
        self.admits_certificate(view) && round_at(&self.rounds, view.0).notarized.is_none()
    }

    /// Whether a nullification is added.
    fn adds_nullification(&self, nullification: &Nullification) -> bool
        ensures { Answers self.now
            (λ made known. adds_nullification made known nullification.now) result }
    {
        let view = nullification.view();
        self.admits_certificate(view) && !self.nullifications.contains_key(&view.0)
    }

    /// Whether a finalization is added.
    fn adds_finalization(&self, finalization: &Finalization) -> bool
        ensures { Answers self.now
            (λ made known. adds_finalization made known finalization.now) result }
    {
        let view = finalization.view();
        self.admits_certificate(view) && round_at(&self.rounds, view.0).finalized.is_none()
    }

    /// The leader of the proposal's view, where its slot names another proposal. [leader-is-told]
    pub(crate) fn contradicted_leader(&self, proposal: &Proposal) -> Option<Participant>
        ensures { (made : Made) (calls : List Call) → StandsFor self.now made calls
            → (progress_of made (known_of made calls)).pruned ≤ proposal.now.round.view
            → result ≡ contradicted_leader made (known_of made calls) proposal.now }
    {
        let slot = round_at(&self.rounds, proposal.view().0).slot()?;
        if slot.is_same(proposal) {
            return None;
        }
        Some(self.leader_index(proposal.view()))
    }

    /// Takes a notarization for known.
    pub(crate) fn know_notarization(
        &mut self,
        notarization: Notarization,
        now: u64,
    ) -> Result<(), AllocError>
        requires clock { now < 2 ^ 63 }
        ensures { OnOk result
            ((made : Made) (known : List Fact) → Keeps self.old made known
            → (progress_of made known).pruned ≤ view_of notarization.proposal
            → Keeps self.new made (Added (certificates.Notarization notarization) now ∷ known)) }
    {
        let view = notarization.view().0;
        let mut round = round_at(&self.rounds, view);
        round.notarized = round.notarized.or(Some(notarization.proposal));
        put_round(&mut self.rounds, view, round)?;
        add(&mut self.waiting, view)?;
        hold(&mut self.notarizations, view, notarization)
    }

    /// Takes a nullification for known.
    pub(crate) fn know_nullification(
        &mut self,
        nullification: Nullification,
        now: u64,
    ) -> Result<(), AllocError>
        requires clock { now < 2 ^ 63 }
        ensures { OnOk result
            ((made : Made) (known : List Fact) → Keeps self.old made known
            → (progress_of made known).pruned ≤ nullification.round.view
            → Keeps self.new made (Added (certificates.Nullification nullification) now ∷ known)) }
    {
        let view = nullification.view();
        let length = self.term_length();
        let next = view.next_term_start(length);
        self.put_away()?;
        cover(&mut self.covered, length, view)?;
        complete(&mut self.whole, length, view)?;
        self.published = self.published_in(next);
        self.progress.open(next, length, now);
        hold(&mut self.nullifications, view.0, nullification)
    }

    /// Takes a finalization for known.
    pub(crate) fn know_finalization(
        &mut self,
        finalization: Finalization,
        now: u64,
    ) -> Result<(), AllocError>
        requires clock { now < 2 ^ 63 }
        ensures { OnOk result
            ((made : Made) (known : List Fact) → Keeps self.old made known
            → (progress_of made known).pruned ≤ view_of finalization.proposal
            → Keeps self.new made (Added (certificates.Finalization finalization) now ∷ known)) }
    {
        let view = finalization.view();
        self.put_away()?;
        let mut round = round_at(&self.rounds, view.0);
        round.finalized = round.finalized.or(Some(finalization.proposal));
        put_round(&mut self.rounds, view.0, round)?;
        self.published = self.published_in(view.next());
        self.progress
            .finalize(view, self.settings.terms.length, now);
        hold(&mut self.finalizations, view.0, finalization)
    }
}

/// Covers the rest of the view's term from the view on.
pub(crate) fn cover(
    covered: &mut BTreeMap<u64, u64>,
    length: TermLength,
    view: View,
) -> Result<(), AllocError>
    ensures { OnOk result ((q : ℕ)
        → covered_in length covered.new q
        ≡ (covers length view q || covered_in length covered.old q)) }
{
    let term = view.term_index(length);
    let least = match covered.get(&term) {
        Some(least) => view.0.min(*least),
        None => view.0,
    };
    put(covered, term, least)
}

/// Takes the view's term for whole, where the view is its first.
pub(crate) fn complete(whole: &mut Ranges, length: TermLength, view: View) -> Result<(), AllocError>
    requires { 0 < length }
    ensures { OnOk result ((q : ℕ) → holds whole.new (term_index length q) ≡ true
        → (covers length view q || holds whole.old (term_index length q)) ≡ true) }
{
    if view != view.term_start(length) {
        return Ok(());
    }
    whole.insert(view.term_index(length))?;
    Ok(())
}
