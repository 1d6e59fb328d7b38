//! The certificate that shows why the member is in its view.
#![tactic(auto, unfolding(crate::specs::Opened::held, crate::specs::Opened::progress, model_rules::specs::Views::least_active))]

ghost use Rattle.std.specs.Prelude.{◌≡◌, ◌≤◌, ◌<◌, ◌-◌, ◌⊎◌, ℕ, true, None, List, IfSome, IfNone, IfOk, if◌then◌else◌};
ghost use Rattle.std.specs.Option.{is_some};
ghost use Rattle.simplex_values.specs.Terms.{greatest_view, next_term_start};
ghost use Rattle.model_rules.specs.Known.{Made, Fact, notarization_of, finalization_of};
ghost use Rattle.model_rules.specs.Views.{current_of};
ghost use Rattle.model_rules.specs.Ancestry.{has_true_verdict};
ghost use Rattle.model_rules.specs.Best.{opening_nullification, best_certificate};
ghost use Rattle.model_rules.specs.Calls.{Call, known_of};
ghost use Rattle.simplex_values.specs.Maps.{found};
ghost use Rattle.simplex_state.specs.Progress.{progress_of};
ghost use Rattle.simplex_state.specs.Stands.{StandsFor, Answers, Keeps};

use crate::held::copy_at;
use crate::state::State;
use simplex_types::elector::Elector;
use simplex_values::maps::{contains, last_below, last_view};
use simplex_values::{View, ViewDelta};
use simplex_wire::{Certificate, Finalization, Notarization, Nullification, Scheme};
use std::alloc::AllocError;

impl<S: Scheme + Drop, L: Elector + Drop> State<S, L> {
    /// The certificate that shows why the member is in its view: the finalization of the view before, else its
    /// notarization with a true verdict, else the greatest nullification that ends the term before.
    pub fn get_best_certificate(&self) -> Result<Option<Certificate>, AllocError>
        ensures { IfOk result (λ best. Answers self.now
            (λ made known. best_certificate made known) best) }
    {
        let before = self.view_before();
        if let Some(finalization) = self.kept_finalization(before)? {
            return Ok(Some(Certificate::Finalization(finalization)));
        }
        if let Some(notarization) = self.approved_notarization(before)? {
            return Ok(Some(Certificate::Notarization(notarization)));
        }
        match self.opening_nullification()? {
            None => Ok(None),
            Some(nullification) => Ok(Some(Certificate::Nullification(nullification))),
        }
    }

    /// The view before the current one, which is not forgotten.
    fn view_before(&self) -> View
        ensures value { result ≡ self.now.progress.current - 1 }
        ensures kept { (made : Made) (calls : List Call) → StandsFor self.now made calls
            → (progress_of made (known_of made calls)).pruned ≤ result }
    {
        // The proof wants the bound of the last final view.
        let _last = self.last_finalized();
        self.progress.current.saturating_sub(ViewDelta(1))
    }

    /// The finalization of the view.
    fn kept_finalization(&self, view: View) -> Result<Option<Finalization>, AllocError>
        ensures { IfOk result (λ finalization. (made : Made) (known : List Fact) → Keeps self.now made known
            → (progress_of made known).pruned ≤ view → finalization ≡ finalization_of known view) }
    {
        copy_at(self.alloc, &self.finalizations, view.0)
    }

    /// The notarization of the view, where its verdict is true.
    fn approved_notarization(&self, view: View) -> Result<Option<Notarization>, AllocError>
        ensures { IfOk result
            (λ notarization. (made : Made) (known : List Fact) → Keeps self.now made known
            → (progress_of made known).pruned ≤ view
            → notarization ≡ (if has_true_verdict known view then notarization_of known view else None)) }
    {
        if !contains(&self.certified, view.0) {
            return Ok(None);
        }
        copy_at(self.alloc, &self.notarizations, view.0)
    }

    /// The greatest nullification that opens the current view.
    fn opening_nullification(&self) -> Result<Option<Nullification>, AllocError>
        ensures { IfOk result (λ nullification. (made : Made) (known : List Fact)
            → Keeps self.now made known
            → nullification ≡ opening_nullification made.term_length known
            (current_of made known)) }
    {
        let Some(view) = self.last_nullified() else {
            return Ok(None);
        };
        if view.next_term_start(self.settings.terms.length) != self.progress.current {
            return Ok(None);
        }
        let nullification = copy_at(self.alloc, &self.nullifications, view.0)?;
        Ok(nullification)
    }

    /// The greatest view with a nullification that may open the current one: below it, but that the greatest
    /// of all views is opened by each view of its term.
    #[tactic(auto, using(crate::proofs::Opening::opened_below))]
    fn last_nullified(&self) -> Option<View>
        ensures fits { self.now.progress.current ≤ greatest_view }
        ensures held { IfSome result (λ view. is_some (found self.now.nullifications view) ≡ true) }
        ensures below { IfSome result
            (λ view. (view < self.now.progress.current) ⊎
            (greatest_view ≤ self.now.progress.current)) }
        ensures greatest { IfSome result (λ view. (length q : ℕ) → 0 < length → next_term_start length q
            ≡ self.now.progress.current
            → is_some (found self.now.nullifications q) ≡ true → q ≤ view) }
        ensures none { IfNone result ((length q : ℕ) → 0 < length → next_term_start length q
            ≡ self.now.progress.current → found self.now.nullifications q ≡ None) }
    {
        let current = self.progress.current;
        if current.0 == u64::MAX {
            return Some(View(last_view(&self.nullifications)?));
        }
        Some(View(last_below(&self.nullifications, current.0)?))
    }
}
