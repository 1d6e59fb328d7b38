//! The gaps: the views whose nullification is to be asked for.
#![tactic(auto, unfolding(crate::specs::Stands::StandsFor))]

ghost use Rattle.std.specs.Prelude.{◌≡◌, ℕ, ◌+◌, ◌<◌, ◌≤◌, ◌++◌, map, false, OnOk, IfSome, IfNone};
ghost use Rattle.simplex_values.specs.Terms.{next_term_start};
ghost use Rattle.model_rules.specs.declared.effect.Effect.TheVariants.{Fetch};
ghost use Rattle.model_rules.specs.Repair.{is_gap, is_first_above, repair_floor};
ghost use Rattle.simplex_repair.specs.Gaps.{gaps_between, asked_to};
ghost use Rattle.simplex_repair.specs.Stands.{Answers, WhenStands};

use crate::notes::later;
use crate::repair::RepairState;
use model_rules::Effect;
use simplex_values::maps::{contains, first_from};
use simplex_values::{TermLength, View};
use std::alloc::AllocError;

impl RepairState {
    /// Asks for the gaps behind one view and up to another, in rising order. [asked-once-lacking]
    pub(crate) fn fetch(
        &self,
        behind: View,
        last: View,
        effects: &mut Vec<Effect>,
    ) -> Result<(), AllocError>
        ensures { OnOk result (Answers self.now (λ length calls. effects.old.items
            ++ map Fetch (gaps_between length calls behind last)) effects.new.items) }
    {
        if !self.is_replayed {
            return Ok(());
        }
        let mut at = later(self.floor, behind);
        while let Some(view) = self.next_candidate(at, last) {
            if self.is_gap(view) {
                effects.push(Effect::Fetch { view })?;
            }
            at = view;
        }
        Ok(())
    }

    /// The view behind which new gaps can stand: this one, where it is a gap already, else the one before.
    #[tactic(auto, unfolding(crate::specs::Stands::StandsFor, crate::specs::Gaps::asked_to))]
    pub(crate) fn asked_to(&self, view: View) -> View
        ensures { Answers self.now (λ length calls. asked_to length calls view) result }
    {
        if self.is_gap(view) {
            return view;
        }
        View(view.0.saturating_sub(1))
    }

    /// Whether a nullification of the view has to be asked for.
    #[tactic(auto, unfolding(crate::specs::Stands::StandsFor, model_rules::specs::Repair::is_gap), using(crate::proofs::Held::above_floor))]
    fn is_gap(&self, view: View) -> bool
        ensures { Answers self.now (λ length calls. is_gap length calls view) result }
    {
        if !self.is_replayed || view <= self.floor || self.is_nullified(view) {
            return false;
        }
        (view < self.top && self.is_first_above(view)) || self.is_failed(view)
    }

    /// Whether the view is its term's first above the floor.
    #[tactic(auto, unfolding(model_rules::specs::Repair::is_first_above))]
    fn is_first_above(&self, view: View) -> bool
        requires { self.now.floor < view }
        ensures { result ≡ is_first_above self.now.length self.now.floor view }
    {
        view.0 == (self.floor.0 + 1).max(view.term_start(self.length).0)
    }

    /// The least view behind one and up to another that can be a gap, if there is one.
    fn next_candidate(&self, at: View, last: View) -> Option<View>
        ensures above { IfSome result (λ view. at < view) }
        ensures bound { IfSome result (λ view. view ≤ last) }
        ensures least { IfSome result (λ view. WhenStands self.now (λ length calls. (q : ℕ)
            → at < q → q < view → is_gap length calls q ≡ false)) }
        ensures none { IfNone result (WhenStands self.now (λ length calls. (q : ℕ)
            → at < q → q ≤ last → is_gap length calls q ≡ false)) }
    {
        if last <= at {
            return None;
        }
        let view = self.candidate_from(View(at.0 + 1));
        if view > last {
            return None;
        }
        Some(view)
    }

    /// The least view from this one on that can be a gap, or a view before which there is none.
    #[tactic(auto, unfolding(crate::specs::Stands::StandsFor), using(crate::proofs::Candidates::no_gap))]
    fn candidate_from(&self, view: View) -> View
        ensures bound { view ≤ result }
        ensures least { WhenStands self.now (λ length calls. (q : ℕ)
            → view ≤ q → q < result → is_gap length calls q ≡ false) }
    {
        let first = self.first_above_from(view);
        match first_from(&self.failed, view.0) {
            None => first,
            Some(failed) => View(first.0.min(failed)),
        }
    }

    /// The first view above the floor, the view itself at its term's start, or else the next term's start.
    #[tactic(auto, unfolding(crate::specs::Stands::StandsFor), using(crate::proofs::Candidates::rest_of_term))]
    fn first_above_from(&self, view: View) -> View
        ensures bound { view ≤ result }
        ensures least { WhenStands self.now (λ length calls. (q : ℕ)
            → view ≤ q → q < result → is_first_above length (repair_floor calls) q ≡ false) }
    {
        if view.0 <= self.floor.0 {
            return view;
        }
        if self.is_first_above(view) {
            return view;
        }
        next_start(self.length, view)
    }
}

/// The first view of the next term.
#[tactic(auto, using(crate::proofs::Terms::next_later))]
fn next_start(length: TermLength, view: View) -> View
    ensures start { result ≡ next_term_start length view }
    ensures later { view ≤ result }
{
    view.next_term_start(length)
}
