//! Which view a proposal may stand on.
#![tactic(auto, unfolding(crate::specs::Opened::slots, model_rules::specs::Views::least_active))]

ghost use Rattle.std.specs.Prelude.{◌≡◌, ◌≤◌, ◌<◌, ◌==◌, ◌||◌, ◌^◌, ◌-◌, ℕ, not, true, false, find, List};
ghost use Rattle.std.specs.List.{range_with_len};
ghost use Rattle.simplex_values.specs.Terms.{greatest_view, term_index};
ghost use Rattle.model_rules.specs.Known.{Made, Fact};
ghost use Rattle.model_rules.specs.Views.{last_finalized};
ghost use Rattle.model_rules.specs.Ancestry.{gap_between, has_ancestry, greatest_parent, is_certified, is_met};
ghost use Rattle.model_rules.specs.Requests.{is_superseded, is_abandoned};
ghost use Rattle.simplex_state.specs.Progress.{progress_of};
ghost use Rattle.simplex_state.specs.Ranges.{holds};
ghost use Rattle.simplex_state.specs.Stands.{Answers, Keeps, covered_in};

use crate::ranges::Ranges;
use crate::rounds::round_at;
use crate::state::State;
use simplex_types::elector::Elector;
use simplex_values::maps::last_up_to;
use simplex_values::{Context, TermLength, View};
use simplex_wire::Scheme;
use std::collections::BTreeMap;

impl<S: Scheme + Drop, L: Elector + Drop> State<S, L> {
    /// Whether a proposal on the context's parent makes room for one on another parent.
    #[tactic(auto, unfolding(model_rules::specs::Requests::is_superseded))]
    pub fn supersede_proposal_request(&self, context: &Context) -> bool
        ensures answer { Answers self.now
            (λ made known. is_superseded made known context.now.parent.view context.now.round.view) result }
    {
        !self.has_ancestry(context.parent.view, context.round.view)
            && self.greatest_parent(context.round.view).is_some()
    }

    /// Whether a handoff is given up: the member gave up its view or its parent's, or the parent failed.
    #[tactic(auto, unfolding(crate::specs::Stands::StandsFor, model_rules::specs::Requests::is_abandoned))]
    pub fn pending_handoff_abandonment(&self, context: &Context) -> bool
        ensures answer { Answers self.now
            (λ made known. is_abandoned known context.now.parent.view context.now.round.view) result }
    {
        let parent = context.parent.view;
        self.has_given_up(context.round.view)
            || self.has_given_up(parent)
            || self.failed.contains(parent.0)
    }

    /// Whether a proposal of the view may stand on the parent.
    #[tactic(auto, unfolding(crate::specs::Stands::StandsFor, crate::specs::Progress::progress_of, model_rules::specs::Views::least_active, model_rules::specs::Ancestry::has_ancestry))]
    pub(crate) fn has_ancestry(&self, parent: View, view: View) -> bool
        ensures { Answers self.now (λ made known. has_ancestry made known parent view) result }
    {
        if parent < self.progress.last_finalized || view <= parent {
            return false;
        }
        self.gap_between(parent, view).is_none()
            && (self.is_certified(parent) || self.is_met(parent, view))
    }

    /// The greatest parent that a proposal of the view may stand on.
    pub(crate) fn greatest_parent(&self, view: View) -> Option<View>
        ensures { Answers self.now (λ made known. greatest_parent made known view) result }
    {
        let last = self.progress.last_finalized;
        if view <= last {
            return None;
        }
        let before = View(view.0 - 1);
        if self.is_met(before, view) {
            return Some(before);
        }
        let parent = self.last_certified(before);
        if self.gap_between(parent, view).is_some() {
            return None;
        }
        Some(parent)
    }

    /// The greatest certified view up to this one, which is not before the last final one.
    #[tactic(auto, unfolding(crate::specs::Stands::StandsFor, crate::specs::Progress::progress_of, model_rules::specs::Views::least_active, model_rules::specs::Ancestry::is_certified))]
    fn last_certified(&self, view: View) -> View
        ensures above { (made : Made) (known : List Fact) → Keeps self.now made known
            → last_finalized known ≤ result }
        ensures bound { (made : Made) (known : List Fact) → Keeps self.now made known
            → last_finalized known ≤ view → result ≤ view }
        ensures certified { (made : Made) (known : List Fact) → Keeps self.now made known
            → is_certified known result ≡ true }
        ensures greatest { (made : Made) (known : List Fact) → Keeps self.now made known → (q : ℕ)
            → result < q → q ≤ view → is_certified known q ≡ false }
    {
        let last = self.progress.last_finalized;
        match last_up_to(&self.certified, view.0) {
            None => last,
            Some(certified) => {
                if certified <= last.0 {
                    return last;
                }
                View(certified)
            }
        }
    }

    /// Whether the parent is the view just before, and the member voted for it and did not give it up.
    /// [met-by-own-vote]
    #[tactic(auto, unfolding(crate::specs::Stands::StandsFor, crate::specs::Rounds::round_of, crate::specs::Rounds::slot_in, model_rules::specs::Slot::slot_of, model_rules::specs::Ancestry::is_met))]
    pub(crate) fn is_met(&self, parent: View, view: View) -> bool
        ensures { (made : Made) (known : List Fact) → Keeps self.now made known
            → (progress_of made known).pruned ≤ parent → result ≡ is_met known parent view }
    {
        parent < view
            && view.0 - parent.0 == 1
            && round_at(&self.rounds, parent.0).voted.is_some()
            && !self.has_given_up(parent)
    }

    /// The least view strictly between that no known nullification covers. [runs-of-terms]
    pub(crate) fn gap_between(&self, parent: View, view: View) -> Option<View>
        ensures { (made : Made) (known : List Fact) → Keeps self.now made known
            → (progress_of made known).pruned ≤ parent
            → result ≡ gap_between made known parent view }
    {
        if view <= parent {
            return None;
        }
        gap_from(
            &self.covered,
            &self.whole,
            self.term_length(),
            parent.next(),
            view,
        )
    }
}

/// The least view from the first to before the second that is not covered.
fn gap_from(
    covered: &BTreeMap<u64, u64>,
    whole: &Ranges,
    length: TermLength,
    first: View,
    end: View,
) -> Option<View>
    requires some { 0 < length }
    requires low { end < 2 ^ 64 }
    ensures { ((q : ℕ) → first ≤ q → holds whole.now (term_index length q) ≡ true
        → covered_in length covered.now q ≡ true)
        → result ≡ find (λ v. not (covered_in length covered.now v))
        (range_with_len first (end - first)) }
{
    let mut view = first;
    while view < end {
        if !is_covered(covered, length, view) {
            return Some(view);
        }
        view = behind(whole, length, view);
    }
    None
}

/// The view behind the whole terms that follow the view's term, or the first of the next term.
fn behind(whole: &Ranges, length: TermLength, view: View) -> View
    requires { 0 < length }
    ensures later { view < greatest_view → view < result }
    ensures passed { (q : ℕ) → view ≤ q → q < result
        → (term_index length q == term_index length view
        || holds whole.now (term_index length q)) ≡ true }
{
    let next = view.next_term_start(length);
    match whole.run_end(next.term_index(length)) {
        None => next,
        Some(last) => View(last.saturating_mul(length.get())).next(),
    }
}

/// Whether the view's term has a nullified view that is not later.
#[tactic(auto, unfolding(crate::specs::Stands::covered_in, simplex_values::specs::Maps::found))]
fn is_covered(covered: &BTreeMap<u64, u64>, length: TermLength, view: View) -> bool
    ensures { result ≡ covered_in length covered.now view }
{
    match covered.get(&view.term_index(length)) {
        Some(least) => *least <= view.0,
        None => false,
    }
}
