//! Views that the member gives up.
//!
//! That the current view is given up takes no memory: it stands beside the set of the views given up before,
//! and goes into that before another view becomes current.
#![tactic(auto, unfolding(crate::specs::Stands::StandsFor, crate::specs::Progress::progress_of, model_rules::specs::Calls::known_of, model_rules::specs::Calls::facts_of))]

ghost use Rattle.std.specs.Prelude.{◌≡◌, ◌≤◌, ◌<◌, ◌^◌, ◌∷◌, ◌++◌, ℕ, nat_lt, true, false, None, List, IfSome, IfNone, OnOk, if◌then◌else◌};
ghost use Rattle.simplex_wire.specs.declared.vote.Nullify as nullifies;
ghost use Rattle.simplex_wire.specs.declared.vote.Vote.TheVariants as votes;
ghost use Rattle.model_rules.specs.Known.{Made, Fact, Voted, has_nullified};
ghost use Rattle.model_rules.specs.Views.{current_of};
ghost use Rattle.model_rules.specs.Votes.{nullify_at};
ghost use Rattle.model_rules.specs.Calls.{ConstructNullify, construct_nullify_answer, nullify_facts};
ghost use Rattle.simplex_state.specs.Stands.{Takes, Answers, Keeps};

use crate::state::State;
use simplex_types::elector::Elector;
use simplex_values::{Round, TimeoutReason, View};
use simplex_wire::{Nullify, Scheme};
use std::alloc::AllocError;

impl<S: Scheme + Drop, L: Elector + Drop> State<S, L> {
    /// Gives the current view up, where the scheme signs it. The answer tells whether that is a repeat.
    /// [unsigned-nullify]
    #[tactic(auto, unfolding(crate::specs::Stands::StandsFor, model_rules::specs::Calls::known_of, model_rules::specs::Calls::facts_of, model_rules::specs::Calls::construct_nullify_answer))]
    pub fn construct_nullify(
        &mut self,
        view: View,
        reason: TimeoutReason,
        now: u64,
    ) -> Option<(bool, Nullify)>
        requires clock { now < 2 ^ 63 }
        requires current { Answers self.old (λ made known. current_of made known) view }
        ensures stands { Takes self.old self.new (ConstructNullify view reason now) }
        ensures answer { Answers self.old
            (λ made known. construct_nullify_answer made known view) result }
    {
        let Some(vote) = self.nullify_at(view) else {
            return None;
        };
        let repeated = self.has_given_up(view);
        self.give_up(now);
        Some((repeated, vote))
    }

    /// Whether the member gave the view up.
    #[tactic(auto, unfolding(crate::specs::Stands::StandsFor))]
    pub fn voted_nullify(&self, view: View) -> bool
        ensures answer { Answers self.now (λ made known. has_nullified known view) result }
    {
        self.has_given_up(view)
    }

    /// Whether the member gave the view up.
    pub(crate) fn has_given_up(&self, view: View) -> bool
        ensures { (made : Made) (known : List Fact) → Keeps self.now made known
            → result ≡ has_nullified known view }
    {
        (self.gave_up && view == self.progress.current) || self.nullified.contains(view.0)
    }

    /// The last view up to this one that the member gave up.
    pub(crate) fn last_given_up(&self, view: View) -> Option<View>
        ensures member { IfSome result (λ u. (made : Made) (known : List Fact)
            → Keeps self.now made known → has_nullified known u ≡ true) }
        ensures bound { IfSome result (λ u. u ≤ view) }
        ensures greatest { IfSome result (λ u. (made : Made) (known : List Fact)
            → Keeps self.now made known → (q : ℕ) → q ≤ view
            → has_nullified known q ≡ true → q ≤ u) }
        ensures none { IfNone result ((made : Made) (known : List Fact) → Keeps self.now made known
            → (q : ℕ) → q ≤ view → has_nullified known q ≡ false) }
    {
        let current = self.progress.current;
        let before = self.nullified.last_up_to(view.0);
        if self.gave_up && current <= view {
            return Some(View(before.unwrap_or(0).max(current.0)));
        }
        match before {
            None => None,
            Some(last) => Some(View(last)),
        }
    }

    /// The member's nullify of the view.
    #[tactic(auto, unfolding(crate::specs::Stands::StandsFor, model_rules::specs::Votes::nullify_at, model_rules::specs::Votes::signed_nullify))]
    fn nullify_at(&self, view: View) -> Option<Nullify>
        ensures { Answers self.now (λ made known. nullify_at made view) result }
    {
        let round = Round {
            epoch: self.settings.epoch,
            view,
        };
        Nullify::sign(&self.scheme, round)
    }

    /// Takes an own nullify of the current view, which goes out now.
    fn give_up(&mut self, now: u64)
        requires clock { now < 2 ^ 63 }
        ensures { (made : Made) (known : List Fact) (vote : nullifies.Nullify) → Keeps self.old made known
            → vote.round.view ≡ current_of made known
            → Keeps self.new made (nullify_facts known vote.round.view now vote ++ known) }
    {
        self.gave_up = true;
        self.published = Some(now);
    }

    /// Takes an own nullify of any view.
    pub(crate) fn vote_nullify(&mut self, view: View, vote: &Nullify) -> Result<(), AllocError>
        ensures { OnOk result ((made : Made) (known : List Fact) → Keeps self.old made known
            → vote.now.round.view ≡ view
            → Keeps self.new made (Voted (votes.Nullify vote.now) ∷ known)) }
    {
        self.nullified.insert(view.0)?;
        Ok(())
    }

    /// Puts the current view to those given up before, where it is given up: another may become current.
    /// [given-up-for-good]
    pub(crate) fn put_away(&mut self) -> Result<(), AllocError>
        ensures kept { OnOk result ((made : Made) (known : List Fact) → Keeps self.old made known
            → Keeps self.new made known) }
        ensures away { OnOk result (self.new.gave_up ≡ false) }
    {
        if !self.gave_up {
            return Ok(());
        }
        let current = self.progress.current;
        self.nullified.insert(current.0)?;
        self.gave_up = false;
        Ok(())
    }

    /// When the own nullify last went out of the view that is current once this one opened.
    pub(crate) fn published_in(&self, view: View) -> Option<u64>
        ensures { result ≡ (if nat_lt self.now.progress.current view then None
            else self.now.published) }
    {
        if self.progress.current < view {
            return None;
        }
        self.published
    }
}
