//! Verdicts on notarizations.
#![tactic(auto, unfolding(crate::specs::Opened::verdicts))]

ghost use Rattle.std.specs.Prelude.{◌≡◌, ◌<◌, ◌^◌, ◌∷◌, ◌++◌, [], true, false, List, None, if◌then◌else◌, OnOk, IfOk};
ghost use Rattle.simplex_values.specs.declared.timeout.TimeoutReason.TheVariants.{FailedCertification};
ghost use Rattle.model_rules.specs.Known.{Made, Fact, Judged, verdict_of};
ghost use Rattle.model_rules.specs.Ancestry.{is_certified};
ghost use Rattle.model_rules.specs.Deadline.{triggered};
ghost use Rattle.model_rules.specs.Calls.{Certified, takes_verdict, certified_answer};
ghost use Rattle.simplex_state.specs.Progress.{progress_of};
ghost use Rattle.simplex_state.specs.Stands.{StandsFor, Takes, Answers, Keeps};

use crate::held::copy_at;
use crate::rounds::{put_round, round_at};
use crate::state::State;
use simplex_types::elector::Elector;
use simplex_values::maps::{add, contains};
use simplex_values::{Parent, TimeoutReason, View};
use simplex_wire::{Notarization, Scheme};
use std::alloc::AllocError;

impl<S: Scheme + Drop, L: Elector + Drop> State<S, L> {
    /// Takes the application's verdict on the notarization of a view, which it answers where the verdict is taken.
    pub fn certified(
        &mut self,
        view: View,
        good: bool,
        now: u64,
    ) -> Result<Option<Notarization>, AllocError>
        requires clock { now < 2 ^ 63 }
        ensures stands { OnOk result (Takes self.old self.new (Certified view good now)) }
        ensures answer { IfOk result (Answers self.old
            (λ made known. certified_answer known view)) }
    {
        if !self.takes_verdict(view) {
            return Ok(None);
        }
        let notarization = copy_at(self.alloc, &self.notarizations, view.0)?;
        self.judge(view, good, now)?;
        Ok(notarization)
    }

    /// Whether the parent's view is the last final one, or a later one with a true verdict. [parent-by-view]
    pub fn parent_certified(&self, parent: Parent) -> bool
        ensures answer { Answers self.now (λ made known. is_certified known parent.view) result }
    {
        self.is_certified(parent.view)
    }

    /// Whether a verdict on the view is taken.
    pub(crate) fn takes_verdict(&self, view: View) -> bool
        ensures { Answers self.now (λ made known. takes_verdict known view) result }
    {
        if view <= self.progress.last_finalized {
            return false;
        }
        let round = round_at(&self.rounds, view.0);
        round.notarized.is_some() && round.verdict.is_none()
    }

    /// Takes a verdict, and the failure that a false one is.
    pub(crate) fn judge(&mut self, view: View, good: bool, now: u64) -> Result<(), AllocError>
        requires clock { now < 2 ^ 63 }
        ensures { OnOk result ((made : Made) (known : List Fact)
            → Keeps self.old made known → verdict_of known view ≡ None
            → Keeps self.new made
            ((if good then [] else triggered made known view FailedCertification now)
            ++ Judged view good now ∷ known)) }
    {
        if good {
            self.approve(view, now)?;
        } else {
            self.reject(view, now)?;
            self.trigger(view, TimeoutReason::FailedCertification, now)?;
        }
        Ok(())
    }

    /// Takes a true verdict, which opens the next view.
    fn approve(&mut self, view: View, now: u64) -> Result<(), AllocError>
        requires clock { now < 2 ^ 63 }
        ensures { OnOk result ((made : Made) (known : List Fact) → Keeps self.old made known
            → verdict_of known view ≡ None → Keeps self.new made (Judged view true now ∷ known)) }
    {
        self.put_away()?;
        let mut round = round_at(&self.rounds, view.0);
        round.verdict = round.verdict.or(Some(true));
        put_round(&mut self.rounds, view.0, round)?;
        add(&mut self.certified, view.0)?;
        let next = view.next();
        self.published = self.published_in(next);
        self.progress.open(next, self.settings.terms.length, now);
        Ok(())
    }

    /// Takes a false verdict. [replayed-failures]
    fn reject(&mut self, view: View, now: u64) -> Result<(), AllocError>
        requires clock { now < 2 ^ 63 }
        ensures { OnOk result ((made : Made) (known : List Fact) → Keeps self.old made known
            → verdict_of known view ≡ None → Keeps self.new made (Judged view false now ∷ known)) }
    {
        let mut round = round_at(&self.rounds, view.0);
        round.verdict = round.verdict.or(Some(false));
        put_round(&mut self.rounds, view.0, round)?;
        self.failed.insert(view.0)?;
        Ok(())
    }

    /// Whether the view is the last final one, or a later one with a true verdict.
    #[tactic(auto, unfolding(crate::specs::Stands::StandsFor, crate::specs::Progress::progress_of, model_rules::specs::Ancestry::is_certified, model_rules::specs::Views::least_active))]
    pub(crate) fn is_certified(&self, view: View) -> bool
        ensures { Answers self.now (λ made known. is_certified known view) result }
    {
        view == self.progress.last_finalized
            || (self.progress.last_finalized < view && contains(&self.certified, view.0))
    }
}
