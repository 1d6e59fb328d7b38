//! What a start makes known: its floor, and what its journal held.
#![tactic(auto)]

ghost use Rattle.std.specs.Prelude.{◌≡◌, ◌++◌, ℕ, List, OnOk};
ghost use Rattle.simplex_types.specs.declared.floor.Floor.TheVariants.{Finalized};
ghost use Rattle.model_rules.specs.Calls.{floor_facts, judged};
ghost use Rattle.model_rules.specs.Known.{Made, Fact};
ghost use Rattle.simplex_known.specs.Knows.{Knows, Relearns};

use crate::known::Known;
use simplex_values::View;
use simplex_wire::{Artifact, Finalization};
use std::alloc::AllocError;

impl Known {
    /// The node starts at this finalization, at whatever clock.
    pub fn stand_on(&mut self, floor: &Finalization) -> Result<(), AllocError>
        ensures { OnOk result ((made : Made) (known : List Fact) (now : ℕ) → Knows self.old made known
            → Knows self.new made (floor_facts (Finalized floor.now) now ++ known)) }
    {
        self.add_finalization(floor)
    }

    /// A record of the journal is known again, at whatever clock: an own vote as voted, a certificate as added, and a verdict
    /// where it is taken.
    pub fn replay(&mut self, artifact: &Artifact) -> Result<(), AllocError>
        ensures { OnOk result (Relearns self.old self.new artifact.now) }
    {
        match artifact {
            Artifact::Notarize(vote) => self.vote_notarize(vote),
            Artifact::Nullify(vote) => self.vote_nullify(vote),
            Artifact::Finalize(vote) => self.vote_final(vote),
            Artifact::Notarization(notarization) => self.add_notarization(notarization),
            Artifact::Nullification(nullification) => self.add_nullification(nullification),
            Artifact::Finalization(finalization) => self.add_finalization(finalization),
            Artifact::Certification(round, good) => self.judge_again(round.view, *good),
        }
    }

    // The application's verdict on the view is known again, where it is taken.
    fn judge_again(&mut self, view: View, good: bool) -> Result<(), AllocError>
        ensures { OnOk result ((made : Made) (known : List Fact) (now : ℕ) → Knows self.old made known
            → Knows self.new made (judged made known view good now ++ known)) }
    {
        if !self.takes_verdict(view) {
            return Ok(());
        }
        self.judge(view, good)
    }
}
