//! Where a member starts, and what it forgets.
#![tactic(auto, unfolding(crate::specs::Opened::progress, crate::specs::Opened::facts, model_rules::specs::Calls::prune_answer))]

ghost use Rattle.std.specs.Prelude.{◌≡◌, ◌≤◌, ◌<◌, ◌^◌, ◌∷◌, List, OnOk, IfOk};
ghost use Rattle.simplex_wire.specs.declared.certificate.Certificate.TheVariants as certificates;
ghost use Rattle.simplex_wire.specs.declared.certificate.CertificateKind.TheVariants as kinds;
ghost use Rattle.model_rules.specs.Known.{Made, Fact, FloorAt, Added, Broadcast, Pruned, view_of};
ghost use Rattle.model_rules.specs.Views.{least_active};
ghost use Rattle.model_rules.specs.Calls.{SetFloor, Prune, known_of, set_floor_answer, prune_answer};
ghost use Rattle.simplex_state.specs.Progress.{progress_of};
ghost use Rattle.simplex_state.specs.Stands.{StandsFor, Takes, Answers, Keeps};

use crate::held::{forget_opened, forget_sent};
use crate::rounds::{drop_rounds, put_round, round_at};
use crate::state::State;
use simplex_types::Floor;
use simplex_types::elector::Elector;
use simplex_values::maps::{drop_below, remove_below};
use simplex_values::{Digest, Keep, View};
use simplex_wire::{Finalization, Scheme};
use std::alloc::AllocError;

impl<S: Scheme + Drop, L: Elector + Drop> State<S, L> {
    /// Takes the floor for final, and answers its finalization.
    pub fn set_floor(&mut self, floor: Floor, now: u64) -> Result<Option<Finalization>, AllocError>
        requires clock { now < 2 ^ 63 }
        ensures stands { OnOk result (Takes self.old self.new (SetFloor floor now)) }
        ensures answer { IfOk result (λ it. it ≡ set_floor_answer floor) }
    {
        match floor {
            Floor::Genesis(payload) => {
                self.know_floor(View(0), &payload)?;
                Ok(None)
            }
            Floor::Finalized(finalization) => {
                let copy = finalization.keep(self.alloc)?;
                self.start_from(finalization, now)?;
                Ok(Some(copy))
            }
        }
    }

    /// Forgets the views below the least active one, which it answers where that rose since the last prune.
    /// [states-forget]
    pub fn prune(&mut self) -> Option<View>
        ensures stands { Takes self.old self.new Prune }
        ensures answer { Answers self.old (λ made known. prune_answer made known) result }
    {
        let last = self.last_finalized();
        let least = last.saturating_sub(self.settings.view_retention);
        if least <= self.progress.pruned {
            return None;
        }
        self.forget(least);
        Some(least)
    }

    /// Takes the floor's finalization, which need not be sent.
    fn start_from(&mut self, finalization: Finalization, now: u64) -> Result<(), AllocError>
        requires clock { now < 2 ^ 63 }
        ensures { OnOk result ((made : Made) (known : List Fact) → Keeps self.old made known
            → Keeps self.new made
            (Broadcast kinds.Finalization (view_of finalization.proposal)
            ∷ Added (certificates.Finalization finalization) now
            ∷ FloorAt (view_of finalization.proposal) finalization.proposal.payload ∷ known)) }
    {
        let view = finalization.view();
        self.know_floor(view, &finalization.proposal.payload)?;
        self.keep_finalization(finalization, now)
    }

    /// Takes the view's payload for final. [floor-is-final]
    fn know_floor(&mut self, view: View, payload: &Digest) -> Result<(), AllocError>
        ensures { OnOk result ((made : Made) (known : List Fact) → Keeps self.old made known
            → Keeps self.new made (FloorAt view payload.now ∷ known)) }
    {
        let mut round = round_at(&self.rounds, view.0);
        round.floor = round.floor.or(Some(*payload));
        put_round(&mut self.rounds, view.0, round)
    }

    /// Forgets what is below the view.
    fn forget(&mut self, least: View)
        ensures { (made : Made) (known : List Fact)
            → Keeps self.old made known → least ≡ least_active made known
            → least ≤ (progress_of made known).current → (progress_of made known).pruned ≤ least
            → Keeps self.new made (Pruned least ∷ known) }
    {
        let length = self.settings.terms.length;
        self.progress.pruned = least;
        drop_rounds(&mut self.rounds, least.0);
        remove_below(&mut self.certified, least.0);
        remove_below(&mut self.waiting, least.0);
        self.missing.forget(least);
        drop_below(&mut self.covered, least.term_index(length));
        forget_sent(&mut self.notarizations, least.0);
        forget_sent(&mut self.finalizations, least.0);
        forget_opened(
            &mut self.nullifications,
            least.0,
            length,
            self.progress.current,
        );
    }
}
