//! Records of a journal, which tell what the member knew before it started.
#![tactic(auto, unfolding(crate::specs::Opened::progress, crate::specs::Opened::facts, model_rules::specs::Calls::judged))]

ghost use Rattle.std.specs.Prelude.{◌≡◌, ◌<◌, ◌^◌, ◌++◌, ℕ, true, false, List, None, if◌then◌else◌, OnOk, IfOk};
ghost use Rattle.model_rules.specs.Known.{Made, Fact, view_of};
ghost use Rattle.model_rules.specs.Calls.{Call, Replay, known_of, replay_answer, contradicted_leader, judged, kept_notarization, kept_nullification, kept_finalization};
ghost use Rattle.simplex_state.specs.Progress.{progress_of};
ghost use Rattle.simplex_state.specs.Floor.{keeps_view, keeps_record};
ghost use Rattle.simplex_state.specs.Stands.{StandsFor, Takes, Keeps};

use crate::certificates::{complete, cover};
use crate::held::{hold, mark_sent};
use crate::state::State;
use simplex_types::elector::Elector;
use simplex_values::{Participant, Proposal, View};
use simplex_wire::{Artifact, Finalization, Notarization, Nullification, Scheme};
use std::alloc::AllocError;

impl<S: Scheme + Drop, L: Elector + Drop> State<S, L> {
    /// Takes a record of the journal for known: own votes as own, certificates as sent, and a verdict with the
    /// failure that a false one is. The answer is the leader to block: where the slot named another proposal
    /// than the certificate, and its view was not forgotten. [old-records]
    pub fn replay(
        &mut self,
        artifact: Artifact,
        now: u64,
    ) -> Result<Option<Participant>, AllocError>
        requires clock { now < 2 ^ 63 }
        ensures stands { OnOk result (Takes self.old self.new (Replay artifact now)) }
        ensures answer { IfOk result
            (λ leader. (made : Made) (calls : List Call) → StandsFor self.old made calls
            → keeps_record (known_of made calls) artifact ≡ true
            → leader ≡ replay_answer made (known_of made calls) artifact) }
        ensures forgotten { IfOk result (λ leader. (made : Made) (calls : List Call)
            → StandsFor self.old made calls
            → keeps_record (known_of made calls) artifact ≡ false → leader ≡ None) }
    {
        match artifact {
            Artifact::Notarization(notarization) => {
                let leader = self.blamed_leader(&notarization.proposal);
                self.keep_notarization(notarization, now)?;
                Ok(leader)
            }
            Artifact::Finalization(finalization) => {
                let leader = self.blamed_leader(&finalization.proposal);
                self.keep_finalization(finalization, now)?;
                Ok(leader)
            }
            Artifact::Nullification(nullification) => {
                self.keep_nullification(nullification, now)?;
                Ok(None)
            }
            Artifact::Certification(round, good) => {
                self.replay_verdict(round.view, good, now)?;
                Ok(None)
            }
            Artifact::Notarize(vote) => {
                self.vote_notarize(vote.view(), &vote)?;
                Ok(None)
            }
            Artifact::Nullify(vote) => {
                self.vote_nullify(vote.view(), &vote)?;
                Ok(None)
            }
            Artifact::Finalize(vote) => {
                self.vote_final(vote.view(), &vote)?;
                Ok(None)
            }
        }
    }

    /// The leader that a certificate of the proposal contradicts, or nobody where its view was forgotten.
    fn blamed_leader(&self, proposal: &Proposal) -> Option<Participant>
        ensures { (made : Made) (calls : List Call) → StandsFor self.now made calls
            → result ≡ (if keeps_view (known_of made calls)
            (view_of proposal.now) then contradicted_leader made
            (known_of made calls) proposal.now else None) }
    {
        if proposal.view() < self.progress.pruned {
            return None;
        }
        self.contradicted_leader(proposal)
    }

    /// A notarization of a view that was forgotten is known again: where it is held it counts as sent.
    fn pass_notarization(&mut self, notarization: &Notarization)
        ensures { (made : Made) (known : List Fact) (now : ℕ) → now < 2 ^ 63 → Keeps self.old made known
            → view_of notarization.now.proposal < (progress_of made known).pruned
            → Keeps self.new made (kept_notarization notarization.now now ++ known) }
    {
        let view = notarization.view();
        mark_sent(&mut self.notarizations, view.0);
    }

    /// Takes a notarization for known and sent.
    fn keep_notarization(&mut self, notarization: Notarization, now: u64) -> Result<(), AllocError>
        requires clock { now < 2 ^ 63 }
        ensures { OnOk result ((made : Made) (known : List Fact) → Keeps self.old made known
            → Keeps self.new made (kept_notarization notarization now ++ known)) }
    {
        let view = notarization.view();
        if view < self.progress.pruned {
            self.pass_notarization(&notarization);
            return Ok(());
        }
        self.know_notarization(notarization, now)?;
        mark_sent(&mut self.notarizations, view.0);
        Ok(())
    }

    /// Takes a nullification for known and sent. One of a view that was forgotten may still cover later ones.
    fn keep_nullification(
        &mut self,
        nullification: Nullification,
        now: u64,
    ) -> Result<(), AllocError>
        requires clock { now < 2 ^ 63 }
        ensures { OnOk result ((made : Made) (known : List Fact) → Keeps self.old made known
            → Keeps self.new made (kept_nullification nullification now ++ known)) }
    {
        let view = nullification.view();
        let length = self.term_length();
        let next = view.next_term_start(length);
        self.put_away()?;
        cover(&mut self.covered, length, view)?;
        complete(&mut self.whole, length, view)?;
        self.published = self.published_in(next);
        self.progress.open(next, length, now);
        hold(&mut self.nullifications, view.0, nullification)?;
        mark_sent(&mut self.nullifications, view.0);
        Ok(())
    }

    /// A finalization of a view that was forgotten is known again: where it is held it counts as sent.
    fn pass_finalization(&mut self, finalization: &Finalization)
        ensures { (made : Made) (known : List Fact) (now : ℕ) → now < 2 ^ 63 → Keeps self.old made known
            → view_of finalization.now.proposal < (progress_of made known).pruned
            → Keeps self.new made (kept_finalization finalization.now now ++ known) }
    {
        let view = finalization.view();
        mark_sent(&mut self.finalizations, view.0);
    }

    /// Takes a finalization for known and sent.
    pub(crate) fn keep_finalization(
        &mut self,
        finalization: Finalization,
        now: u64,
    ) -> Result<(), AllocError>
        requires clock { now < 2 ^ 63 }
        ensures { OnOk result ((made : Made) (known : List Fact) → Keeps self.old made known
            → Keeps self.new made (kept_finalization finalization now ++ known)) }
    {
        let view = finalization.view();
        if view < self.progress.pruned {
            self.pass_finalization(&finalization);
            return Ok(());
        }
        self.know_finalization(finalization, now)?;
        mark_sent(&mut self.finalizations, view.0);
        Ok(())
    }

    /// Takes a verdict, where one on its view is taken. [kept-verdicts]
    fn replay_verdict(&mut self, view: View, good: bool, now: u64) -> Result<(), AllocError>
        requires clock { now < 2 ^ 63 }
        ensures { OnOk result ((made : Made) (calls : List Call) → StandsFor self.old made calls
            → Keeps self.new made
            (judged made (known_of made calls) view good now ++ known_of made calls)) }
    {
        if !self.takes_verdict(view) {
            return Ok(());
        }
        self.judge(view, good, now)
    }
}
