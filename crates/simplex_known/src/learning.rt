//! Facts that are taken in.
#![tactic(auto)]

ghost use Rattle.std.specs.Prelude.{◌≡◌, ℕ, OnOk};
ghost use Rattle.simplex_wire.specs.declared.certificate.Certificate.TheVariants as certificates;
ghost use Rattle.simplex_wire.specs.declared.vote.Vote.TheVariants as votes;
ghost use Rattle.model_rules.specs.Known.{Added, Taken, Answered, Approved, Judged, Voted};
ghost use Rattle.simplex_known.specs.Knows.{Learns};

use crate::known::Known;
use crate::proposals::add_proposal;
use crate::rounds::{put_round, round_at};
use simplex_values::{Proposal, View};
use simplex_wire::{
    Certificate, Finalization, Finalize, Notarization, Notarize, Nullification, Nullify, Vote,
};
use std::alloc::AllocError;

impl Known {
    /// A certificate was added, at whatever clock.
    pub fn add_certificate(&mut self, certificate: &Certificate) -> Result<(), AllocError>
        ensures { OnOk result ((now : ℕ) → Learns self.old self.new (Added certificate.now now)) }
    {
        match certificate {
            Certificate::Notarization(n) => self.add_notarization(n),
            Certificate::Nullification(n) => self.add_nullification(n),
            Certificate::Finalization(f) => self.add_finalization(f),
        }
    }

    /// The application's verdict on the view was taken, at whatever clock.
    pub fn judge(&mut self, view: View, good: bool) -> Result<(), AllocError>
        ensures { OnOk result ((now : ℕ) → Learns self.old self.new (Judged view good now)) }
    {
        let mut round = round_at(&self.rounds, view.0);
        round.verdict = round.verdict.or(Some(good));
        put_round(&mut self.rounds, view.0, round)?;
        if !good {
            return Ok(());
        }
        self.current = self.current.max(view.next());
        Ok(())
    }

    /// A proposal from the batcher was recorded.
    pub fn take_proposal(&mut self, proposal: &Proposal) -> Result<(), AllocError>
        ensures { OnOk result (Learns self.old self.new (Taken proposal.now)) }
    {
        let view = proposal.view().0;
        let mut round = round_at(&self.rounds, view);
        round.proposed = round.proposed.or(Some(*proposal));
        put_round(&mut self.rounds, view, round)
    }

    /// The application's own proposal was recorded.
    pub fn answer_proposal(&mut self, proposal: &Proposal) -> Result<(), AllocError>
        ensures { OnOk result (Learns self.old self.new (Answered proposal.now)) }
    {
        let view = proposal.view().0;
        let mut round = round_at(&self.rounds, view);
        round.proposed = round.proposed.or(Some(*proposal));
        put_round(&mut self.rounds, view, round)?;
        add_proposal(&mut self.answered, proposal)
    }

    /// The application verified the proposal.
    pub fn approve(&mut self, proposal: &Proposal) -> Result<(), AllocError>
        ensures { OnOk result (Learns self.old self.new (Approved proposal.now)) }
    {
        add_proposal(&mut self.approved, proposal)
    }

    /// The node voted.
    pub fn vote(&mut self, vote: &Vote) -> Result<(), AllocError>
        ensures { OnOk result (Learns self.old self.new (Voted vote.now)) }
    {
        match vote {
            Vote::Notarize(n) => self.vote_notarize(n),
            Vote::Nullify(n) => self.vote_nullify(n),
            Vote::Finalize(f) => self.vote_final(f),
        }
    }

    /// A notarization was added.
    pub(crate) fn add_notarization(&mut self, notarization: &Notarization) -> Result<(), AllocError>
        ensures { OnOk result ((now : ℕ)
            → Learns self.old self.new (Added (certificates.Notarization notarization.now) now)) }
    {
        let view = notarization.view().0;
        let mut round = round_at(&self.rounds, view);
        round.notarized = round.notarized.or(Some(notarization.proposal));
        put_round(&mut self.rounds, view, round)
    }

    /// A nullification was added.
    pub(crate) fn add_nullification(
        &mut self,
        nullification: &Nullification,
    ) -> Result<(), AllocError>
        ensures { OnOk result ((now : ℕ)
            → Learns self.old self.new (Added (certificates.Nullification nullification.now) now)) }
    {
        let view = nullification.view();
        let mut round = round_at(&self.rounds, view.0);
        round.nullified = true;
        put_round(&mut self.rounds, view.0, round)?;
        self.covers.add(view)?;
        let next = view.next_term_start(self.rules.lookahead.length);
        self.current = self.current.max(next);
        Ok(())
    }

    /// A finalization was added.
    pub(crate) fn add_finalization(&mut self, finalization: &Finalization) -> Result<(), AllocError>
        ensures { OnOk result ((now : ℕ)
            → Learns self.old self.new (Added (certificates.Finalization finalization.now) now)) }
    {
        let view = finalization.view();
        let mut round = round_at(&self.rounds, view.0);
        round.finalized = round.finalized.or(Some(finalization.proposal));
        put_round(&mut self.rounds, view.0, round)?;
        self.last_finalized = self.last_finalized.max(view);
        self.current = self.current.max(view.next());
        Ok(())
    }

    /// The node voted for a proposal.
    pub(crate) fn vote_notarize(&mut self, vote: &Notarize) -> Result<(), AllocError>
        ensures { OnOk result (Learns self.old self.new (Voted (votes.Notarize vote.now))) }
    {
        let view = vote.view().0;
        let mut round = round_at(&self.rounds, view);
        round.voted = round.voted.or(Some(vote.proposal));
        put_round(&mut self.rounds, view, round)
    }

    /// The node gave a view up.
    pub(crate) fn vote_nullify(&mut self, vote: &Nullify) -> Result<(), AllocError>
        ensures { OnOk result (Learns self.old self.new (Voted (votes.Nullify vote.now))) }
    {
        let view = vote.view().0;
        self.given_up.insert(view)
    }

    /// The node voted for finality.
    pub(crate) fn vote_final(&mut self, vote: &Finalize) -> Result<(), AllocError>
        ensures { OnOk result (Learns self.old self.new (Voted (votes.Finalize vote.now))) }
    {
        let view = vote.view().0;
        let mut round = round_at(&self.rounds, view);
        round.voted_final = true;
        put_round(&mut self.rounds, view, round)
    }
}
