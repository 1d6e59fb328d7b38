//! Votes: those of the network, and own ones.
ghost use Rattle.std.specs.Prelude.{◌++◌, IfOk, OnOk};
ghost use Rattle.simplex_round.specs.Acceptance.{heard_from, has_nullify};
ghost use Rattle.simplex_round.specs.Calls.{AddNetwork};
ghost use Rattle.model_steps.specs.Batcher.{took_vote, took_constructed, round_for, called, known_in, vote_view, some_passes};
ghost use Rattle.simplex_batcher.specs.Hearing.{voted, heard_of};
ghost use Rattle.simplex_batcher.specs.Rounds.{given};
ghost use Rattle.simplex_batcher.specs.Working.{heard_at, own_heard_at, bare_round, lead_of, put};
ghost use Rattle.simplex_batcher.specs.Stands.{Marks, Moves, Reads};

use crate::actor::Actor;
use crate::marks::Marked;
use crate::others::{Heard, hear};
use crate::work::{publish, publish_heard};
use simplex_messages::StepOut;
use simplex_round::RoundOut;
use simplex_types::{Participant, Scheme, View, Vote};
use std::alloc::AllocError;

impl<S: Scheme + Drop> Actor<S> {
    /// A vote from the network, by the round of the view, which is looked up once where there is one.
    fn hear_at(
        &mut self,
        view: View,
        leader: &Option<Participant>,
        sender: Participant,
        vote: &Vote,
        out: &mut RoundOut,
    ) -> Result<Heard, AllocError>
        ensures stands { OnOk result (Moves self.old self.new (λ made standing. put view
            (voted leader.now sender vote.now (bare_round made standing view)) standing)) }
        ensures answer { IfOk result (Reads self.old
            (λ made standing. heard_of leader.now sender vote.now
            (bare_round made standing view))) }
        ensures reports { OnOk result (Reads self.old
            (λ made standing. out.old.reports ++ (heard_from (known_in
            (given leader.now
            (bare_round made standing view))) sender vote.now).reports) out.new.reports) }
        ensures blocks { OnOk result (Reads self.old
            (λ made standing. out.old.blocks ++ (heard_from (known_in
            (given leader.now
            (bare_round made standing view))) sender vote.now).blocks) out.new.blocks) }
    {
        let rounds = &mut self.rounds;
        if let Some(heard) = rounds.add_network(view, leader, sender, vote, out)? {
            return Ok(heard);
        }
        let mut kept = self.new_kept(view)?;
        let heard = hear(&mut kept.round, leader, sender, vote, out)?;
        self.rounds.put(view, kept)?;
        Ok(heard)
    }

    /// A vote from the network, by the round of its view.
    fn hear(
        &mut self,
        sender: Participant,
        vote: &Vote,
        dirty: &mut Marked,
        work: &mut StepOut,
    ) -> Result<Heard, AllocError>
        ensures stands { OnOk result (Marks self.old work.old dirty.old self.new work.new dirty.new
            (λ made doing. heard_at made sender vote.now doing)) }
        ensures accepted { IfOk result (λ heard. Reads self.old (λ made standing. (heard_from (known_in
            (round_for made standing
            (vote_view vote.now))) sender vote.now).accepted) heard.accepted) }
        ensures nullified { IfOk result (λ heard. Reads self.old
            (λ made standing. some_passes
            (has_nullify (known_in (called (AddNetwork sender vote.now) (round_for made standing
            (vote_view vote.now))))) (lead_of made standing
            (vote_view vote.now))) heard.nullified) }
    {
        let view = vote.view();
        let leader = self.leader_at(view);
        let mut out = RoundOut::new(self.alloc);
        let heard = self.hear_at(view, &leader, sender, vote, &mut out)?;
        publish_heard(self.alloc, work, heard.accepted, vote, out)?;
        dirty.mark(heard.accepted, view)?;
        Ok(heard)
    }

    /// A vote from the network, where it is still of use.
    #[tactic(auto, unfolding(model_steps::specs::Batcher::took_vote))]
    pub(crate) fn take_vote(
        &mut self,
        sender: Participant,
        vote: &Vote,
        dirty: &mut Marked,
        work: &mut StepOut,
    ) -> Result<(), AllocError>
        ensures { OnOk result (Marks self.old work.old dirty.old self.new work.new dirty.new
            (λ made. took_vote made sender vote.now)) }
    {
        let view = vote.view();
        if !self.admits_vote(view) {
            return Ok(());
        }
        let Heard {
            accepted,
            nullified,
        } = self.hear(sender, vote, dirty, work)?;
        self.hint_at_vote(view, accepted, nullified, work)?;
        Ok(())
    }

    /// An own vote, by the round of its view.
    fn hear_own(
        &mut self,
        vote: Vote,
        dirty: &mut Marked,
        work: &mut StepOut,
    ) -> Result<(), AllocError>
        ensures { OnOk result (Marks self.old work.old dirty.old self.new work.new dirty.new
            (λ made doing. own_heard_at made vote doing)) }
    {
        let view = vote.view();
        self.make_round(view)?;
        let mut out = RoundOut::new(self.alloc);
        let accepted = self.rounds.accept_vote(view, vote, &mut out)?;
        publish(self.alloc, work, out)?;
        dirty.mark(accepted, view)?;
        Ok(())
    }

    /// An own vote, where its view is kept.
    #[tactic(auto, unfolding(model_steps::specs::Batcher::took_constructed))]
    pub(crate) fn take_constructed(
        &mut self,
        vote: Vote,
        dirty: &mut Marked,
        work: &mut StepOut,
    ) -> Result<(), AllocError>
        ensures { OnOk result (Marks self.old work.old dirty.old self.new work.new dirty.new
            (λ made. took_constructed made vote)) }
    {
        if !self.retains(vote.view()) {
            return Ok(());
        }
        self.hear_own(vote, dirty, work)?;
        Ok(())
    }
}
