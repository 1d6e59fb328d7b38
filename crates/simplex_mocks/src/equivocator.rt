//! A leader that proposes two payloads.
ghost use Rattle.std.specs.Prelude.{◌≡◌, ◌∷◌, ◌||◌, ◌==◌, ◌<◌, ◌-◌, ◌^◌, [], ℕ, List, IfOk, OnOk, IfSome, OnSome, Some, None};
ghost use Rattle.model_faults.specs.Heard.{Heard, certificate_heard};
ghost use Rattle.model_faults.specs.Equivocator.{Made, was_heard, proposal_in, equivocator_sends};
ghost use Rattle.model_faults.specs.Words.{Words};
ghost use Rattle.simplex_mocks.specs.Drawing.{words_left};
ghost use Rattle.simplex_mocks.specs.Equivocating.{StandsFor, OfItsPast, made_of, has_view, speaker};
ghost use Rattle.simplex_mocks.specs.Hearing.{bytes_heard};

use crate::drawing::draw_three;
use crate::hearing::heard_proposal;
use crate::proposing::{equivocate, next_leader, next_round};
use crate::views::Views;
use model_faults::Sent;
use rand_chacha::ChaCha8Rng;
use simplex_types::elector::Elector;
use simplex_types::{Channel, Epoch, Participant, Proposal, Scheme, Sequence};
use std::alloc::{AllocError, Global};

/// What an equivocator is made with.
#[derive(Debug, Drop)]
pub struct Config<S, L> {
    /// Signs its votes.
    pub scheme: S,
    /// Tells when it leads.
    pub elector: L,
    /// The epoch in which it votes.
    pub epoch: Epoch,
    /// Gives it victims and payloads.
    pub random: ChaCha8Rng,
}

/// A member that proposes two payloads where it leads: one to one member, the other to the rest.
#[derive(Drop)]
pub struct Equivocator<S, L> {
    scheme: S,
    elector: L,
    epoch: Epoch,
    random: ChaCha8Rng,
    heard: Views,
}

impl<S: Scheme, L: Elector> Equivocator<S, L> {
    /// An equivocator that heard nothing.
    #[tactic(auto, unfolding(crate::specs::Opened::equivocations), using(crate::proofs::Words::left_draws))]
    pub fn new(alloc: Global, config: Config<S, L>) -> Equivocator<S, L>
        ensures { StandsFor S.attests S.member S.members L.elects result
            (made_of S.attests S.member S.members L.elects config.scheme config.elector config.epoch
            (words_left config.random)) [] }
    {
        Equivocator {
            scheme: config.scheme,
            elector: config.elector,
            epoch: config.epoch,
            random: config.random,
            heard: Views::new(alloc),
        }
    }

    /// Who is to answer the proposal of a certificate: it, where it leads the view after the proposal's, and had not
    /// heard of that one before.
    #[tactic(auto, unfolding(crate::specs::Equivocating::StandsFor))]
    fn speaker(&mut self, parent: &Proposal) -> Result<Option<Participant>, AllocError>
        ensures room { IfOk result (λ who. OnSome who (parent.now.round.view < 2 ^ 64 - 1)) }
        ensures others { IfOk result (λ who. OnSome who (1 < S.members self.new.scheme)) }
        ensures below { IfOk result (λ who. IfSome who (λ me. me < S.members self.new.scheme)) }
        ensures who { OfItsPast S.attests S.member S.members L.elects self.old
            (λ made before. IfOk result (λ who. who ≡ speaker made before parent.now)) }
        ensures heard { OfItsPast S.attests S.member S.members L.elects self.old (λ made before. OnOk result ((view : ℕ)
            → has_view self.new.heard view
            ≡ (view == parent.now.round.view || was_heard before view))) }
        ensures scheme { self.new.scheme ≡ self.old.scheme }
        ensures elector { self.new.elector ≡ self.old.elector }
        ensures epoch { self.new.epoch ≡ self.old.epoch }
        ensures random { self.new.random ≡ self.old.random }
    {
        let leader = next_leader(&self.scheme, &self.elector, self.epoch, parent.view());
        if self.heard.insert(parent.round.view)? {
            Ok(leader)
        } else {
            Ok(None)
        }
    }

    /// The votes on the proposal of a certificate, if it is to answer it.
    fn answer(&mut self, alloc: Global, parent: &Proposal) -> Result<Sequence<Sent>, AllocError>
        ensures sends { (made : Made) (before : List Heard) (heard : Heard)
            → proposal_in (certificate_heard heard) ≡ Some parent.now
            → StandsFor S.attests S.member S.members L.elects self.old made before
            → IfOk result (λ sent. sent ≡ equivocator_sends made before heard) }
        ensures stands { (made : Made) (before : List Heard) (heard : Heard)
            → proposal_in (certificate_heard heard) ≡ Some parent.now
            → StandsFor S.attests S.member S.members L.elects self.old made before
            → OnOk result (StandsFor S.attests S.member S.members L.elects self.new made (heard ∷ before)) }
    {
        match self.speaker(parent)? {
            None => Ok(Sequence::new(alloc)),
            Some(me) => {
                let words = draw_three(&mut self.random);
                let round = next_round(self.epoch, parent.round.view);
                equivocate(alloc, &self.scheme, &round, me, parent, words)
            }
        }
    }

    /// What it sends on hearing the bytes.
    pub fn hear(
        &mut self,
        alloc: Global,
        channel: Channel,
        bytes: &[u8],
    ) -> Result<Sequence<Sent>, AllocError>
        // The votes of the definition.
        ensures sends { OfItsPast S.attests S.member S.members L.elects self.old
            (λ made before. IfOk result
            (λ sent. sent ≡ equivocator_sends made before (bytes_heard channel bytes.now))) }
        // It has heard this too.
        ensures stands { OfItsPast S.attests S.member S.members L.elects self.old (λ made before. OnOk result
            (StandsFor S.attests S.member S.members L.elects self.new made
            (bytes_heard channel bytes.now ∷ before))) }
    {
        match heard_proposal(alloc, channel, bytes)? {
            None => Ok(Sequence::new(alloc)),
            Some(parent) => self.answer(alloc, &parent),
        }
    }
}
