//! What a step takes, and all that it does with it.
ghost use Rattle.std.specs.Prelude.{◌≡◌, ◌==◌, OnOk};
ghost use Rattle.simplex_messages.specs.Step.{no_out};
ghost use Rattle.simplex_messages.specs.declared.batcher.BatcherInput.TheVariants.{Mail};
ghost use Rattle.simplex_messages.specs.declared.voter.Message.{Message};
ghost use Rattle.simplex_wire.specs.Format.{whole};
ghost use Rattle.simplex_wire.specs.Message as format;
ghost use Rattle.model_steps.specs.Batcher.{acted, heard_vote, heard_certificate, step};
ghost use Rattle.simplex_batcher.specs.Working.{decoded_vote, decoded_certificate};
ghost use Rattle.simplex_batcher.specs.Stands.{Marks, Reads, WorksAs};

use crate::actor::Actor;
use crate::marks::Marked;
use crate::work::block;
use simplex_messages::{BatcherInput, StepOut, batcher, voter};
use simplex_types::{BlockCause, Certificate, DecodeError, Epoch, Participant, Scheme, Vote};
use std::alloc::AllocError;

impl<S: Scheme + Drop> Actor<S> {
    /// Whether it is this batcher's epoch.
    #[tactic(auto, unfolding(crate::specs::Stands::batcher_made))]
    fn is_of_epoch(&self, epoch: Epoch) -> bool
        ensures { Reads self.now (λ made standing. epoch == made.epoch) result }
    {
        epoch == self.config.epoch
    }

    /// A vote: its sender is seen, and blocked where the vote is of another epoch.
    #[tactic(auto, unfolding(crate::specs::Stands::batcher_made, crate::specs::Working::decoded_vote))]
    fn hear_vote(
        &mut self,
        sender: Participant,
        vote: &Vote,
        now: u64,
        dirty: &mut Marked,
        work: &mut StepOut,
    ) -> Result<(), AllocError>
        ensures { OnOk result (Marks self.old work.old dirty.old self.new work.new dirty.new
            (λ made. decoded_vote made sender vote.now now)) }
    {
        if !self.is_of_epoch(vote.epoch()) {
            block(work, sender, BlockCause::WrongEpoch)?;
            return Ok(());
        }
        self.see(sender, now)?;
        self.take_vote(sender, vote, dirty, work)?;
        Ok(())
    }

    /// A packet of the vote channel. A sender of one that does not decode is blocked.
    #[tactic(auto, unfolding(crate::specs::Working::decoded_vote, model_steps::specs::Batcher::heard_vote))]
    fn hear_vote_packet(
        &mut self,
        sender: Participant,
        bytes: &[u8],
        now: u64,
        dirty: &mut Marked,
        work: &mut StepOut,
    ) -> Result<(), AllocError>
        ensures { OnOk result (Marks self.old work.old dirty.old self.new work.new dirty.new
            (λ made. heard_vote made sender (whole format.vote bytes.now) now)) }
    {
        match Vote::decode(bytes) {
            Err(_) => {
                block(work, sender, BlockCause::Undecodable)?;
                Ok(())
            }
            Ok(vote) => {
                self.hear_vote(sender, &vote, now, dirty, work)?;
                Ok(())
            }
        }
    }

    /// A certificate: its sender is seen, and blocked where the certificate is of another epoch.
    #[tactic(auto, unfolding(crate::specs::Stands::batcher_made, crate::specs::Working::decoded_certificate))]
    fn hear_certificate(
        &mut self,
        sender: Participant,
        certificate: Certificate,
        now: u64,
        dirty: &mut Marked,
        work: &mut StepOut,
    ) -> Result<(), AllocError>
        ensures { OnOk result (Marks self.old work.old dirty.old self.new work.new dirty.new
            (λ made. decoded_certificate made sender certificate now)) }
    {
        if !self.is_of_epoch(certificate.epoch()) {
            block(work, sender, BlockCause::WrongEpoch)?;
            return Ok(());
        }
        self.see(sender, now)?;
        self.take_certificate(sender, certificate, dirty, work)?;
        Ok(())
    }

    /// A packet of the certificate channel. A sender of one that does not decode is blocked.
    #[tactic(auto, unfolding(crate::specs::Working::decoded_certificate, model_steps::specs::Batcher::heard_certificate))]
    fn hear_certificate_packet(
        &mut self,
        sender: Participant,
        bytes: &[u8],
        now: u64,
        dirty: &mut Marked,
        work: &mut StepOut,
    ) -> Result<(), AllocError>
        ensures { OnOk result (Marks self.old work.old dirty.old self.new work.new dirty.new
            (λ made. heard_certificate made sender (whole format.certificate bytes.now) now)) }
    {
        match Certificate::decode(self.alloc, bytes) {
            Err(DecodeError::Memory) => Err(AllocError),
            Err(DecodeError::Fault { .. }) => {
                block(work, sender, BlockCause::Undecodable)?;
                Ok(())
            }
            Ok(certificate) => {
                self.hear_certificate(sender, certificate, now, dirty, work)?;
                Ok(())
            }
        }
    }

    /// A message of the voter.
    #[tactic(auto, unfolding(model_steps::specs::Batcher::acted))]
    fn take_mail(
        &mut self,
        message: &batcher::Message,
        now: u64,
        dirty: &mut Marked,
        work: &mut StepOut,
    ) -> Result<(), AllocError>
        ensures { OnOk result (Marks self.old work.old dirty.old self.new work.new dirty.new
            (λ made. acted made (Mail message.now) now)) }
    {
        match message {
            batcher::Message::Update {
                current,
                leader,
                finalized,
                forwardable_proposal,
            } => {
                let (current, leader, finalized) = (*current, *leader, *finalized);
                let proposal = forwardable_proposal;
                self.take_update(current, leader, finalized, proposal, now, dirty, work)?;
                Ok(())
            }
            batcher::Message::Constructed(vote) => {
                self.take_constructed(*vote, dirty, work)?;
                Ok(())
            }
        }
    }

    /// What the step takes.
    #[tactic(auto, unfolding(model_steps::specs::Batcher::acted))]
    fn act(
        &mut self,
        input: &BatcherInput,
        now: u64,
        dirty: &mut Marked,
        work: &mut StepOut,
    ) -> Result<(), AllocError>
        ensures { OnOk result (Marks self.old work.old dirty.old self.new work.new dirty.new
            (λ made. acted made input.now now)) }
    {
        match input {
            BatcherInput::Mail(message) => {
                self.take_mail(message, now, dirty, work)?;
                Ok(())
            }
            BatcherInput::Vote { sender, bytes } => {
                self.hear_vote_packet(*sender, bytes.as_slice(), now, dirty, work)?;
                Ok(())
            }
            BatcherInput::Certificate { sender, bytes } => {
                self.hear_certificate_packet(*sender, bytes.as_slice(), now, dirty, work)?;
                Ok(())
            }
        }
    }

    /// A whole step, but for the posting.
    #[tactic(auto, unfolding(model_steps::specs::Batcher::step))]
    pub(crate) fn take(
        &mut self,
        input: &BatcherInput,
        now: u64,
        work: &mut StepOut,
    ) -> Result<(), AllocError>
        requires empty { work.old ≡ no_out }
        ensures { OnOk result (WorksAs self.old self.new work.new
            (λ made standing. step made standing (record { input = input.now; now = now }))) }
    {
        let mut dirty = Marked::new(self.alloc);
        self.act(input, now, &mut dirty, work)?;
        self.finish(&dirty, work)?;
        Ok(())
    }
}
