//! What a crew does with an input.
#![tactic(auto, unfolding(crate::specs::Stands::CrewStands))]

ghost use Rattle.std.specs.Prelude.{◌≡◌, ◌<◌, ◌^◌, ℕ, Bool, true, false, OnOk, IfOk, IfErr, IfNone, None, Some};
ghost use Rattle.simplex_mailbox.specs.Mail.{received};
ghost use Rattle.simplex_messages.specs.Step.{no_out};
ghost use Rattle.simplex_values.specs.declared.plan.Channel.TheVariants as channels;
ghost use Rattle.simplex_messages.specs.declared.step.Outcome.TheVariants as outcomes;
ghost use Rattle.simplex_engine.specs.declared.error.PollError.TheVariants as poll_errors;
ghost use Rattle.simplex_transcript.specs.declared.event.StepSource.TheVariants as sources;
ghost use Rattle.model_steps.specs.Engine.{heard, let_in, stepped, replied, takes_reply};
ghost use Rattle.simplex_engine.specs.Parts.{after_voter_mail, after_batcher_mail};
ghost use Rattle.simplex_engine.specs.Polled.{polled, is_taken};
ghost use Rattle.simplex_voter.specs.Actor.{journal_of};
ghost use Rattle.simplex_voter.specs.Turned.{FaultsAt};
ghost use Rattle.simplex_engine.specs.Stands.{CrewAnswersAs, CrewDoes, CrewGivesAs, CrewRefuses, CrewStaysAs, CrewTakesAs, TellsAs, WorksAs, faults_in};

use crate::crew::Crew;
use crate::error::PollError;
use crate::input::{Input, Polled, TakenInside};
use crate::working::polled;
use simplex_journal::Journal;
use simplex_messages::{BatcherInput, Handed, Outcome, StepOut, Stop, VoterInput, batcher, voter};
use simplex_transcript::StepSource;
use simplex_types::elector::Elector;
use simplex_types::{Answer, Bytes, Channel, Keep, Participant, Scheme};
use std::alloc::AllocError;

impl<S: Scheme + Drop, L: Elector + Drop, J: Journal + Drop> Crew<S, L, J> {
    /// Does what the input asks for. An answer that is not taken changes nothing.
    pub(crate) fn poll(
        &mut self,
        input: Input,
        now: u64,
        stop: &Stop,
        out: &mut StepOut,
    ) -> Result<Polled, PollError>
        requires clock { now < 2 ^ 63 }
        requires empty { out.old ≡ no_out }
        ensures does { IfOk result (λ given. CrewDoes self.old self.new stop.now
            (λ turned made past. polled made past input now turned) given out.new) }
        ensures accepted { OnOk result ((told : Bool)
            → CrewAnswersAs told self.old (λ made past. is_taken made past input) true) }
        ensures refused { IfErr result (CrewRefuses self.old self.new input) }
    {
        match input {
            Input::Deliver {
                sender,
                channel,
                bytes,
            } => Ok(self.deliver(sender, channel, bytes, now, out)?),
            Input::Step(source) => match source {
                StepSource::Batcher => Ok(self.step_on_batcher_mail(now, stop, out)?),
                StepSource::Voter => Ok(self.step_on_voter_mail(now, stop, out)?),
                StepSource::Timer => Ok(self.step_on_timer(now, stop, out)?),
                StepSource::Propose => Ok(self.step_on_proposal(now, stop, out)?),
                StepSource::Verify => Ok(self.step_on_verify(now, stop, out)?),
                StepSource::Certify => Ok(self.step_on_certify(now, stop, out)?),
                StepSource::Resolver => Ok(self.step_on_resolver_mail(now, stop, out)?),
                StepSource::Handler => Ok(self.step_on_handler_mail(now, stop, out)?),
                StepSource::Fetch => Ok(self.step_on_fetcher(now, stop, out)?),
            },
            Input::Answer { request, answer } => {
                let given = self.reply(request, answer)?;
                Ok(given)
            }
        }
    }

    /// A packet of the network is heard. One of a member that is blocked is refused.
    fn deliver(
        &mut self,
        sender: Participant,
        channel: Channel,
        bytes: Bytes,
        now: u64,
        out: &mut StepOut,
    ) -> Result<Polled, AllocError>
        requires clock { now < 2 ^ 63 }
        requires empty { out.old ≡ no_out }
        ensures stands { OnOk result ((told : Bool)
            → CrewTakesAs told self.old self.new
            (λ made past. heard made past sender channel bytes now)) }
        ensures gives { IfOk result (λ given. (told : Bool) → CrewGivesAs told self.old
            (λ made past. heard made past sender channel bytes now) given.outcome out.new) }
        ensures taken { IfOk result (λ given. given.taken ≡ None) }
        ensures faults { IfOk result
            (λ given. FaultsAt given.outcome (faults_in self.old) (faults_in self.new)) }
        ensures journal { OnOk result (journal_of self.new.voter ≡ journal_of self.old.voter) }
    {
        if self.is_blocked(sender) {
            return Ok(polled(Outcome::Refused, None));
        }
        let given = self.let_in(sender, channel, bytes, now, out)?;
        Ok(given)
    }

    /// A packet of a member that is not blocked goes to the actor of its channel. [refused-is-delivered]
    fn let_in(
        &mut self,
        sender: Participant,
        channel: Channel,
        bytes: Bytes,
        now: u64,
        out: &mut StepOut,
    ) -> Result<Polled, AllocError>
        requires clock { now < 2 ^ 63 }
        requires empty { out.old ≡ no_out }
        ensures stands { OnOk result ((told : Bool)
            → CrewTakesAs told self.old self.new
            (λ made past. let_in made past sender channel bytes now)) }
        ensures gives { IfOk result (λ given. (told : Bool) → CrewGivesAs told self.old
            (λ made past. let_in made past sender channel bytes now) given.outcome out.new) }
        ensures taken { IfOk result (λ given. given.taken ≡ None) }
        ensures faults { IfOk result
            (λ given. FaultsAt given.outcome (faults_in self.old) (faults_in self.new)) }
        ensures journal { OnOk result (journal_of self.new.voter ≡ journal_of self.old.voter) }
    {
        match channel {
            Channel::Vote => self.hear_vote(sender, bytes, now, out),
            Channel::Certificate => self.hear_certificate(sender, bytes, now, out),
            Channel::Resolver => self.hear_resolver(sender, bytes, now, out),
        }
    }

    /// A packet of the vote channel goes to the batcher.
    fn hear_vote(
        &mut self,
        sender: Participant,
        bytes: Bytes,
        now: u64,
        out: &mut StepOut,
    ) -> Result<Polled, AllocError>
        requires clock { now < 2 ^ 63 }
        requires empty { out.old ≡ no_out }
        ensures stands { OnOk result ((told : Bool) → CrewTakesAs told self.old self.new
            (λ made past. let_in made past sender channels.Vote bytes now)) }
        ensures gives { IfOk result (λ given. (told : Bool) → CrewGivesAs told self.old
            (λ made past. let_in made past sender channels.Vote bytes now) given.outcome out.new) }
        ensures taken { IfOk result (λ given. given.taken ≡ None) }
        ensures faults { IfOk result
            (λ given. FaultsAt given.outcome (faults_in self.old) (faults_in self.new)) }
        ensures journal { OnOk result (journal_of self.new.voter ≡ journal_of self.old.voter) }
    {
        let input = BatcherInput::Vote { sender, bytes };
        let outcome = self.step_batcher(input, now, &Stop::None, out)?;
        Ok(polled(outcome, None))
    }

    /// A packet of the certificate channel goes to the batcher.
    fn hear_certificate(
        &mut self,
        sender: Participant,
        bytes: Bytes,
        now: u64,
        out: &mut StepOut,
    ) -> Result<Polled, AllocError>
        requires clock { now < 2 ^ 63 }
        requires empty { out.old ≡ no_out }
        ensures stands { OnOk result ((told : Bool) → CrewTakesAs told self.old self.new
            (λ made past. let_in made past sender channels.Certificate bytes now)) }
        ensures gives { IfOk result (λ given. (told : Bool) → CrewGivesAs told self.old
            (λ made past. let_in made past sender channels.Certificate bytes now) given.outcome out.new) }
        ensures taken { IfOk result (λ given. given.taken ≡ None) }
        ensures faults { IfOk result
            (λ given. FaultsAt given.outcome (faults_in self.old) (faults_in self.new)) }
        ensures journal { OnOk result (journal_of self.new.voter ≡ journal_of self.old.voter) }
    {
        let input = BatcherInput::Certificate { sender, bytes };
        let outcome = self.step_batcher(input, now, &Stop::None, out)?;
        Ok(polled(outcome, None))
    }

    /// The application answers a request.
    fn reply(&mut self, request: u64, answer: Answer) -> Result<Polled, PollError>
        ensures stands { OnOk result ((told : Bool) (now : ℕ)
            → CrewTakesAs told self.old self.new (λ made past. replied request answer now)) }
        ensures given { IfOk result (λ given. given
            ≡ record { outcome = outcomes.Done; taken = None }) }
        ensures accepted { OnOk result ((told : Bool)
            → CrewAnswersAs told self.old
            (λ made past. takes_reply made past request answer) true) }
        ensures refused { IfErr result (λ e. (e ≡ poll_errors.NotPending)
            × ((told : Bool) → CrewAnswersAs told self.old
            (λ made past. takes_reply made past request answer) false) × ((told : Bool)
            → CrewStaysAs told self.old self.new)
            × (journal_of self.new.voter ≡ journal_of self.old.voter)) }
        ensures journal { OnOk result (journal_of self.new.voter ≡ journal_of self.old.voter) }
    {
        if self.answer(request, answer) {
            Ok(polled(Outcome::Done, None))
        } else {
            Err(PollError::NotPending)
        }
    }

    /// The front of the batcher's mailbox goes to the batcher.
    fn step_on_batcher_mail(
        &mut self,
        now: u64,
        stop: &Stop,
        out: &mut StepOut,
    ) -> Result<Polled, AllocError>
        requires clock { now < 2 ^ 63 }
        requires empty { out.old ≡ no_out }
        ensures { IfOk result (λ given. CrewDoes self.old self.new stop.now
            (λ turned made past. stepped made past sources.Batcher now turned) given out.new) }
    {
        let Some(message) = self.take_batcher_mail() else {
            return Ok(polled(Outcome::Idle, None));
        };
        let copy = message.keep(self.alloc)?;
        let outcome = self.step_batcher(BatcherInput::Mail(message), now, stop, out)?;
        let taken = TakenInside::Message(Handed::Batcher(copy));
        Ok(polled(outcome, Some(taken)))
    }

    /// The front of the voter's mailbox goes to the voter.
    fn step_on_voter_mail(
        &mut self,
        now: u64,
        stop: &Stop,
        out: &mut StepOut,
    ) -> Result<Polled, AllocError>
        requires clock { now < 2 ^ 63 }
        requires empty { out.old ≡ no_out }
        ensures { IfOk result (λ given. CrewDoes self.old self.new stop.now
            (λ turned made past. stepped made past sources.Voter now turned) given out.new) }
    {
        let Some(message) = self.take_voter_mail() else {
            return Ok(polled(Outcome::Idle, None));
        };
        let copy = message.keep(self.alloc)?;
        let outcome = self.step_voter(VoterInput::Mail(message), now, stop, out)?;
        let taken = TakenInside::Message(Handed::Voter(copy));
        Ok(polled(outcome, Some(taken)))
    }

    /// Takes the front of the batcher's mailbox.
    fn take_batcher_mail(&mut self) -> Option<batcher::Message>
        ensures message { (told : Bool)
            → TellsAs told self.old (λ parts. received parts.to_batcher) result }
        ensures takes { (told : Bool) → WorksAs told self.old self.new after_batcher_mail }
        ensures none { IfNone result ((told : Bool)
            → WorksAs told self.old self.new (λ parts. parts)) }
        ensures journal { journal_of self.new.voter ≡ journal_of self.old.voter }
    {
        self.boxes.batcher.recv()
    }

    /// Takes the front of the voter's mailbox.
    fn take_voter_mail(&mut self) -> Option<voter::Message>
        ensures message { (told : Bool)
            → TellsAs told self.old (λ parts. received parts.to_voter) result }
        ensures takes { (told : Bool) → WorksAs told self.old self.new after_voter_mail }
        ensures none { IfNone result ((told : Bool)
            → WorksAs told self.old self.new (λ parts. parts)) }
        ensures journal { journal_of self.new.voter ≡ journal_of self.old.voter }
    {
        self.boxes.voter.recv()
    }

    /// The deadline of the voter, where the clock has reached it.
    fn step_on_timer(
        &mut self,
        now: u64,
        stop: &Stop,
        out: &mut StepOut,
    ) -> Result<Polled, AllocError>
        requires clock { now < 2 ^ 63 }
        requires empty { out.old ≡ no_out }
        ensures { IfOk result (λ given. CrewDoes self.old self.new stop.now
            (λ turned made past. stepped made past sources.Timer now turned) given out.new) }
    {
        let outcome = self.step_voter(VoterInput::Timer, now, stop, out)?;
        Ok(polled(outcome, Some(TakenInside::Deadline)))
    }

    /// The answer of the pending proposal request, or a held payload whose parent is certified.
    fn step_on_proposal(
        &mut self,
        now: u64,
        stop: &Stop,
        out: &mut StepOut,
    ) -> Result<Polled, AllocError>
        requires clock { now < 2 ^ 63 }
        requires empty { out.old ≡ no_out }
        ensures { IfOk result (λ given. CrewDoes self.old self.new stop.now
            (λ turned made past. stepped made past sources.Propose now turned) given out.new) }
    {
        let given = self.step_on_answer(VoterInput::Propose, now, stop, out)?;
        Ok(given)
    }

    /// The answer of the open Verify.
    fn step_on_verify(
        &mut self,
        now: u64,
        stop: &Stop,
        out: &mut StepOut,
    ) -> Result<Polled, AllocError>
        requires clock { now < 2 ^ 63 }
        requires empty { out.old ≡ no_out }
        ensures { IfOk result (λ given. CrewDoes self.old self.new stop.now
            (λ turned made past. stepped made past sources.Verify now turned) given out.new) }
    {
        let given = self.step_on_answer(VoterInput::Verify, now, stop, out)?;
        Ok(given)
    }

    /// The first answer of an open Certify.
    fn step_on_certify(
        &mut self,
        now: u64,
        stop: &Stop,
        out: &mut StepOut,
    ) -> Result<Polled, AllocError>
        requires clock { now < 2 ^ 63 }
        requires empty { out.old ≡ no_out }
        ensures { IfOk result (λ given. CrewDoes self.old self.new stop.now
            (λ turned made past. stepped made past sources.Certify now turned) given out.new) }
    {
        let given = self.step_on_answer(VoterInput::Certify, now, stop, out)?;
        Ok(given)
    }
}
