//! What a crew does for its resolver: packets of other members, mail, and the fetcher's deadlines.
#![tactic(auto, unfolding(crate::specs::Stands::CrewStands))]

ghost use Rattle.std.specs.Prelude.{◌≡◌, ◌<◌, ◌^◌, Bool, OnOk, IfOk, IfNone, IfSome, None};
ghost use Rattle.simplex_mailbox.specs.Mail.{received};
ghost use Rattle.simplex_messages.specs.Step.{no_out};
ghost use Rattle.simplex_values.specs.declared.plan.Channel.TheVariants as channels;
ghost use Rattle.simplex_transcript.specs.declared.event.StepSource.TheVariants as sources;
ghost use Rattle.model_resolver.specs.Resolver.{handler_message, deadline_after};
ghost use Rattle.model_resolver.specs.Views.{is_reached};
ghost use Rattle.model_steps.specs.Engine.{let_in, stepped};
ghost use Rattle.simplex_engine.specs.Parts.{after_resolver_mail, after_handler_mail};
ghost use Rattle.simplex_voter.specs.Actor.{journal_of};
ghost use Rattle.simplex_voter.specs.Turned.{FaultsAt};
ghost use Rattle.simplex_engine.specs.Stands.{CrewDoes, CrewGivesAs, CrewTakesAs, TellsAs, WorksAs, faults_in};

use crate::crew::Crew;
use crate::input::{Polled, TakenInside};
use crate::working::polled;
use simplex_journal::Journal;
use simplex_messages::resolver::{HandlerMessage, MailboxMessage};
use simplex_messages::{Handed, Outcome, ResolverInput, StepOut, Stop};
use simplex_types::elector::Elector;
use simplex_types::{Bytes, Keep, Participant, Scheme};
use std::alloc::AllocError;

impl<S: Scheme + Drop, L: Elector + Drop, J: Journal + Drop> Crew<S, L, J> {
    /// A packet of the resolver channel goes to the resolver.
    pub(crate) fn hear_resolver(
        &mut self,
        sender: Participant,
        bytes: Bytes,
        now: u64,
        out: &mut StepOut,
    ) -> Result<Polled, AllocError>
        requires clock { now < 2 ^ 63 }
        requires empty { out.old ≡ no_out }
        ensures stands { OnOk result ((told : Bool) → CrewTakesAs told self.old self.new
            (λ made past. let_in made past sender channels.Resolver bytes now)) }
        ensures gives { IfOk result (λ given. (told : Bool) → CrewGivesAs told self.old
            (λ made past. let_in made past sender channels.Resolver bytes now) given.outcome out.new) }
        ensures taken { IfOk result (λ given. given.taken ≡ None) }
        ensures faults { IfOk result
            (λ given. FaultsAt given.outcome (faults_in self.old) (faults_in self.new)) }
        ensures journal { OnOk result (journal_of self.new.voter ≡ journal_of self.old.voter) }
    {
        let input = ResolverInput::Packet { sender, bytes };
        let outcome = self.step_resolver(input, now, &Stop::None, out)?;
        Ok(polled(outcome, None))
    }

    /// The front of the resolver's mailbox goes to the resolver.
    pub(crate) fn step_on_resolver_mail(
        &mut self,
        now: u64,
        stop: &Stop,
        out: &mut StepOut,
    ) -> Result<Polled, AllocError>
        requires clock { now < 2 ^ 63 }
        requires empty { out.old ≡ no_out }
        ensures { IfOk result (λ given. CrewDoes self.old self.new stop.now
            (λ turned made past. stepped made past sources.Resolver now turned) given out.new) }
    {
        let Some(message) = self.take_resolver_mail() else {
            return Ok(polled(Outcome::Idle, None));
        };
        let copy = message.keep(self.alloc)?;
        let outcome = self.step_resolver(ResolverInput::Mail(message), now, stop, out)?;
        let taken = TakenInside::Message(Handed::Resolver(copy));
        Ok(polled(outcome, Some(taken)))
    }

    /// The front of the mailbox of the resolver's handler goes to the resolver. [taken-before-the-step]
    pub(crate) fn step_on_handler_mail(
        &mut self,
        now: u64,
        stop: &Stop,
        out: &mut StepOut,
    ) -> Result<Polled, AllocError>
        requires clock { now < 2 ^ 63 }
        requires empty { out.old ≡ no_out }
        ensures { IfOk result (λ given. CrewDoes self.old self.new stop.now
            (λ turned made past. stepped made past sources.Handler now turned) given out.new) }
    {
        let Some(message) = self.take_handler_mail() else {
            return Ok(polled(Outcome::Idle, None));
        };
        let copy = message.keep(self.alloc)?;
        let outcome = self.step_resolver(ResolverInput::Handler(message), now, stop, out)?;
        let taken = TakenInside::Message(Handed::Handler(copy));
        Ok(polled(outcome, Some(taken)))
    }

    /// The least deadline of the fetcher, where the clock has reached it.
    pub(crate) fn step_on_fetcher(
        &mut self,
        now: u64,
        stop: &Stop,
        out: &mut StepOut,
    ) -> Result<Polled, AllocError>
        requires clock { now < 2 ^ 63 }
        requires empty { out.old ≡ no_out }
        ensures { IfOk result (λ given. CrewDoes self.old self.new stop.now
            (λ turned made past. stepped made past sources.Fetch now turned) given out.new) }
    {
        if !self.is_fetch_due(now) {
            return Ok(polled(Outcome::Idle, None));
        }
        let outcome = self.step_resolver(ResolverInput::Timer, now, stop, out)?;
        Ok(polled(outcome, Some(TakenInside::Deadline)))
    }

    /// Takes the front of the resolver's mailbox.
    fn take_resolver_mail(&mut self) -> Option<MailboxMessage>
        ensures message { (told : Bool)
            → TellsAs told self.old (λ parts. received parts.to_resolver) result }
        ensures takes { (told : Bool) → WorksAs told self.old self.new after_resolver_mail }
        ensures none { IfNone result ((told : Bool)
            → WorksAs told self.old self.new (λ parts. parts)) }
        ensures journal { journal_of self.new.voter ≡ journal_of self.old.voter }
    {
        self.boxes.resolver.recv()
    }

    /// Takes the front of the mailbox of the resolver's handler.
    fn take_handler_mail(&mut self) -> Option<HandlerMessage>
        ensures message { (told : Bool)
            → TellsAs told self.old (λ parts. handler_message parts.resolver parts.asked) result }
        ensures takes { IfSome result (λ _. (told : Bool)
            → WorksAs told self.old self.new after_handler_mail) }
        ensures none { IfNone result ((told : Bool)
            → WorksAs told self.old self.new (λ parts. parts)) }
        ensures journal { journal_of self.new.voter ≡ journal_of self.old.voter }
    {
        if self.resolver.holds_handler() {
            self.resolver.take_handler()
        } else {
            None
        }
    }

    /// Whether the clock has reached a deadline of the fetcher.
    pub(crate) fn is_fetch_due(&self, now: u64) -> bool
        ensures { (told : Bool) → TellsAs told self.now
            (λ parts. is_reached now (deadline_after parts.resolver parts.asked)) result }
    {
        is_reached(now, self.resolver.next_deadline())
    }
}

/// Whether the clock has reached the deadline, where there is one.
fn is_reached(now: u64, deadline: Option<u64>) -> bool
    ensures { result ≡ is_reached now deadline }
{
    match deadline {
        None => false,
        Some(deadline) => deadline <= now,
    }
}
