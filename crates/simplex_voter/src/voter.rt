//! A voter's calls: it is made, starts, steps, and tells what it waits for.
ghost use Rattle.std.specs.Prelude.{◌≡◌, ◌<◌, ◌^◌, List, [], Some, OnOk, IfOk};
ghost use Rattle.std.specs.List.{filter_map};
ghost use Rattle.std.specs.Option.{is_some, option_map};
ghost use Rattle.model_rules.specs.Views.{current_of};
ghost use Rattle.simplex_journal.specs.Order.{no_order};
ghost use Rattle.simplex_mailbox.specs.Post.{Posted};
ghost use Rattle.simplex_messages.specs.Step.{no_out};
ghost use Rattle.simplex_state.specs.Stands.{IsConfigured};
ghost use Rattle.model_steps.specs.Engine.{for_batcher, for_resolver};
ghost use Rattle.model_steps.specs.Voter.{takes_answer, acted};
ghost use Rattle.model_steps.specs.VoterLife.{VoterMade, Given, Answered, place_of};
ghost use Rattle.simplex_voter.specs.Actor.{DoesStart, DoesStep, state_config, voter_made, StandsFor, Takes, StandsOver, TakesOver, Answers, journal_of, next_answer};
ghost use Rattle.simplex_voter.specs.Stands.{due_at};
ghost use Rattle.simplex_voter.specs.Unanswered.{unanswered};

use crate::actor::Actor;
use crate::config::Config;
use crate::kind::AskKind;
use crate::performing::settle;
use crate::planner::Planner;
use crate::posting::post_all;
use crate::records::{list_floor, past_reading, read};
use model_rules::ProposalState;
use simplex_journal::Journal;
use simplex_mailbox::Post;
use simplex_messages::{Outcome, StepOut, Stop, VoterInput, batcher, resolver};
use simplex_state::StateConfig;
use simplex_types::elector::Elector;
use simplex_types::{Answer, Scheme, View};
use std::alloc::{AllocError, Global};

impl<S: Scheme + Drop, L: Elector + Drop, J: Journal + Drop> Actor<S, L, J> {
    /// A voter that has not started yet, over what the journal holds. Of a journal that tells which of its calls fails,
    /// and names none, more is known than of any other.
    ///
    /// Give it the clock of its start, in milliseconds: what counts from the start, as the deadlines of the first view, counts
    /// from this one.
    pub fn new(
        alloc: Global,
        config: Config<S, L>,
        journal: J,
        now: u64,
    ) -> Result<Actor<S, L, J>, AllocError>
        requires limits { IsConfigured S.members L.built_for L.cuts (state_config config) }
        requires clock { now < 2 ^ 63 }
        ensures stands { IfOk result (λ actor. J.order journal ≡ Some no_order → StandsFor actor
            (voter_made S.attests S.member L.elects L.cuts config now (J.sections journal)) []) }
        ensures over { IfOk result (λ actor. StandsOver actor
            (voter_made S.attests S.member L.elects L.cuts config now (J.sections journal)) []) }
        ensures journal { IfOk result (λ actor. journal_of actor ≡ journal) }
    {
        let settings = StateConfig {
            scheme: config.scheme,
            elector: config.elector,
            epoch: config.epoch,
            view_retention: config.view_retention,
            leader_timeout: config.leader_timeout,
            certification_timeout: config.certification_timeout,
            timeout_retry: config.timeout_retry,
            skip_budget: config.skip_budget,
            handoff: config.handoff,
            genesis: config.genesis,
        };
        let planner = Planner::new(alloc, settings, now)?;
        Ok(Actor {
            alloc,
            planner,
            floor: config.floor,
            journal,
        })
    }

    /// Starts: stands on the floor, and knows again what the journal kept. The clock is to be that of `new`.
    pub fn start<B: Post<batcher::Message>, R: Post<resolver::MailboxMessage>>(
        &mut self,
        now: u64,
        stop: &Stop,
        batcher: &mut B,
        resolver: &mut R,
        out: &mut StepOut,
    ) -> Result<Outcome, AllocError>
        requires clock { now < 2 ^ 63 }
        requires empty { out.old ≡ no_out }
        ensures does { IfOk result
            (λ outcome. DoesStart self.old self.new now stop.now outcome out.new) }
        ensures batcher { OnOk result (Posted B.puts batcher.old
            (filter_map for_batcher out.new.handed) batcher.new) }
        ensures resolver { OnOk result (Posted R.puts resolver.old
            (filter_map for_resolver out.new.handed) resolver.new) }
    {
        let outcome = self.make_start(now, stop, out)?;
        post_all(self.alloc, out.handed.as_slice(), batcher, resolver)?;
        Ok(outcome)
    }

    /// Takes what the source holds, and does what the rules say. A voter whose step was stopped is not used again.
    pub fn step<B: Post<batcher::Message>, R: Post<resolver::MailboxMessage>>(
        &mut self,
        input: VoterInput,
        now: u64,
        stop: &Stop,
        batcher: &mut B,
        resolver: &mut R,
        out: &mut StepOut,
    ) -> Result<Outcome, AllocError>
        requires clock { now < 2 ^ 63 }
        requires empty { out.old ≡ no_out }
        ensures does { IfOk result
            (λ outcome. DoesStep self.old self.new input now stop.now outcome out.new) }
        ensures batcher { OnOk result (Posted B.puts batcher.old
            (filter_map for_batcher out.new.handed) batcher.new) }
        ensures resolver { OnOk result (Posted R.puts resolver.old
            (filter_map for_resolver out.new.handed) resolver.new) }
    {
        let is_held = self.planner.plan(input, now)?;
        if !is_held {
            return Ok(Outcome::Idle);
        }
        let planned = self.planner.take_out();
        let outcome = settle(&mut self.journal, self.alloc, planned, stop, out)?;
        post_all(self.alloc, out.handed.as_slice(), batcher, resolver)?;
        Ok(outcome)
    }

    // A start, but for the messages that it hands on.
    fn make_start(
        &mut self,
        now: u64,
        stop: &Stop,
        out: &mut StepOut,
    ) -> Result<Outcome, AllocError>
        requires clock { now < 2 ^ 63 }
        requires empty { out.old ≡ no_out }
        ensures { IfOk result
            (λ outcome. DoesStart self.old self.new now stop.now outcome out.new) }
    {
        let Some(records) = read(&mut self.journal, self.alloc, stop)? else {
            list_floor(out, &self.floor, self.alloc)?;
            return Ok(Outcome::Journal);
        };
        self.planner.start(&self.floor, &records, now)?;
        let planned = self.planner.take_out();
        let later = past_reading(stop);
        let outcome = settle(&mut self.journal, self.alloc, planned, &later, out)?;
        Ok(outcome)
    }

    /// Takes the application's answer, if its request is open, unanswered and asks for such an answer. Whether it did.
    #[tactic(auto, unfolding(crate::specs::Actor::StandsFor, crate::specs::Actor::StandsOver, model_steps::specs::VoterLife::place_of))]
    pub fn answer(&mut self, request: u64, answer: Answer) -> bool
        ensures stands { Takes self.old self.new (Answered request answer) }
        ensures stands_over { TakesOver self.old self.new (Answered request answer) }
        ensures answer { Answers self.old
            (λ made past. takes_answer (place_of made past).standing request answer) result }
        ensures journal { journal_of self.new ≡ journal_of self.old }
    {
        self.planner.answer(request, answer)
    }

    /// What is known of a voter over a journal that tells that no call of it will fail is known of it over any.
    pub fn stands_over(&self)
        ensures { (made : VoterMade) (past : List Given) → StandsFor self.now made past
            → StandsOver self.now made past }
    {}

    /// Where the pending proposal stands, if there is one.
    #[tactic(auto, unfolding(crate::specs::Actor::StandsOver))]
    pub fn proposal_state(&self) -> Option<ProposalState>
        ensures { Answers self.now (λ made past. option_map
            (λ p. p.state) (place_of made past).standing.desk.proposal) result }
    {
        self.planner.proposal_state()
    }

    /// When a step of the timer is due: the clock at which [`Actor::holds`] of it turns true. Milliseconds.
    #[tactic(auto, unfolding(crate::specs::Actor::StandsOver))]
    pub fn next_deadline(&self) -> u64
        ensures { Answers self.now
            (λ made past. due_at made.rules (place_of made past).standing.desk.known) result }
    {
        self.planner.next_deadline()
    }

    /// Whether the source holds anything.
    #[tactic(auto, unfolding(crate::specs::Actor::StandsOver))]
    pub fn holds(&self, input: &VoterInput, now: u64) -> bool
        ensures { Answers self.now
            (λ made past. is_some
            (acted made.rules now (place_of made past).standing input.now)) result }
    {
        self.planner.holds(input, now)
    }

    /// The answer that a step with this source would take, and its request.
    #[tactic(auto, unfolding(crate::specs::Actor::StandsOver))]
    pub fn next_answer(&self, input: &VoterInput) -> Option<(u64, Answer)>
        ensures { Answers self.now
            (λ made past. next_answer (place_of made past).standing input.now) result }
    {
        self.planner.next_answer(input)
    }

    /// The number of the oldest open request of this kind that has no answer.
    #[tactic(auto, unfolding(crate::specs::Actor::StandsOver))]
    pub fn unanswered(&self, kind: AskKind) -> Option<u64>
        ensures { Answers self.now
            (λ made past. unanswered (place_of made past).standing kind) result }
    {
        self.planner.unanswered(kind)
    }

    /// The view that the member is in.
    #[tactic(auto, unfolding(crate::specs::Actor::StandsOver))]
    pub fn current_view(&self) -> View
        ensures { Answers self.now
            (λ made past. current_of made.rules (place_of made past).standing.desk.known) result }
    {
        self.planner.current_view()
    }

    /// The journal.
    #[tactic(auto, unfolding(crate::specs::Actor::StandsFor, crate::specs::Actor::StandsOver))]
    pub fn journal(&self) -> &J
        ensures sections { Answers self.now
            (λ made past. (place_of made past).sections) (J.sections result.now) }
        ensures whole { result.now ≡ journal_of self.now }
        ensures order { (made : VoterMade) (past : List Given) → StandsFor self.now made past
            → J.order result.now ≡ Some no_order }
    {
        &self.journal
    }

    /// The journal, of a voter that is no longer used.
    #[tactic(auto, unfolding(crate::specs::Actor::StandsFor, crate::specs::Actor::StandsOver))]
    pub fn into_journal(self) -> J
        ensures sections { Answers self
            (λ made past. (place_of made past).sections) (J.sections result) }
        ensures whole { result ≡ journal_of self }
        ensures order { (made : VoterMade) (past : List Given) → StandsFor self made past
            → J.order result ≡ Some no_order }
    {
        self.journal
    }
}
