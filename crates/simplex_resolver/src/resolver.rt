//! A resolver's calls: it is made, steps, and serves the handler.
#![tactic(auto, unfolding(crate::specs::Stands::StandsFor))]

ghost use Rattle.std.specs.Prelude.{◌≡◌, ◌<◌, ◌≤◌, ◌^◌, [], filter_map, IfOk, OnOk};
ghost use Rattle.std.specs.Option.{is_some};
ghost use Rattle.simplex_mailbox.specs.Post.{Posted};
ghost use Rattle.simplex_messages.specs.Step.{no_out};
ghost use Rattle.simplex_messages.specs.declared.step.Outcome.TheVariants.{Done};
ghost use Rattle.simplex_messages.specs.Handing.{for_voter};
ghost use Rattle.model_resolver.specs.Asks.{holds_member};
ghost use Rattle.model_resolver.specs.Fetcher.{IsSoundConfig};
ghost use Rattle.model_resolver.specs.Resolver.{Stepped, HandlerTaken, Blocked, step_out, handler_message, holds_handled, deadline_after, blocked_after, validated};
ghost use Rattle.simplex_resolver.specs.Stands.{StandsFor, Takes, Answers, resolver_made};

use crate::actor::Actor;
use crate::config::Config;
use crate::work::Work;
use simplex_fetch::{FetchConfig, Fetcher};
use simplex_mailbox::{Mailbox, Post};
use simplex_messages::resolver::HandlerMessage;
use simplex_messages::{Outcome, ResolverInput, StepOut, post_to_voter, voter};
use simplex_repair::RepairState;
use simplex_types::{Certificate, Participant, Scheme, View};
use std::alloc::{AllocError, Global};

impl<S: Scheme + Drop> Actor<S> {
    /// A resolver that was given nothing yet.
    #[tactic(auto, unfolding(crate::specs::Stands::StandsFor, crate::specs::Stands::resolver_made, model_resolver::specs::Resolver::standing_after, model_resolver::specs::Resolver::at_first))]
    pub fn new(alloc: Global, config: Config<S>) -> Result<Actor<S>, AllocError>
        requires room { 0 < config.handler_size }
        requires timeout { config.fetch_timeout ≤ 2 ^ 62 }
        requires delay { config.fetch_retry_delay ≤ 2 ^ 62 }
        ensures { IfOk result
            (λ actor. StandsFor actor (resolver_made S.verifies S.members S.member config) []) }
    {
        let fetching = fetch_config(&config);
        Ok(Actor {
            alloc,
            repair: RepairState::new(alloc, config.term_length),
            fetcher: Fetcher::new(alloc, fetching),
            handler: Mailbox::new(alloc, config.handler_size)?,
            config,
        })
    }

    /// The certificate that these bytes are, where it is an answer for the view.
    pub fn validate(&self, view: View, bytes: &[u8]) -> Result<Option<Certificate>, AllocError>
        ensures { IfOk result (λ it. Answers self.now
            (λ made past. validated made view bytes.now) it) }
    {
        self.read_answer(view, bytes)
    }

    /// Takes the first message of the handler's mailbox, for a step.
    #[tactic(auto, unfolding(crate::specs::Opened::takings))]
    pub fn take_handler(&mut self) -> Option<HandlerMessage>
        ensures stands { Takes self.old self.new HandlerTaken }
        ensures message { Answers self.old (λ made past. handler_message made past) result }
        ensures held { Answers self.old (λ made past. holds_handled made past) (is_some result) }
    {
        self.handler.recv()
    }

    /// Whether the handler's mailbox holds a message.
    #[tactic(auto, unfolding(crate::specs::Stands::StandsFor, model_resolver::specs::Resolver::holds_handled))]
    pub fn holds_handler(&self) -> bool
        ensures { Answers self.now (λ made past. holds_handled made past) result }
    {
        !self.handler.is_empty()
    }

    /// The member, which others blocked, is asked nothing from now on.
    #[tactic(auto, unfolding(crate::specs::Stands::StandsFor, model_resolver::specs::Resolver::standing_after, model_resolver::specs::Resolver::after_blocking))]
    pub fn block(&mut self, member: Participant) -> Result<(), AllocError>
        ensures { OnOk result (Takes self.old self.new (Blocked member)) }
    {
        self.fetcher.block(member)
    }

    /// Whether the member is asked nothing.
    #[tactic(auto, unfolding(crate::specs::Stands::StandsFor, model_resolver::specs::Resolver::blocked_after))]
    pub fn is_blocked(&self, member: Participant) -> bool
        ensures { Answers self.now
            (λ made past. holds_member (blocked_after made past) member) result }
    {
        self.fetcher.is_blocked(member)
    }

    /// When a step of the timer is due.
    #[tactic(auto, unfolding(crate::specs::Stands::StandsFor, model_resolver::specs::Resolver::deadline_after))]
    pub fn next_deadline(&self) -> Option<u64>
        ensures { Answers self.now (λ made past. deadline_after made past) result }
    {
        self.fetcher.next_deadline()
    }

    /// A step: it takes the input, and hands on what comes of it. It ends as for want of memory once 2^62 requests
    /// were made or heard.
    pub fn step<V: Post<voter::Message>>(
        &mut self,
        input: ResolverInput,
        now: u64,
        voter: &mut V,
        out: &mut StepOut,
    ) -> Result<Outcome, AllocError>
        requires clock { now < 2 ^ 63 }
        requires empty { out.old ≡ no_out }
        ensures stands { OnOk result (Takes self.old self.new (Stepped input now)) }
        ensures out { OnOk result (Answers self.old
            (λ made past. step_out made past input now) out.new) }
        ensures outcome { IfOk result (λ outcome. outcome ≡ Done) }
        ensures voter { OnOk result (Posted V.puts voter.old
            (filter_map for_voter out.new.handed) voter.new) }
    {
        let Work {
            handed,
            blocks,
            sends,
        } = self.take(input, now)?;
        post_to_voter(self.alloc, handed.as_slice(), voter)?;
        let mut calls = blocks;
        sends.call_each(&mut calls)?;
        out.handed = handed;
        out.calls = calls;
        Ok(Outcome::Done)
    }
}

/// How the fetcher is set up. That of no member asks as member 0. [no-member-asks-as-0]
#[tactic(auto, unfolding(crate::specs::Stands::resolver_made))]
fn fetch_config<S: Scheme>(config: &Config<S>) -> FetchConfig
    requires timeout { config.now.fetch_timeout ≤ 2 ^ 62 }
    requires delay { config.now.fetch_retry_delay ≤ 2 ^ 62 }
    ensures config { result ≡ (resolver_made S.verifies S.members S.member config.now).fetching }
    ensures sound { IsSoundConfig result }
{
    FetchConfig {
        me: config.scheme.me().unwrap_or(Participant(0)),
        n: config.scheme.participants(),
        fetch_timeout: config.fetch_timeout,
        fetch_retry_delay: config.fetch_retry_delay,
    }
}
