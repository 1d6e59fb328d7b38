//! A batcher's calls: it is made, steps, and tells who is active.
#![tactic(auto, unfolding(crate::specs::Stands::StandsFor, crate::specs::Stands::batcher_made, crate::specs::Rounds::found, model_steps::specs::Batcher::standing_after))]

ghost use Rattle.std.specs.Prelude.{◌≡◌, ◌<◌, ◌^◌, [], filter_map, IfOk, OnOk};
ghost use Rattle.simplex_mailbox.specs.Post.{Posted};
ghost use Rattle.simplex_messages.specs.Step.{no_out};
ghost use Rattle.simplex_messages.specs.declared.step.Outcome.TheVariants.{Done};
ghost use Rattle.model_steps.specs.Batcher.{active_after, step_out};
ghost use Rattle.model_steps.specs.Engine.{for_voter};
ghost use Rattle.simplex_batcher.specs.Stands.{StandsFor, Takes, Answers, batcher_made};

use crate::actor::Actor;
use crate::config::Config;
use crate::rounds::Rounds;
use crate::seen::Seen;
use simplex_mailbox::Post;
use simplex_messages::{BatcherInput, Outcome, StepOut, post_to_voter, voter};
use simplex_types::{Participant, Scheme};
use std::alloc::{AllocError, Global};

impl<S: Scheme + Drop> Actor<S> {
    /// A batcher that was given nothing yet.
    #[tactic(auto, unfolding(crate::specs::Opened::beginning))]
    pub fn new(alloc: Global, config: Config<S>) -> Result<Actor<S>, AllocError>
        ensures { IfOk result
            (λ actor. StandsFor actor
            (batcher_made S.verifies S.recovers S.members S.member config) []) }
    {
        let members = config.scheme.participants();
        Ok(Actor {
            alloc,
            leader: None,
            finalized: config.floor,
            hinted: false,
            seen: Seen::new(alloc, members)?,
            rounds: Rounds::new(alloc),
            config,
        })
    }

    /// Whether the member was seen within this time, or too few members were to tell.
    #[tactic(auto, unfolding(crate::specs::Stands::StandsFor, model_steps::specs::Batcher::active_after))]
    pub fn is_active(&self, member: Participant, skip_timeout: u64, now: u64) -> bool
        ensures { Answers self.now
            (λ made past. active_after made past member skip_timeout now) result }
    {
        self.seems_active(member, skip_timeout, now)
    }

    /// A step: it takes the input, and hands on what comes of it.
    pub fn step<V: Post<voter::Message>>(
        &mut self,
        input: BatcherInput,
        now: u64,
        voter: &mut V,
        out: &mut StepOut,
    ) -> Result<Outcome, AllocError>
        requires clock { now < 2 ^ 63 }
        requires empty { out.old ≡ no_out }
        ensures stands { OnOk result (Takes self.old self.new
            (record { input = input; now = now })) }
        ensures out { OnOk result (Answers self.old
            (λ made past. step_out made past (record { input = input; now = now })) out.new) }
        ensures outcome { IfOk result (λ outcome. outcome ≡ Done) }
        ensures voter { OnOk result (Posted V.puts voter.old
            (filter_map for_voter out.new.handed) voter.new) }
    {
        self.take(&input, now, out)?;
        post_to_voter(self.alloc, out.handed.as_slice(), voter)?;
        Ok(Outcome::Done)
    }
}
