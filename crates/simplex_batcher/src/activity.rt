//! Which members were seen of late.
ghost use Rattle.std.specs.Prelude.{◌≡◌, length, filter, OnOk};
ghost use Rattle.std.specs.List.{range_with_len};
ghost use Rattle.model_steps.specs.Batcher.{is_active, was_seen, required_active, seen_now};
ghost use Rattle.simplex_batcher.specs.Activity.{seen_in};
ghost use Rattle.simplex_batcher.specs.Stands.{Moves, Reads};

use crate::actor::Actor;
use crate::seen::Seen;
use simplex_types::{Participant, Scheme, quorum};
use std::alloc::AllocError;

/// Whether the member was seen since.
#[tactic(auto, unfolding(crate::specs::Activity::seen_in))]
fn was_seen_in(seen: &Seen, since: u64, member: Participant) -> bool
    ensures { result ≡ seen_in seen.now since member }
{
    match seen.last(member) {
        None => false,
        Some(last) => since <= last,
    }
}

/// How many of the first members were seen since.
fn count_seen(seen: &Seen, since: u64, members: u32) -> u32
    ensures { result ≡ length (filter (seen_in seen.now since) (range_with_len 0 members)) }
{
    let mut count = 0;
    for member in 0..members {
        count += u32::from(was_seen_in(seen, since, Participant(member)));
    }
    count
}

impl<S: Scheme + Drop> Actor<S> {
    /// How many members must have been seen for the others to count as gone: a quorum, less this member where
    /// it is one.
    #[tactic(auto, unfolding(crate::specs::Stands::batcher_made, model_steps::specs::Batcher::required_active))]
    fn required_active(&self) -> u32
        ensures { Reads self.now (λ made standing. required_active made) result }
    {
        let quorum = quorum(self.config.scheme.participants());
        if self.config.scheme.me().is_some() {
            return quorum.saturating_sub(1);
        }
        quorum
    }

    /// Whether the member was seen since.
    #[tactic(auto, unfolding(crate::specs::Activity::seen_in, model_steps::specs::Batcher::was_seen))]
    fn was_seen(&self, since: u64, member: Participant) -> bool
        ensures { Reads self.now (λ made standing. was_seen standing since member) result }
    {
        was_seen_in(&self.seen, since, member)
    }

    /// Whether the member was seen within this time, or too few members were to tell.
    #[tactic(auto, unfolding(crate::specs::Stands::batcher_made, model_steps::specs::Batcher::is_active))]
    pub(crate) fn seems_active(&self, member: Participant, timeout: u64, now: u64) -> bool
        ensures { Reads self.now
            (λ made standing. is_active made standing member timeout now) result }
    {
        let since = now.saturating_sub(timeout);
        if self.was_seen(since, member) {
            return true;
        }
        self.count_active(since) < self.required_active()
    }

    /// How many members were seen since.
    #[tactic(auto, unfolding(crate::specs::Stands::batcher_made))]
    fn count_active(&self, since: u64) -> u32
        ensures { Reads self.now (λ made standing. length
            (filter (was_seen standing since) (range_with_len 0 made.members))) result }
    {
        count_seen(&self.seen, since, self.config.scheme.participants())
    }

    /// The sender is seen now.
    #[tactic(auto, unfolding(model_steps::specs::Batcher::seen_now))]
    pub(crate) fn see(&mut self, sender: Participant, now: u64) -> Result<(), AllocError>
        ensures { OnOk result (Moves self.old self.new (λ made. seen_now sender now)) }
    {
        self.seen.see(sender, now)?;
        Ok(())
    }
}
