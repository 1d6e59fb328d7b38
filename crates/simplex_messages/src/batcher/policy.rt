//! What becomes of a message to a batcher whose mailbox has no room.
ghost use Rattle.std.specs.Prelude.{◌≡◌, false, not, filter};
ghost use Rattle.std.specs.List.{list_any};
ghost use Rattle.simplex_messages.specs.declared.batcher.Message.TheVariants as messages;
ghost use Rattle.simplex_messages.specs.Policies.{outdates, outdates_message, is_as_great, is_outdated, stands_for_batcher, batcher_handled};

use super::{Message, Pending};
use crate::alike::is_same_kind;
use simplex_mailbox::{Policy, Requested};
use simplex_types::{View, Vote};
use std::alloc::AllocError;
use std::collections::VecDeque;

impl Requested for Message {
    ghost is_skipped = { λ _. false };

    ghost leave = { λ _ message. message };

    fn is_skipped(&self) -> bool {
        false
    }

    fn leave(&mut self, _id: u64) {}
}

#[tactic(auto, unfolding(crate::specs::Policies::batcher_handled))]
impl Policy for Message {
    type Overflow = Pending;

    ghost handle = { batcher_handled };

    fn handle(pending: &mut Pending, message: Message) -> Result<(), AllocError> {
        let queue = &mut pending.queue;
        match &message {
            Message::Update {
                current,
                finalized,
                ..
            } => {
                if is_as_great(&queue.place, *current, *finalized) {
                    return Ok(());
                }
                keep_needed(&mut queue.rest, *current, *finalized);
                queue.place = Some(message);
                Ok(())
            }
            Message::Constructed(vote) => {
                if is_outdated(&queue.place, vote) || has_one_for(&queue.rest, vote) {
                    return Ok(());
                }
                queue.push(message)
            }
        }
    }
}

impl Message {
    /// Whether it is a vote that an update to this current and this finalized view makes needless.
    fn is_outdated_at(&self, current: View, finalized: View) -> bool
        ensures { result ≡ outdates_message current finalized self.now }
    {
        match self {
            Message::Constructed(vote) => outdates(current, finalized, vote),
            Message::Update { .. } => false,
        }
    }

    /// Whether it is a vote of this one's view and kind.
    fn stands_for(&self, vote: &Vote) -> bool
        ensures { result ≡ stands_for_batcher self.now (messages.Constructed vote.now) }
    {
        match self {
            Message::Constructed(queued) => {
                queued.view() == vote.view() && is_same_kind(queued.kind(), vote.kind())
            }
            Message::Update { .. } => false,
        }
    }
}

/// Whether an update to this current and this finalized view makes the vote needless.
fn outdates(current: View, finalized: View, vote: &Vote) -> bool
    ensures { result ≡ outdates current finalized vote.now }
{
    match vote {
        Vote::Finalize(vote) => vote.view() <= finalized,
        _ => vote.view() < current || vote.view() <= finalized,
    }
}

/// Whether an update is queued that is as great, by the current view and then by the finalized one.
fn is_as_great(place: &Option<Message>, current: View, finalized: View) -> bool
    ensures { result ≡ is_as_great place.now current finalized }
{
    match place {
        Some(
            Message::Update {
                current: c,
                finalized: f,
                ..
            },
        ) => current < *c || *c == current && finalized <= *f,
        _ => false,
    }
}

/// Whether an update is queued that makes the vote needless.
fn is_outdated(place: &Option<Message>, vote: &Vote) -> bool
    ensures { result ≡ is_outdated place.now vote.now }
{
    match place {
        Some(
            Message::Update {
                current,
                finalized,
                ..
            },
        ) => outdates(*current, *finalized, vote),
        _ => false,
    }
}

/// Drops the votes that an update to this current and this finalized view makes needless.
fn keep_needed(rest: &mut VecDeque<Message>, current: View, finalized: View)
    ensures { rest.new.items
        ≡ filter (λ queued. not (outdates_message current finalized queued)) rest.old.items }
{
    rest.retain(|queued| !queued.is_outdated_at(current, finalized));
}

/// Whether a vote of this one's view and kind is queued.
#[tactic(auto, using(crate::proofs::Halves::any_of_both))]
fn has_one_for(rest: &VecDeque<Message>, vote: &Vote) -> bool
    ensures { result ≡ list_any
        (λ queued. stands_for_batcher queued (messages.Constructed vote.now)) rest.now.items }
{
    // Two slices are gone through faster than a queue.
    let (front, back) = rest.as_slices();
    is_one_for(front, vote) || is_one_for(back, vote)
}

/// Whether one of them is a vote of this one's view and kind.
fn is_one_for(queued: &[Message], vote: &Vote) -> bool
    ensures { result ≡ list_any
        (λ queued. stands_for_batcher queued (messages.Constructed vote.now)) queued.now }
{
    queued.iter().any(|queued| queued.stands_for(vote))
}
