//! The engine of a member, and what it is fed.
ghost use Rattle.std.specs.Prelude.{◌<◌, All, IfOk, IfSome};
ghost use Rattle.simplex_turns.specs.Threads.{IsInTime};

use crate::alone::engine;
use simplex_engine::{Engine, Input};
use simplex_journal::{Journal, MemoryJournal};
use simplex_messages::{Call, Outcome, StepOut, Stop};
use simplex_threads::{AskKind, Feed, FeedItem};
use simplex_types::{
    Activity, Answer, Bytes, Channel, Digest, Keyed, Participant, RoundRobinElector, View,
};
use std::alloc::Global;
use std::test::Fail;

pub(super) type Member = Engine<Keyed, RoundRobinElector, MemoryJournal>;

/// The same over a journal of which this call fails, counted from 1 (number 0: none), started at clock 0: the start reads it.
pub(super) fn started(alloc: Global, members: u32, call: u64) -> Result<Member, Fail>
    requires { 0 < members }
{
    let mut journal = MemoryJournal::new(alloc);
    journal.fail_next(call, 0);
    let mut engine = engine(alloc, members, journal)?;
    let mut out = StepOut::new(alloc);
    let outcome = engine
        .start(0, &Stop::None, &mut out)
        .ok()
        .ok_or("a start")?;
    if outcome != Outcome::Done {
        return Err("a whole start".into());
    }
    Ok(engine)
}

/// The engine hears a packet at clock 0.
pub(super) fn hear(
    alloc: Global,
    engine: &mut Member,
    sender: Participant,
    channel: Channel,
    bytes: Bytes,
) -> Result<(), Fail> {
    let input = Input::Deliver {
        sender,
        channel,
        bytes,
    };
    let mut out = StepOut::new(alloc);
    let _polled = engine
        .poll(input, 0, &Stop::None, &mut out)
        .ok()
        .ok_or("a poll")?;
    Ok(())
}

/// An item whose clock, if it is one, is a time.
fn timely(item: FeedItem) -> Option<FeedItem>
    ensures { IfSome result IsInTime }
{
    match item {
        FeedItem::Now(ms) if ms >= 1 << 63 => None,
        _ => Some(item),
    }
}

/// These items for the voter, and nothing for the others.
#[tactic(auto, using(crate::proofs::Feeds::added))]
pub(super) fn for_voter(alloc: Global, items: &[FeedItem]) -> Result<Feed, Fail>
    ensures { IfOk result (λ feed. All IsInTime feed.voter.items) }
{
    let mut voter = Vec::new(alloc);
    for item in items {
        let Some(item) = timely(*item) else {
            return Err("a time".into());
        };
        voter.push(item)?;
    }
    Ok(Feed {
        batcher: Vec::new(alloc),
        resolver: Vec::new(alloc),
        voter,
    })
}

/// The application proposes a payload, and certifies what it is asked to, so often.
pub(super) fn answers(alloc: Global, verdicts: u32) -> Result<Feed, Fail>
    ensures { IfOk result (λ feed. All IsInTime feed.voter.items) }
{
    let mut items = Vec::new(alloc);
    let payload = Answer::Payload(Digest([17; 32]));
    items.push(FeedItem::Reply(AskKind::Propose, payload))?;
    for _ in 0..verdicts {
        items.push(FeedItem::Reply(AskKind::Certify, Answer::Verdict(true)))?;
    }
    for_voter(alloc, &items)
}

/// Whether the view's finalization is reported in one of the steps.
pub(super) fn finalizes(outs: &[StepOut], view: View) -> bool {
    for out in outs {
        for call in out.calls.as_slice() {
            if let Call::Report(Activity::Finalization(finalization)) = call {
                if finalization.proposal.round.view == view {
                    return true;
                }
            }
        }
    }
    false
}
