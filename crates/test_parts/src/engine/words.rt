//! What an engine did, in the words of a trace.
use simplex_engine::{Polled, TakenInside};
use simplex_messages::{Call, Outcome, StepOut, Stop};
use simplex_trace::line;
use simplex_transcript::{Entry, Event, Node, StepSource};
use simplex_types::{
    Artifact, Bytes, Channel, Participant, Recipients, ResolverBody, ResolverMessage, Sequence,
};
use std::alloc::{AllocError, Global};
use test_support::telling::{Items, artifact_text};

/// What is told where nothing came.
pub(super) const NOTHING: &str = "nothing";

/// A message of the resolver's channel to one member.
#[derive(Drop)]
pub(super) struct Letter<'a> {
    pub(super) to: Participant,
    pub(super) bytes: &'a Bytes,
}

/// The call's message, if it is one to a single member on the resolver's channel.
pub(super) fn letter_of(call: &Call) -> Option<Letter<'_>> {
    match call {
        Call::Send {
            channel: Channel::Resolver,
            recipients: Recipients::One(to),
            bytes,
        } => Some(Letter { to: *to, bytes }),
        _ => None,
    }
}

/// What the letter says.
pub(super) fn letter_text(alloc: Global, letter: &Letter<'_>) -> Result<String, AllocError> {
    let Ok(ResolverMessage { id, body }) = ResolverMessage::decode(alloc, letter.bytes.as_slice())
    else {
        return String::from_str(alloc, "bytes of no message");
    };
    let to = letter.to;
    match body {
        ResolverBody::Request { view } => {
            format!(in alloc; "to {to}: request {id} for view {view}")
        }
        _ => format!(in alloc; "to {to}: no request"),
    }
}

/// An event that stands for what was done.
fn event(source: StepSource) -> Event {
    Event::Step {
        node: Node { member: 0, half: 0 },
        source,
        stop: Stop::None,
    }
}

/// What came of the event of this number, as a trace has it behind the event.
pub(super) fn items(
    alloc: Global,
    number: u64,
    out: StepOut,
    outcome: Outcome,
) -> Result<String, AllocError> {
    let StepOut {
        added,
        asked,
        dropped,
        handed,
        calls,
    } = out;
    let entry = Entry {
        event: number,
        who: None,
        took: None,
        added,
        asked,
        dropped,
        handed,
        calls,
        packets: Sequence::new(alloc),
        outcome,
    };
    let text = line(alloc, &event(StepSource::Voter), &entry)?;
    match text.as_str().trim_end().split_once(", ") {
        Some((_, items)) => String::from_str(alloc, items),
        None => String::from_str(alloc, NOTHING),
    }
}

/// What a poll took, where that was a deadline.
pub(super) fn is_deadline(polled: &Polled) -> bool {
    matches!(polled.taken, Some(TakenInside::Deadline))
}

/// The records, item by item.
pub(super) fn records_text(alloc: Global, records: &[Artifact]) -> Result<Items, AllocError> {
    let mut items = Items::new(alloc);
    for record in records {
        let record = artifact_text(alloc, record)?;
        items.push(record.as_str())?;
    }
    Ok(items)
}
