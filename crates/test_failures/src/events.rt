//! Events of a run, and a run's first events, in which three of four members notarize view 1.
use simplex_messages::Stop;
use simplex_transcript::{Event, Node, Ref, StepSource};
use simplex_types::{Answer, Digest, Finalization};
use std::alloc::{AllocError, Global};

pub(crate) fn start(node: Node, floor: Option<Finalization>) -> Event {
    Event::Start {
        node,
        floor,
        stop: Stop::None,
    }
}

pub(crate) fn step(node: Node, source: StepSource) -> Event {
    Event::Step {
        node,
        source,
        stop: Stop::None,
    }
}

/// The answer to the only request of an event.
pub(crate) fn answer(node: Node, event: u64, answer: Answer) -> Event {
    Event::Answer {
        node,
        request: Ref { event, place: 0 },
        answer,
    }
}

/// The only packet of an event arrives.
pub(crate) fn deliver(node: Node, event: u64) -> Event {
    Event::Deliver {
        node,
        packet: Ref { event, place: 0 },
    }
}

/// The first node of a member.
pub(crate) fn node(member: u64) -> Node {
    Node { member, half: 0 }
}

/// The first fifteen events of a run of four: members 0, 1 and 2 start, member 1 proposes payload 17, and each of the
/// three sends its notarize of view 1. Member 3 does nothing.
pub(crate) fn notarized(alloc: Global) -> Result<Vec<Event>, AllocError> {
    let events = vec![in alloc;
        start(node(0), None),
        start(node(1), None),
        start(node(2), None),
        answer(node(1), 2, Answer::Payload(Digest([17; 32]))),
        step(node(1), StepSource::Propose),
        step(node(0), StepSource::Batcher),
        deliver(node(0), 5),
        step(node(0), StepSource::Voter),
        answer(node(0), 8, Answer::Verdict(true)),
        step(node(0), StepSource::Verify),
        step(node(2), StepSource::Batcher),
        deliver(node(2), 5),
        step(node(2), StepSource::Voter),
        answer(node(2), 13, Answer::Verdict(true)),
        step(node(2), StepSource::Verify),
    ]?;
    Ok(events)
}
