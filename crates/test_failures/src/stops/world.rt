//! A network in which each packet arrives, and each request is answered, in the order in which they come up.
use crate::events::step;
use model_rules::Asked;
use simplex_messages::{Handed, Stop};
use simplex_network::Network;
use simplex_run::run_network;
use simplex_transcript::{Entry, Event, Node, Ref, Setup, StepSource};
use simplex_types::{Answer, Digest, View};
use std::alloc::{AllocError, Global};
use std::collections::VecDeque;
use std::process::Abort;

/// What an application answers: this payload, and true, and up to which view.
#[derive(Clone, Copy)]
pub(super) struct Answers {
    pub(super) payload: u8,
    /// Requests on later views stay open.
    pub(super) last: View,
}

/// The network, what waits to happen in it, and what happened.
#[derive(Drop)]
pub(super) struct World {
    answers: Answers,
    network: Network,
    waiting: VecDeque<Event>,
    pub(super) happened: Vec<Event>,
    pub(super) entries: Vec<Entry>,
}

/// The same event, with this stop, if it can have one.
pub(super) fn stopped(event: Event, stop: Stop) -> Event {
    match event {
        Event::Start { node, floor, .. } => Event::Start { node, floor, stop },
        Event::Step { node, source, .. } => Event::Step { node, source, stop },
        other => other,
    }
}

/// The view that a request is on, and where its answer is taken from.
fn place_of(asked: &Asked) -> (View, StepSource) {
    match asked {
        Asked::Prepare(context) | Asked::Propose(context) => {
            (context.round.view, StepSource::Propose)
        }
        Asked::Verify(context, _) => (context.round.view, StepSource::Verify),
        Asked::Certify(round, _) => (round.view, StepSource::Certify),
    }
}

/// Where a message is taken from.
fn box_of(message: &Handed) -> StepSource {
    match message {
        Handed::Batcher(_) => StepSource::Batcher,
        Handed::Voter(_) => StepSource::Voter,
        Handed::Resolver(_) => StepSource::Resolver,
        Handed::Handler(_) => StepSource::Handler,
    }
}

impl Answers {
    /// The answer to a request, if there is one.
    fn to(&self, asked: &Asked) -> Option<Answer> {
        let (view, _) = place_of(asked);
        if view > self.last {
            return None;
        }
        Some(match asked {
            Asked::Prepare(_) => Answer::Closed,
            Asked::Propose(_) => Answer::Payload(Digest([self.payload; 32])),
            Asked::Verify(..) | Asked::Certify(..) => Answer::Verdict(true),
        })
    }
}

impl World {
    pub(super) fn new(rt: &impl Abort, alloc: Global, setup: &Setup, answers: Answers) -> World {
        World {
            answers,
            network: Network::new(alloc, setup).expect(rt, "a network"),
            waiting: VecDeque::new(alloc),
            happened: Vec::new(alloc),
            entries: Vec::new(alloc),
        }
    }

    /// Makes an event, and has what comes of it wait. Whether it was made, and not refused.
    pub(super) fn make(&mut self, rt: &impl Abort, event: Event) -> bool {
        let Ok(entry) = self.network.apply(&event) else {
            return false;
        };
        self.follow(&entry).expect(rt, "memory");
        self.note(event, entry).expect(rt, "memory");
        true
    }

    fn note(&mut self, event: Event, entry: Entry) -> Result<(), AllocError> {
        self.happened.push(event)?;
        self.entries.push(entry)?;
        Ok(())
    }

    /// The next event that waits, if one does.
    pub(super) fn next(&mut self) -> Option<Event> {
        self.waiting.pop_front()
    }

    /// Nothing waits any more.
    pub(super) fn forget(&mut self, alloc: Global) {
        self.waiting = VecDeque::new(alloc);
    }

    /// Makes what waits, and so many events at most. What nobody waits for any more is refused, and does not happen.
    pub(super) fn settle(&mut self, rt: &impl Abort, most: u64) {
        for _ in 0..most {
            let Some(event) = self.waiting.pop_front() else {
                return;
            };
            let _made = self.make(rt, event);
        }
    }

    /// What comes of an event: requests are answered, messages taken, packets delivered.
    fn follow(&mut self, entry: &Entry) -> Result<(), AllocError> {
        let Some(node) = entry.who else {
            return Ok(());
        };
        self.answer(node, entry)?;
        for message in entry.handed.as_slice() {
            self.waiting.push_back(step(node, box_of(message)))?;
        }
        self.deliver(entry)
    }

    fn answer(&mut self, node: Node, entry: &Entry) -> Result<(), AllocError> {
        for (place, asked) in (0u64..).zip(entry.asked.as_slice()) {
            let Some(answer) = self.answers.to(asked) else {
                continue;
            };
            let request = Ref {
                event: entry.event,
                place,
            };
            self.waiting.push_back(Event::Answer {
                node,
                request,
                answer,
            })?;
            let (_, source) = place_of(asked);
            self.waiting.push_back(step(node, source))?;
        }
        Ok(())
    }

    fn deliver(&mut self, entry: &Entry) -> Result<(), AllocError> {
        for (place, packet) in (0u64..).zip(entry.packets.as_slice()) {
            let packet_of_event = Ref {
                event: entry.event,
                place,
            };
            for to in packet.to.as_slice() {
                self.waiting.push_back(Event::Deliver {
                    node: *to,
                    packet: packet_of_event,
                })?;
            }
        }
        Ok(())
    }
}

/// What happened in the world is the run of its events.
pub(super) fn assert_run(rt: &impl Abort, alloc: Global, case: &str, setup: &Setup, world: &World) {
    let transcript = run_network(alloc, setup, world.happened.as_slice()).expect(rt, "a whole run");
    let is_run = transcript.entries.as_slice() == world.entries.as_slice();
    drop(transcript);
    assert!(rt; is_run, "{case}");
}
