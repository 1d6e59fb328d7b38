//! A network in which each packet arrives, and each request is answered, in the order in which they come up.
use crate::application::Application;
use simplex::actors::{Asked, Handed, Stop};
use simplex::types::{Digest, View};
use simplex::{Entry, Event, Network, Node, Ref, RunError, Setup, StepSource};
use std::alloc::{AllocError, Global};
use std::collections::VecDeque;

/// The network, what waits to happen in it, and what happened.
#[derive(Drop)]
pub struct World {
    network: Network,
    waiting: VecDeque<Event>,
    happened: Vec<Event>,
}

fn step(node: Node, source: StepSource) -> Event {
    Event::Step {
        node,
        source,
        stop: Stop::None,
    }
}

/// Where the answer to a request is taken from.
fn source_of(asked: &Asked) -> StepSource {
    match asked {
        Asked::Prepare(_) | Asked::Propose(_) => StepSource::Propose,
        Asked::Verify(..) => StepSource::Verify,
        Asked::Certify(..) => StepSource::Certify,
    }
}

/// Where a message is taken from.
fn box_of(message: &Handed) -> StepSource {
    match message {
        Handed::Batcher(_) => StepSource::Batcher,
        Handed::Voter(_) => StepSource::Voter,
        Handed::Resolver(_) => StepSource::Resolver,
        Handed::Handler(_) => StepSource::Handler,
    }
}

/// The members of these numbers are about to start.
fn starts(alloc: Global, members: &[u64]) -> Result<VecDeque<Event>, AllocError> {
    let mut waiting = VecDeque::new(alloc);
    for member in members {
        waiting.push_back(Event::Start {
            node: Node {
                member: *member,
                half: 0,
            },
            floor: None,
            stop: Stop::None,
        })?;
    }
    Ok(waiting)
}

impl World {
    /// The members of these numbers are about to start.
    pub fn new(alloc: Global, setup: &Setup, members: &[u64]) -> Result<World, RunError> {
        Ok(World {
            network: Network::new(alloc, setup)?,
            waiting: starts(alloc, members)?,
            happened: Vec::new(alloc),
        })
    }

    /// What happened, in order.
    pub fn events(&self) -> &[Event] {
        self.happened.as_slice()
    }

    /// Lets so many things happen at most. What is refused, since nothing waits for it any more, does not happen.
    pub fn go<P: Fn(View) -> Digest, V: Fn(&Digest) -> bool, C: Fn(&Digest) -> bool>(
        &mut self,
        application: &Application<P, V, C>,
        most: u64,
    ) -> Result<(), RunError>
        requires proposes { P.IsAlwaysCallable application.now.propose }
        requires verifies { V.IsAlwaysCallable application.now.verify }
        requires certifies { C.IsAlwaysCallable application.now.certify }
    {
        for _ in 0..most {
            let Some(event) = self.waiting.pop_front() else {
                return Ok(());
            };
            match self.network.apply(&event) {
                Ok(entry) => self.follow(application, event, &entry)?,
                Err(RunError::Memory) => return Err(RunError::Memory),
                Err(_) => {}
            }
        }
        Ok(())
    }

    /// What comes of an event that happened: requests are answered, messages taken, packets delivered.
    fn follow<P: Fn(View) -> Digest, V: Fn(&Digest) -> bool, C: Fn(&Digest) -> bool>(
        &mut self,
        application: &Application<P, V, C>,
        event: Event,
        entry: &Entry,
    ) -> Result<(), AllocError>
        requires proposes { P.IsAlwaysCallable application.now.propose }
        requires verifies { V.IsAlwaysCallable application.now.verify }
        requires certifies { C.IsAlwaysCallable application.now.certify }
    {
        self.happened.push(event)?;
        let Some(node) = entry.who else {
            return Ok(());
        };
        for (request, asked) in (0u64..).zip(entry.asked.as_slice()) {
            self.waiting.push_back(Event::Answer {
                node,
                request: Ref {
                    event: entry.event,
                    place: request,
                },
                answer: application.answer(asked),
            })?;
            self.waiting.push_back(step(node, source_of(asked)))?;
        }
        for message in entry.handed.as_slice() {
            self.waiting.push_back(step(node, box_of(message)))?;
        }
        for (place, packet) in (0u64..).zip(entry.packets.as_slice()) {
            for to in packet.to.as_slice() {
                self.waiting.push_back(Event::Deliver {
                    node: *to,
                    packet: Ref {
                        event: entry.event,
                        place,
                    },
                })?;
            }
        }
        Ok(())
    }
}
