//! A list of events, each of which is named by its number, counted from 1.
use simplex::actors::Stop;
use simplex::types::Answer;
use simplex::{Event, Node, Ref, StepSource};
use std::alloc::{AllocError, Global};

/// The events so far, of members with one half each. Each method adds one and answers its number.
#[derive(Drop)]
pub struct Script {
    events: Vec<Event>,
}

fn node(member: u64) -> Node {
    Node { member, half: 0 }
}

/// The first request, or the first packet, of the event.
fn first_of(event: u64) -> Ref {
    Ref { event, place: 0 }
}

impl Script {
    pub fn new(alloc: Global) -> Script {
        Script {
            events: Vec::new(alloc),
        }
    }

    pub fn events(&self) -> &[Event] {
        self.events.as_slice()
    }

    fn add(&mut self, event: Event) -> Result<u64, AllocError> {
        self.events.push(event)?;
        Ok(self.events.len() as u64)
    }

    /// The member starts, at genesis.
    pub fn start(&mut self, member: u64) -> Result<u64, AllocError> {
        self.add(Event::Start {
            node: node(member),
            floor: None,
            stop: Stop::None,
        })
    }

    /// The member takes what waits there.
    pub fn step(&mut self, member: u64, source: StepSource) -> Result<u64, AllocError> {
        self.add(Event::Step {
            node: node(member),
            source,
            stop: Stop::None,
        })
    }

    /// The member takes the packet that went out in the event.
    pub fn deliver(&mut self, member: u64, event: u64) -> Result<u64, AllocError> {
        self.add(Event::Deliver {
            node: node(member),
            packet: first_of(event),
        })
    }

    /// The member's application answers the request of the event.
    pub fn answer(&mut self, member: u64, event: u64, answer: Answer) -> Result<u64, AllocError> {
        self.add(Event::Answer {
            node: node(member),
            request: first_of(event),
            answer,
        })
    }
}
