//! A network that goes on by itself.
ghost use Rattle.std.specs.Prelude.{◌≡◌, ◌++◌, ◌∷◌, [], None, IfOk, IfErr, OnOk};
ghost use Rattle.simplex_network.specs.Answer.{setup_refusal, IsRefused};
ghost use Rattle.simplex_simulator.specs.Going.{GoesOn, Went};

use crate::jobs::{Job, SOURCES, Want, mailbox_of, wanted};
use crate::luck::Luck;
use crate::plan::{Chances, Plan};
use simplex_messages::Stop;
use simplex_network::Network;
use simplex_transcript::{Entry, Event, MemberKind, Node, Ref, RunError, Setup, StepSource};
use simplex_types::{Answer, Handoff, Sequence};
use std::alloc::{AllocError, Global};
use std::collections::VecDeque;

/// Of how many jobs, the oldest ones, the next is drawn.
const CHOICE: usize = 8;

/// What came of an event.
#[derive(Clone, Copy, PartialEq, Eq)]
enum Made {
    /// It is one of the run.
    Yes,
    /// Its node is stopped.
    Stopped,
    /// The network refuses it otherwise.
    No,
}

/// A network, what is to be done in it, and the events that it made.
#[derive(Drop)]
pub(crate) struct Simulation {
    network: Network,
    events: Sequence<Event>,
    nodes: Vec<Node>,
    jobs: VecDeque<Job>,
    luck: Luck,
    chances: Chances,
    /// How long time goes by where nothing is left to do.
    pause: u64,
    clock: u64,
}

impl Simulation {
    /// The nodes are to start.
    pub(crate) fn new(alloc: Global, setup: &Setup, plan: &Plan) -> Result<Simulation, RunError>
        ensures went { IfOk result (λ it. Went it setup.now) }
        ensures empty { IfOk result (λ it. it.events ≡ []) }
        ensures allowed { IfOk result (λ _. setup_refusal setup.now ≡ None) }
        ensures refused { IfErr result (IsRefused (setup_refusal setup.now)) }
    {
        let network = Network::new(alloc, setup)?;
        let nodes = nodes_of(alloc, setup)?;
        let jobs = starts_of(alloc, &nodes)?;
        Ok(Simulation {
            network,
            events: Sequence::new(alloc),
            nodes,
            jobs,
            luck: Luck::new(plan.seed),
            chances: plan.chances,
            pause: pause_of(setup),
            clock: 0,
        })
    }

    /// The events that were made.
    pub(crate) fn into_events(self) -> Sequence<Event>
        ensures { result ≡ self.events }
    {
        let Simulation {
            network: _,
            events,
            nodes: _,
            jobs: _,
            luck: _,
            chances: _,
            pause: _,
            clock: _,
        } = self;
        events
    }

    /// Makes a choice: one of the oldest jobs is done, or time goes by.
    pub(crate) fn choose(&mut self) -> Result<(), AllocError>
        ensures { OnOk result (GoesOn self.old self.new) }
    {
        match self.next_job() {
            None => self.pass_time(),
            Some(Job::Start { node }) => self.start(node),
            Some(
                Job::Deliver {
                    node,
                    packet,
                    is_safe: false,
                },
            ) => self.try_deliver(node, packet),
            Some(
                Job::Deliver {
                    node,
                    packet,
                    is_safe: true,
                },
            ) => self.deliver(node, packet),
            Some(Job::Step { node, source }) => self.step(node, source),
            Some(
                Job::Answer {
                    node,
                    request,
                    want,
                    source,
                },
            ) => self.answer(node, request, want, source),
        }
    }

    // Takes one of the oldest jobs out.
    fn next_job(&mut self) -> Option<Job>
        ensures network { self.new.network ≡ self.old.network }
        ensures events { self.new.events ≡ self.old.events }
    {
        let count = self.jobs.len().min(CHOICE);
        let place = self.luck.below(count);
        if count > 0 {
            self.jobs.swap(0, place);
        }
        self.jobs.pop_front()
    }

    // Makes an event, unless the network refuses it, and notes what it gives rise to.
    #[tactic(auto, using(crate::proofs::Making::made_more, crate::proofs::Making::made_same))]
    fn make(&mut self, event: Event) -> Result<Made, AllocError>
        ensures { OnOk result (GoesOn self.old self.new) }
    {
        match self.network.apply(&event) {
            Ok(entry) => {
                self.take(event, &entry)?;
                Ok(Made::Yes)
            }
            Err(RunError::Memory | RunError::Failed) => Err(AllocError),
            Err(RunError::NotRunning) => Ok(Made::Stopped),
            Err(_) => Ok(Made::No),
        }
    }

    // The event is one of the run.
    fn take(&mut self, event: Event, entry: &Entry) -> Result<(), AllocError>
        ensures network { OnOk result (self.new.network ≡ self.old.network) }
        ensures events { OnOk result (self.new.events ≡ self.old.events ++ event ∷ []) }
    {
        self.follow(entry)?;
        self.events.push(event)
    }

    fn start(&mut self, node: Node) -> Result<(), AllocError>
        ensures { OnOk result (GoesOn self.old self.new) }
    {
        let _made = self.make(Event::Start {
            node,
            floor: None,
            stop: Stop::None,
        })?;
        Ok(())
    }

    // Delivers a packet, unless something happens to it.
    fn try_deliver(&mut self, node: Node, packet: Ref) -> Result<(), AllocError>
        ensures { OnOk result (GoesOn self.old self.new) }
    {
        if self.luck.strikes(self.chances.drop) {
            return Ok(());
        }
        if self.luck.strikes(self.chances.delay) {
            return self.put_off(node, packet);
        }
        if self.luck.strikes(self.chances.repeat) {
            self.put_off(node, packet)?;
        }
        self.deliver(node, packet)
    }

    // The packet is to be delivered behind all that waits.
    fn put_off(&mut self, node: Node, packet: Ref) -> Result<(), AllocError>
        ensures network { OnOk result (self.new.network ≡ self.old.network) }
        ensures events { OnOk result (self.new.events ≡ self.old.events) }
    {
        self.jobs.push_back(Job::Deliver {
            node,
            packet,
            is_safe: true,
        })?;
        Ok(())
    }

    // Delivers a packet; to a stopped node later.
    fn deliver(&mut self, node: Node, packet: Ref) -> Result<(), AllocError>
        ensures { OnOk result (GoesOn self.old self.new) }
    {
        match self.make(Event::Deliver { node, packet })? {
            Made::Stopped => self.put_off(node, packet),
            Made::Yes | Made::No => Ok(()),
        }
    }

    // Whether the source of the node's engine holds something.
    fn holds(&self, node: Node, source: StepSource) -> bool {
        match self.network.engine(node) {
            Some(engine) => engine.holds(source, self.clock),
            None => false,
        }
    }

    // Makes a step, if there is something to take; or the node crashes, and is to start again.
    fn step(&mut self, node: Node, source: StepSource) -> Result<(), AllocError>
        ensures { OnOk result (GoesOn self.old self.new) }
    {
        if !self.holds(node, source) {
            return Ok(());
        }
        if self.luck.strikes(self.chances.crash) {
            return self.crash(node);
        }
        let _made = self.make(Event::Step {
            node,
            source,
            stop: Stop::None,
        })?;
        Ok(())
    }

    fn crash(&mut self, node: Node) -> Result<(), AllocError>
        ensures { OnOk result (GoesOn self.old self.new) }
    {
        let _made = self.make(Event::Crash { node })?;
        self.jobs.push_back(Job::Start { node })?;
        Ok(())
    }

    // Answers a request, if it is still open; a step is to take the answer.
    fn answer(
        &mut self,
        node: Node,
        request: Ref,
        want: Want,
        source: StepSource,
    ) -> Result<(), AllocError>
        ensures { OnOk result (GoesOn self.old self.new) }
    {
        let answer = self.reply(want);
        let _made = self.make(Event::Answer {
            node,
            request,
            answer,
        })?;
        self.jobs.push_back(Job::Step { node, source })?;
        Ok(())
    }

    fn reply(&mut self, want: Want) -> Answer
        ensures network { self.new.network ≡ self.old.network }
        ensures events { self.new.events ≡ self.old.events }
    {
        match want {
            Want::Payload => Answer::Payload(self.luck.payload()),
            Want::Stage => Answer::Handoff(Handoff::Stage(self.luck.payload())),
            Want::Verdict => Answer::Verdict(true),
        }
    }

    // Time goes by, and what then holds something is to make a step.
    fn pass_time(&mut self) -> Result<(), AllocError>
        ensures { OnOk result (GoesOn self.old self.new) }
    {
        let later = self.clock.saturating_add(self.pause);
        if self.make(Event::Tick { ms: self.pause })? == Made::Yes {
            self.clock = later;
        }
        self.rouse()
    }

    // Each source that holds something is to make a step.
    fn rouse(&mut self) -> Result<(), AllocError>
        ensures network { OnOk result (self.new.network ≡ self.old.network) }
        ensures events { OnOk result (self.new.events ≡ self.old.events) }
    {
        for place in 0..self.nodes.len() {
            let node = self.nodes[place];
            self.rouse_node(node)?;
        }
        Ok(())
    }

    fn rouse_node(&mut self, node: Node) -> Result<(), AllocError>
        ensures network { OnOk result (self.new.network ≡ self.old.network) }
        ensures events { OnOk result (self.new.events ≡ self.old.events) }
        ensures nodes { OnOk result (self.new.nodes ≡ self.old.nodes) }
    {
        for source in SOURCES {
            if self.holds(node, source) {
                self.jobs.push_back(Job::Step { node, source })?;
            }
        }
        Ok(())
    }

    // What an entry gives rise to: deliveries, steps and answers.
    fn follow(&mut self, entry: &Entry) -> Result<(), AllocError>
        ensures network { OnOk result (self.new.network ≡ self.old.network) }
        ensures events { OnOk result (self.new.events ≡ self.old.events) }
    {
        push_deliveries(&mut self.jobs, entry)?;
        if let Some(node) = entry.who {
            push_steps(&mut self.jobs, node, entry)?;
            push_answers(&mut self.jobs, node, entry)?;
        }
        Ok(())
    }
}

// Each packet is to be delivered to each node that it is for.
fn push_deliveries(jobs: &mut VecDeque<Job>, entry: &Entry) -> Result<(), AllocError> {
    for (place, packet) in entry.packets.as_slice().iter().enumerate() {
        let packet_at = Ref {
            event: entry.event,
            place: place as u64,
        };
        push_copies(jobs, packet_at, packet.to.as_slice())?;
    }
    Ok(())
}

fn push_copies(jobs: &mut VecDeque<Job>, packet: Ref, to: &[Node]) -> Result<(), AllocError> {
    for node in to {
        jobs.push_back(Job::Deliver {
            node: *node,
            packet,
            is_safe: false,
        })?;
    }
    Ok(())
}

// Each message that was put into a mailbox is to be taken out.
fn push_steps(jobs: &mut VecDeque<Job>, node: Node, entry: &Entry) -> Result<(), AllocError> {
    for handed in entry.handed.as_slice() {
        jobs.push_back(Job::Step {
            node,
            source: mailbox_of(handed),
        })?;
    }
    Ok(())
}

// Each request is to be answered.
fn push_answers(jobs: &mut VecDeque<Job>, node: Node, entry: &Entry) -> Result<(), AllocError> {
    for (place, asked) in entry.asked.as_slice().iter().enumerate() {
        let (want, source) = wanted(asked);
        jobs.push_back(Job::Answer {
            node,
            request: Ref {
                event: entry.event,
                place: place as u64,
            },
            want,
            source,
        })?;
    }
    Ok(())
}

// The nodes of the members, in order: two of a twin.
fn nodes_of(alloc: Global, setup: &Setup) -> Result<Vec<Node>, AllocError> {
    let mut nodes = Vec::new(alloc);
    for (member, kind) in setup.members.as_slice().iter().enumerate() {
        let member = member as u64;
        nodes.push(Node { member, half: 0 })?;
        if *kind == MemberKind::Twin {
            nodes.push(Node { member, half: 1 })?;
        }
    }
    Ok(nodes)
}

fn starts_of(alloc: Global, nodes: &[Node]) -> Result<VecDeque<Job>, AllocError> {
    let mut jobs = VecDeque::new(alloc);
    for node in nodes {
        jobs.push_back(Job::Start { node: *node })?;
    }
    Ok(jobs)
}

// The shortest of the times after which something is given up.
fn pause_of(setup: &Setup) -> u64 {
    setup
        .leader_timeout
        .min(setup.retry)
        .min(setup.fetch_timeout)
}
