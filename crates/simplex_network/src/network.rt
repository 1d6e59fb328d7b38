//! The network: a host at each seat, the clock, and the records of what the entries made.
#![tactic(auto, unfolding(crate::specs::Stands::has_failed))]

ghost use Rattle.std.specs.Prelude.{◌≡◌, ◌↔◌, ◌<◌, ◌≤◌, ◌*◌, ◌^◌, ◌||◌, List, [], ◌∷◌, All, take, true, false, length, vec_len, IfOk, IfErr, IsErrOf, IsTrue, IsNone, OnOk, None, Some};
ghost use Rattle.model_run.specs.Setting.{Setting, setting_of, at_epoch_genesis};
ghost use Rattle.model_run.specs.Setups as setups;
ghost use Rattle.simplex_records.specs.Stands.{seats_in};

use crate::cut::{group_size, node_stepped};
use crate::host::NodeEngine;
use crate::hosts::Hosts;
use crate::inputs::{enter, heard, run_error};
use crate::nodes::{exist, genesis_at, is_at_end, is_node, member_of};
use crate::sending::{one_packet, packets_of};
use crate::status::Status;
use crate::task::{Given, Made, Stage, Task};
use crate::testing::{test, test_heard};
use law_run::only_impersonators_and_injected_bytes_forge;
use simplex_engine::Input;
use simplex_members::{config_of, first_bad};
use simplex_messages::{Outcome, StepOut, Stop};
use simplex_records::{Records, is_honest};
use simplex_transcript::{Entry, Event, Node, Ref, RunError, Setup, Took};
use simplex_typed::entry_is_typed;
use simplex_types::{Bytes, Channel, Digest, Finalization, Keep, Sequence, View};
use std::alloc::{AllocError, Global};

/// The last time of the clock.
const LAST_TIME: u64 = (1 << 63) - 1;

/// The nodes of a setup's members, and what their events made so far.
#[derive(Drop)]
pub struct Network {
    alloc: Global,
    setup: Setup,
    genesis: Digest,
    hosts: Hosts,
    records: Records,
    clock: u64,
    failed: bool,
    ghost good: { IsNone (setups.first_bad setup) },
    ghost seats: { vec_len hosts.list ≡ 2 * length setup.members },
    ghost desks: { seats_in records ≡ 2 * length setup.members },
    ghost early: { clock < 2 ^ 63 },
}

impl Network {
    ghost use Rattle.std.specs.Option.{option_map};
    ghost use Rattle.simplex_transcript.specs.declared.event.Event.{Event};
    ghost use Rattle.simplex_transcript.specs.declared.event.Event.TheVariants as events;
    ghost use Rattle.simplex_transcript.specs.declared.node.Node as nodes;
    ghost use Rattle.model_run.specs.Life.{Noted};
    ghost use Rattle.model_run.specs.Groups.{node_stepped, is_named};
    ghost use Rattle.simplex_network.specs.Parts.{part_in};
    ghost use Rattle.simplex_network.specs.declared.task.Stage.TheVariants as Stage;
    ghost use Rattle.simplex_network.specs.Stages.{is_made, is_failed_at};
    ghost use Rattle.simplex_network.specs.Lending.{KeepsBut, Prepares, Bars, Readies, Refrains, FindsAmong, IsDone, MayLend, Groups, Lends, Returns, Declines, BackAdds, BackGives, BackRests};
    ghost use Rattle.simplex_network.specs.Answer.{is_memory, is_failed, wants_memory, setup_refusal, IsRefused};
    ghost use Rattle.simplex_network.specs.Stands.{Keeps, StandsFor, has_failed, ShowsEngine, Shows, Grows, Adds, Enters, Gives, Refuses, Denies, Stays, Rests, HostStands, StartAdds, StartGives, FaultyAdds, FaultyGives, FaultyDenies, FaultyRests, HaltAdds, IdleAdds, BlankGives, Finds, Exists};

    /// A network of stopped nodes, whose clock is 0. The payload of view 0 is the epoch's genesis digest.
    pub fn new(alloc: Global, setup: &Setup) -> Result<Network, RunError>
        ensures stands { IfOk result
            (λ network. StandsFor network (at_epoch_genesis setup.now) []) }
        ensures allowed { IfOk result (λ _. setup_refusal setup.now ≡ None) }
        ensures refused { IfErr result (IsRefused (setup_refusal setup.now)) }
    {
        Network::with_genesis(alloc, setup, genesis_at(setup.epoch))
    }

    /// The same, where the payload of view 0 is this digest.
    #[tactic(auto, using(crate::proofs::Standing::standing))]
    pub fn with_genesis(alloc: Global, setup: &Setup, genesis: Digest) -> Result<Network, RunError>
        ensures stands { IfOk result
            (λ network. StandsFor network (setting_of setup.now genesis) []) }
        ensures allowed { IfOk result (λ _. setup_refusal setup.now ≡ None) }
        ensures refused { IfErr result (IsRefused (setup_refusal setup.now)) }
    {
        if let Some(field) = first_bad(setup) {
            return Err(RunError::BadSetup(field));
        }
        let network = Network::with_setup(alloc, setup, genesis)?;
        Ok(network)
    }

    /// Makes an event, or refuses it and stays as it is. Behind want of memory it refuses all. [many-frames]
    #[tactic(auto, unfolding(crate::specs::Stands::has_failed), using(crate::proofs::Standing::standing))]
    pub fn apply(&mut self, event: &Event) -> Result<Entry, RunError>
        ensures stands { IfOk result (λ entry. Grows self.old self.new event.now entry) }
        ensures entry { IfOk result (λ entry. Enters self.old event.now entry) }
        ensures reason { IfErr result (λ error. is_memory error ≡ false
            → Refuses self.old event.now error) }
        ensures stays { IfErr result (λ error. is_memory error ≡ false → Stays self.old self.new) }
        ensures failed { IsErrOf result RunError.Failed ↔ IsTrue (has_failed self.old) }
        ensures later { has_failed self.new ≡ (has_failed self.old || wants_memory result) }
    {
        if self.failed {
            return Err(RunError::Failed);
        }
        only_impersonators_and_injected_bytes_forge();
        match self.make(event) {
            Ok(entry) => {
                entry_is_typed(&entry);
                Ok(entry)
            }
            Err(RunError::Memory) => {
                self.failed = true;
                Err(RunError::Memory)
            }
            Err(error) => Err(error),
        }
    }

    /// How many of the first events may be stepped at once: each steps a node of an honest member, which none of them
    /// in front of it steps, and what it delivers was sent before all of them.
    pub fn group_size(&self, events: &[Event]) -> Result<usize, AllocError>
        ensures within { IfOk result (λ size. size ≤ length events.now) }
        ensures each { IfOk result (λ size. All (MayLend self.now) (take size events.now)) }
        ensures group { IfOk result (Groups self.now events.now) }
    {
        group_size(self.alloc, &self.setup, &self.records, events)
    }

    /// Lends the host of the node that the event steps, with what the event gives it. Until it is entered, the node is
    /// not there.
    pub fn lend(&mut self, event: &Event) -> Task
        requires { MayLend self.old event.now }
        ensures lends { Lends self.old self.new event.now result }
        ensures same { (other : Event) → MayLend self.old other → MayLend self.new other }
    {
        let Some(node) = node_stepped(event) else {
            unreachable!();
        };
        let stage = match self.prepare(node, event) {
            Ok(given) => Stage::Given(given),
            Err(error) => Stage::Refused(error),
        };
        self.lend_host(node, stage)
    }

    /// Takes back what was lent for the event, and makes the event, or tells why it is refused. Behind want of memory
    /// the network refuses all.
    pub fn enter(&mut self, event: &Event, task: Task) -> Result<Entry, RunError>
        requires lent { MayLend self.old event.now }
        requires done { IsDone task }
        ensures stands { IfOk result (Returns self.old self.new event.now task) }
        ensures reason { IfErr result (λ error. is_memory error ≡ false
            → Declines self.old event.now task error) }
        ensures same { (other : Event) → MayLend self.old other → MayLend self.new other }
        ensures later { has_failed self.new ≡ (has_failed self.old || wants_memory result) }
    {
        let Some(node) = node_stepped(event) else {
            unreachable!();
        };
        match self.take_back(node, task) {
            Ok(entry) => {
                entry_is_typed(&entry);
                Ok(entry)
            }
            Err(RunError::Memory) => {
                self.failed = true;
                Err(RunError::Memory)
            }
            Err(error) => Err(error),
        }
    }

    /// The engine of a node, where one runs.
    #[tactic(auto, using(crate::proofs::Standing::standing))]
    pub fn engine(&self, node: Node) -> Option<&NodeEngine>
        ensures { ShowsEngine self.now node (option_map (λ engine. engine.now) result) }
    {
        self.shown(node)
    }

    fn shown(&self, node: Node) -> Option<&NodeEngine>
        ensures { Shows self.now node (option_map (λ engine. engine.now) result) }
    {
        if is_node(&self.setup, node) {
            self.hosts.engine(node)
        } else {
            None
        }
    }

    fn with_setup(alloc: Global, setup: &Setup, genesis: Digest) -> Result<Network, AllocError>
        requires { IsNone (setups.first_bad setup.now) }
        ensures { IfOk result (λ network. Keeps network (setting_of setup.now genesis) []) }
    {
        Ok(Network {
            alloc,
            setup: setup.keep(alloc)?,
            genesis,
            hosts: Hosts::new(alloc, setup)?,
            records: Records::new(alloc, setup)?,
            clock: 0,
            failed: false,
        })
    }

    fn make(&mut self, event: &Event) -> Result<Entry, RunError>
        ensures stands { IfOk result (λ _. Adds self.old self.new event.now) }
        ensures entry { IfOk result (λ entry. Gives self.old event.now entry) }
        ensures reason { IfErr result (λ error. is_memory error ≡ false
            → Denies self.old event.now error) }
        ensures stays { IfErr result (λ error. is_memory error ≡ false → Rests self.old self.new) }
        ensures alive { self.new.failed ≡ self.old.failed }
        ensures unfailed { IfErr result (λ error. is_failed error ≡ false) }
    {
        match event {
            Event::Start { node, floor, stop } => self.start(*node, floor, stop),
            Event::Tick { ms } => self.tick(*ms),
            Event::Deliver { node, .. } => self.act(*node, event),
            Event::Step { node, .. } => self.act(*node, event),
            Event::Answer { node, .. } => self.act(*node, event),
            Event::Crash { node } => self.crash(*node),
            Event::Inject {
                member,
                channel,
                to,
                bytes,
            } => self.inject(*member, *channel, to, bytes),
        }
    }

    // A node starts at a floor.
    fn start(
        &mut self,
        node: Node,
        floor: &Option<Finalization>,
        stop: &Stop,
    ) -> Result<Entry, RunError>
        ensures stands { IfOk result
            (λ _. Adds self.old self.new (events.Start node floor.now stop.now)) }
        ensures entry { IfOk result
            (λ entry. Gives self.old (events.Start node floor.now stop.now) entry) }
        ensures reason { IfErr result (λ error. is_memory error ≡ false
            → Denies self.old (events.Start node floor.now stop.now) error) }
        ensures stays { IfErr result (λ error. is_memory error ≡ false → Rests self.old self.new) }
        ensures alive { self.new.failed ≡ self.old.failed }
        ensures unfailed { IfErr result (λ error. is_failed error ≡ false) }
    {
        let status = match self.find(node) {
            Ok(status) => status,
            Err(error) => return Err(error),
        };
        match status {
            Status::Running(_) => Err(RunError::NotStopped),
            Status::Faulty => Err(RunError::NotStopped),
            Status::Stopped => {
                if !self.records.is_own_floor(floor) {
                    return Err(RunError::ForeignFloor);
                }
                let entry = self.begin(node, floor, stop)?;
                Ok(entry)
            }
        }
    }

    // Starts the engine of a stopped node.
    fn begin(
        &mut self,
        node: Node,
        floor: &Option<Finalization>,
        stop: &Stop,
    ) -> Result<Entry, RunError>
        requires { Exists self.old node }
        ensures stands { IfOk result (λ _. StartAdds self.old self.new node floor.now stop.now) }
        ensures entry { IfOk result (λ entry. StartGives self.old node floor.now stop.now entry) }
        ensures memory { IfErr result (λ error. error ≡ RunError.Memory) }
        ensures alive { self.new.failed ≡ self.old.failed }
    {
        let member = member_of(&self.setup, node);
        let config = config_of(self.alloc, &self.setup, self.genesis, member, floor)?;
        let mut out = StepOut::new(self.alloc);
        let Ok(outcome) = self
            .hosts
            .start(self.alloc, node, config, self.clock, stop, &mut out)
        else {
            return Err(RunError::Memory);
        };
        let took = Some(Took::Floor);
        let entry = self
            .records
            .enter(self.alloc, &self.setup, node, true, took, out, outcome)?;
        Ok(entry)
    }

    fn tick(&mut self, ms: u64) -> Result<Entry, RunError>
        ensures stands { IfOk result (λ _. Adds self.old self.new (events.Tick ms)) }
        ensures entry { IfOk result (λ entry. Gives self.old (events.Tick ms) entry) }
        ensures reason { IfErr result (λ error. is_memory error ≡ false
            → Denies self.old (events.Tick ms) error) }
        ensures stays { IfErr result (λ error. is_memory error ≡ false → Rests self.old self.new) }
        ensures alive { self.new.failed ≡ self.old.failed }
        ensures unfailed { IfErr result (λ error. is_failed error ≡ false) }
    {
        if ms > LAST_TIME - self.clock {
            return Err(RunError::ClockEnd);
        }
        let entry = self.records.pass(self.alloc, None, Outcome::Done)?;
        self.clock += ms;
        Ok(entry)
    }

    // A node takes a packet, makes a step, or is answered by its application.
    fn act(&mut self, node: Node, event: &Event) -> Result<Entry, RunError>
        requires { node_stepped event.now ≡ Some node }
        ensures stands { IfOk result (λ _. Adds self.old self.new event.now) }
        ensures entry { IfOk result (λ entry. Gives self.old event.now entry) }
        ensures reason { IfErr result (λ error. is_memory error ≡ false
            → Denies self.old event.now error) }
        ensures stays { IfErr result (λ error. is_memory error ≡ false → Rests self.old self.new) }
        ensures alive { self.new.failed ≡ self.old.failed }
        ensures unfailed { IfErr result (λ error. is_failed error ≡ false) }
    {
        let status = match self.find(node) {
            Ok(status) => status,
            Err(error) => return Err(error),
        };
        let view = match status {
            Status::Stopped => return Err(RunError::NotRunning),
            Status::Faulty => return self.act_without_engine(node, event),
            Status::Running(view) => view,
        };
        let given = match self.given(node, view, event) {
            Ok(given) => given,
            Err(error) => return Err(error),
        };
        let Given {
            input,
            stop,
            outside,
        } = given;
        let mut out = StepOut::new(self.alloc);
        let at = self.hosts.seat(node);
        let host = &mut self.hosts.list[at];
        let polled = match host.poll(self.alloc, input, self.clock, &stop, &mut out) {
            Ok(polled) => polled,
            Err(error) => return Err(run_error(error)),
        };
        let made = Made {
            polled,
            out,
            outside,
        };
        let entry = enter(self.alloc, &self.setup, &mut self.records, node, made)?;
        Ok(entry)
    }

    // The same of a node of a faulty member without an engine, which only hears. [faulty-always-runs]
    fn act_without_engine(&mut self, node: Node, event: &Event) -> Result<Entry, RunError>
        requires steps { node_stepped event.now ≡ Some node }
        requires exists { Exists self.old node }
        ensures stands { IfOk result (λ _. FaultyAdds self.old self.new node event.now) }
        ensures entry { IfOk result (λ entry. FaultyGives self.old node event.now entry) }
        ensures reason { IfErr result (λ error. is_memory error ≡ false
            → FaultyDenies self.old node event.now error) }
        ensures stays { IfErr result (λ error. is_memory error ≡ false
            → FaultyRests self.old self.new node) }
        ensures alive { self.new.failed ≡ self.old.failed }
        ensures unfailed { IfErr result (λ error. is_failed error ≡ false) }
    {
        match event {
            Event::Deliver { packet, .. } => self.hear(node, *packet),
            Event::Step { .. } => self.idle(node),
            Event::Answer { .. } => Err(RunError::NotPending),
            Event::Start { .. } => unreachable!(),
            Event::Tick { .. } => unreachable!(),
            Event::Crash { .. } => unreachable!(),
            Event::Inject { .. } => unreachable!(),
        }
    }

    // A node of a faulty member without an engine takes a packet. What an impersonator says may be forged.
    fn hear(&mut self, node: Node, at: Ref) -> Result<Entry, RunError>
        requires { Exists self.old node }
        ensures stands { IfOk result
            (λ _. FaultyAdds self.old self.new node (events.Deliver node at)) }
        ensures entry { IfOk result
            (λ entry. FaultyGives self.old node (events.Deliver node at) entry) }
        ensures reason { IfErr result (λ error. is_memory error ≡ false
            → FaultyDenies self.old node (events.Deliver node at) error) }
        ensures stays { IfErr result (λ error. is_memory error ≡ false
            → FaultyRests self.old self.new node) }
        ensures alive { self.new.failed ≡ self.old.failed }
        ensures unfailed { IfErr result (λ error. is_failed error ≡ false) }
    {
        let Some(packet) = self.records.packet_for(node, at) else {
            return Err(RunError::NoPacket);
        };
        let sent = self
            .hosts
            .hear(self.alloc, node, packet.channel, packet.bytes.as_slice())?;
        let packets = packets_of(self.alloc, &self.setup, node, sent)?;
        match test_heard(
            self.alloc,
            &self.setup,
            &self.records,
            node,
            packets.as_slice(),
        ) {
            Ok(()) => {
                let took = Some(Took::Packet(at));
                let entry = self.records.speak(self.alloc, node, took, packets)?;
                Ok(entry)
            }
            Err(error) => Err(error),
        }
    }

    // What the event gives its node, which is one of an honest member; or why it is refused.
    fn prepare(&self, node: Node, event: &Event) -> Result<Given, RunError>
        requires steps { node_stepped event.now ≡ Some node }
        requires exists { Exists self.now node }
        ensures is { IfOk result (λ given. Readies self.now node event.now given) }
        ensures reason { IfErr result (λ error. is_memory error ≡ false
            → Refrains self.now node event.now error) }
        ensures unfailed { IfErr result (λ error. is_failed error ≡ false) }
    {
        let status = match self.find(node) {
            Ok(status) => status,
            Err(error) => return Err(error),
        };
        match status {
            Status::Running(view) => self.given(node, view, event),
            Status::Stopped => Err(RunError::NotRunning),
            Status::Faulty => Err(RunError::NotRunning),
        }
    }

    // What the event gives the engine of its node, which runs at this view; or why it is refused.
    fn given(&self, node: Node, view: View, event: &Event) -> Result<Given, RunError>
        requires steps { node_stepped event.now ≡ Some node }
        requires exists { Exists self.now node }
        ensures is { IfOk result (λ given. Prepares self.now node view event.now given) }
        ensures reason { IfErr result (λ error. is_memory error ≡ false
            → Bars self.now node view event.now error) }
        ensures unfailed { IfErr result (λ error. is_failed error ≡ false) }
    {
        match event {
            Event::Deliver { packet: at, .. } => {
                let Some(packet) = self.records.packet_for(node, *at) else {
                    return Err(RunError::NoPacket);
                };
                if is_at_end(&self.setup, view) {
                    return Err(RunError::ViewEnd);
                }
                let input = heard(self.alloc, packet)?;
                Ok(Given {
                    input,
                    stop: Stop::None,
                    outside: Some(Took::Packet(*at)),
                })
            }
            Event::Step { source, stop, .. } => {
                if is_at_end(&self.setup, view) {
                    return Err(RunError::ViewEnd);
                }
                Ok(Given {
                    input: Input::Step(*source),
                    stop: *stop,
                    outside: None,
                })
            }
            Event::Answer {
                request,
                answer,
                ..
            } => {
                let Some(number) = self.records.request_number(node, *request) else {
                    return Err(RunError::NotPending);
                };
                Ok(Given {
                    input: Input::Answer {
                        request: number,
                        answer: *answer,
                    },
                    stop: Stop::None,
                    outside: None,
                })
            }
            Event::Start { .. } => unreachable!(),
            Event::Tick { .. } => unreachable!(),
            Event::Crash { .. } => unreachable!(),
            Event::Inject { .. } => unreachable!(),
        }
    }

    // A node stops. Nothing happens at a faulty member's that has no engine.
    fn crash(&mut self, node: Node) -> Result<Entry, RunError>
        ensures stands { IfOk result (λ _. Adds self.old self.new (events.Crash node)) }
        ensures entry { IfOk result (λ entry. Gives self.old (events.Crash node) entry) }
        ensures reason { IfErr result (λ error. is_memory error ≡ false
            → Denies self.old (events.Crash node) error) }
        ensures stays { IfErr result (λ error. is_memory error ≡ false → Rests self.old self.new) }
        ensures alive { self.new.failed ≡ self.old.failed }
        ensures unfailed { IfErr result (λ error. is_failed error ≡ false) }
    {
        let status = match self.find(node) {
            Ok(status) => status,
            Err(error) => return Err(error),
        };
        match status {
            Status::Stopped => Err(RunError::NotRunning),
            Status::Faulty => self.idle(node),
            Status::Running(_) => self.halt(node),
        }
    }

    // Stops a running node.
    fn halt(&mut self, node: Node) -> Result<Entry, RunError>
        requires { Exists self.old node }
        ensures stands { IfOk result (λ _. HaltAdds self.old self.new node) }
        ensures entry { IfOk result (λ entry. BlankGives self.old (Some node) Outcome.Done entry) }
        ensures memory { IfErr result (λ error. error ≡ RunError.Memory) }
        ensures alive { self.new.failed ≡ self.old.failed }
    {
        let entry = self.records.pass(self.alloc, Some(node), Outcome::Done)?;
        match self.hosts.crash(self.alloc, node) {
            Ok(()) => Ok(entry),
            Err(_) => Err(RunError::Memory),
        }
    }

    // Nothing happens at the node of a faulty member without an engine.
    fn idle(&mut self, node: Node) -> Result<Entry, RunError>
        ensures stands { IfOk result (λ _. IdleAdds self.old self.new node) }
        ensures entry { IfOk result (λ entry. BlankGives self.old (Some node) Outcome.Idle entry) }
        ensures memory { IfErr result (λ error. error ≡ RunError.Memory) }
        ensures alive { self.new.failed ≡ self.old.failed }
    {
        let entry = self.records.pass(self.alloc, Some(node), Outcome::Idle)?;
        Ok(entry)
    }

    // A faulty member sends bytes, which may be forged.
    fn inject(
        &mut self,
        member: u64,
        channel: Channel,
        to: &Sequence<Node>,
        bytes: &Bytes,
    ) -> Result<Entry, RunError>
        ensures stands { IfOk result
            (λ _. Adds self.old self.new (events.Inject member channel to.now bytes.now)) }
        ensures entry { IfOk result
            (λ entry. Gives self.old (events.Inject member channel to.now bytes.now) entry) }
        ensures reason { IfErr result (λ error. is_memory error ≡ false
            → Denies self.old (events.Inject member channel to.now bytes.now) error) }
        ensures stays { IfErr result (λ error. is_memory error ≡ false → Rests self.old self.new) }
        ensures alive { self.new.failed ≡ self.old.failed }
        ensures unfailed { IfErr result (λ error. is_failed error ≡ false) }
    {
        if !exist(&self.setup, member, to.as_slice()) {
            return Err(RunError::NoMember);
        }
        if is_honest(&self.setup, member) {
            return Err(RunError::NotFaulty);
        }
        let packets = one_packet(self.alloc, member, channel, to, bytes)?;
        let node = Node { member, half: 0 };
        match test(self.alloc, &self.setup, &self.records, packets.as_slice()) {
            Ok(()) => {
                let entry = self.records.speak(self.alloc, node, None, packets)?;
                Ok(entry)
            }
            Err(error) => Err(error),
        }
    }

    // What a node is at, where it exists.
    fn find(&self, node: Node) -> Result<Status, RunError>
        ensures found { Finds self.now node result }
        ensures among { FindsAmong self.now node result }
        ensures exists { IfOk result (λ _. Exists self.now node) }
        ensures error { IfErr result (λ error. error ≡ RunError.NoMember) }
    {
        if is_node(&self.setup, node) {
            Ok(self.hosts.status(node))
        } else {
            Err(RunError::NoMember)
        }
    }

    // Lends the host of a node, which is at this stage of a step.
    fn lend_host(&mut self, node: Node, stage: Stage) -> Task
        requires exists { Exists self.old node }
        requires whole { is_failed_at stage ≡ false }
        ensures lends { (setting : Setting) (before : List Noted) (lent : List nodes.Node)
            → KeepsBut lent self.old setting before
            → KeepsBut (node ∷ lent) self.new setting before }
        ensures does { (setting : Setting) (before : List Noted) (lent : List nodes.Node) → is_named lent node ≡ false
            → KeepsBut lent self.old setting before
            → HostStands setting.setup node.member result.host (part_in setting before node) }
        ensures stage { result.stage ≡ stage }
        ensures now { result.now ≡ self.old.clock }
        ensures setup { self.new.setup ≡ self.old.setup }
        ensures alive { self.new.failed ≡ self.old.failed }
    {
        Task {
            alloc: self.alloc,
            now: self.clock,
            host: self.hosts.lend(node),
            stage,
        }
    }

    // Takes the host of a node back, and enters what came of its step.
    fn take_back(&mut self, node: Node, task: Task) -> Result<Entry, RunError>
        requires exists { Exists self.old node }
        requires done { IsDone task }
        ensures stands { IfOk result (λ _. BackAdds self.old self.new node task) }
        ensures entry { IfOk result (λ entry. BackGives self.old node task entry) }
        ensures made { OnOk result (is_made task.stage ≡ true) }
        ensures reason { IfErr result (λ error. is_memory error ≡ false
            → task.stage ≡ Stage.Refused error) }
        ensures stays { IfErr result (λ error. is_memory error ≡ false
            → BackRests self.old self.new node task) }
        ensures setup { self.new.setup ≡ self.old.setup }
        ensures alive { self.new.failed ≡ self.old.failed }
        ensures unfailed { IfErr result (λ error. is_failed error ≡ false) }
    {
        let Task { host, stage, .. } = task;
        self.hosts.put(node, host);
        let made = match stage {
            Stage::Made(made) => made,
            Stage::Refused(error) => return Err(error),
            Stage::Given(_) => unreachable!(),
        };
        let entry = enter(self.alloc, &self.setup, &mut self.records, node, made)?;
        Ok(entry)
    }
}
