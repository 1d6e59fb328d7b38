//! A network that is given the commands of a script.
ghost use Rattle.std.specs.Prelude.{◌≡◌, IfErr, IfOk, OnOk};
ghost use Rattle.model_run.specs.Setting.{at_epoch_genesis};
ghost use Rattle.simplex_network.specs.Answer.{IsRefused, setup_refusal};
ghost use Rattle.simplex_generator.specs.Drawing as drawing;
ghost use Rattle.simplex_script.specs.Planning as plans;
ghost use Rattle.simplex_script.specs.Post.{first_on, is_for};
ghost use Rattle.simplex_script.specs.declared.fault.Fault.TheVariants as faults;
ghost use Rattle.simplex_scripts.specs.declared.came.Came.TheVariants as cames;
ghost use Rattle.simplex_scripts.specs.Coming as coming;
ghost use Rattle.simplex_scripts.specs.Playing as playing;
ghost use Rattle.simplex_scripts.specs.Stands.{Answers, IsRefusal, Leads, Plays, TakesIn};

use crate::came::Came;
use crate::coming::{next_delivery, next_step, next_verdict, open_in};
use crate::nodes::nodes_of;
use simplex_generator::Requests;
use simplex_network::Network;
use simplex_script::{BadLine, Command, Fault, Placed, Post, planned};
use simplex_transcript::{Entry, Event, Node, RunError, Setup};
use simplex_types::{Channel, Keep, Sequence};
use std::alloc::{AllocError, Global};

/// How many events a `settle` makes at most.
pub const MOST_EVENTS: u64 = 4096;

/// A network, what is open in it, and the events that it made, each with the line of its command.
#[derive(Drop)]
pub(crate) struct Play {
    alloc: Global,
    setup: Setup,
    network: Network,
    nodes: Vec<Node>,
    post: Post,
    requests: Requests,
    clock: u64,
    events: Sequence<Event>,
    lines: Sequence<u64>,
}

impl Play {
    /// Nothing was made yet.
    #[tactic(auto, using(crate::proofs::Asking::asks_none, crate::proofs::Whole::opens))]
    pub(crate) fn new(alloc: Global, setup: &Setup) -> Result<Play, RunError>
        ensures opens { IfOk result
            (λ play. Plays play (at_epoch_genesis setup.now) playing.opening) }
        ensures refused { IfErr result (IsRefused (setup_refusal setup.now)) }
    {
        let network = Network::new(alloc, setup)?;
        let nodes = nodes_of(alloc, setup)?;
        Ok(Play {
            alloc,
            setup: setup.keep(alloc)?,
            network,
            nodes,
            post: Post::new(alloc),
            requests: Requests::new(alloc),
            clock: 0,
            events: Sequence::new(alloc),
            lines: Sequence::new(alloc),
        })
    }

    /// The events that were made, and their lines.
    pub(crate) fn into_parts(self) -> (Sequence<Event>, Sequence<u64>)
        ensures events { result.0 ≡ self.events }
        ensures lines { result.1 ≡ self.lines }
    {
        let Play {
            alloc: _,
            setup: _,
            network: _,
            nodes: _,
            post: _,
            requests: _,
            clock: _,
            events,
            lines,
        } = self;
        (events, lines)
    }

    // ---- events

    // The event is one of the run.
    fn take(&mut self, line: u64, event: Event, entry: &Entry) -> Result<(), AllocError>
        ensures { OnOk result (TakesIn self.old self.new line event entry.now) }
    {
        self.post.take_in(&event, entry)?;
        self.requests.take_in(&event, entry)?;
        self.clock = clock_behind(&event, self.clock)?;
        self.events.push(event)?;
        self.lines.push(line)
    }

    // Makes an event, unless the network refuses it.
    #[tactic(auto, using(crate::proofs::Making::makes, crate::proofs::Making::refuses))]
    fn make(&mut self, line: u64, event: Event) -> Result<Came, AllocError>
        ensures { IfOk result (Leads self.old self.new
            (λ setting. playing.made setting line event)) }
    {
        match self.network.apply(&event) {
            Ok(entry) => {
                self.take(line, event, &entry)?;
                Ok(Came::On)
            }
            Err(error) => refused(error, line, event),
        }
    }

    // Makes events one after another, up to one that is refused.
    #[tactic(auto, using(crate::proofs::Going::left_first, crate::proofs::Going::events_more, crate::proofs::Going::events_stop, crate::proofs::Going::events_over))]
    fn make_all(&mut self, line: u64, events: Vec<Event>) -> Result<Came, AllocError>
        ensures { IfOk result (Leads self.old self.new
            (λ setting. playing.all_made setting line events.items)) }
    {
        for event in events {
            match self.make(line, event)? {
                Came::On => {}
                stopped => return Ok(stopped),
            }
        }
        Ok(Came::On)
    }

    // ---- commands

    /// Does what the commands say, up to an event that is refused, or a line that names what is not there.
    #[tactic(auto, using(crate::proofs::Going::left_first, crate::proofs::Going::commands_more, crate::proofs::Going::commands_stop, crate::proofs::Going::commands_over))]
    pub(crate) fn obey_all(&mut self, commands: &[Placed]) -> Result<Came, AllocError>
        ensures { IfOk result (Leads self.old self.new
            (λ setting. playing.all_obeyed setting commands.now)) }
    {
        let mut rest = commands;
        while let [it, after @ ..] = rest {
            match self.obey(it.line, &it.command)? {
                Came::On => {}
                stopped => return Ok(stopped),
            }
            rest = after;
        }
        Ok(Came::On)
    }

    #[tactic(auto, unfolding(crate::specs::Playing::obeyed), using(crate::proofs::Ordering::orders))]
    fn obey(&mut self, line: u64, command: &Command) -> Result<Came, AllocError>
        ensures { IfOk result (Leads self.old self.new
            (λ setting. playing.obeyed setting line command.now)) }
    {
        match command {
            Command::Settle { nodes } => self.settle(line, nodes.as_slice()),
            Command::Lose { from, to, channel } => Ok(self.lose(line, *from, *to, *channel)),
            Command::Miss { nodes } => Ok(self.miss(nodes.as_slice())),
            _ => self.order(line, command),
        }
    }

    // Makes the events that a command stands for.
    #[tactic(auto, using(crate::proofs::Ordering::plans_bad, crate::proofs::Ordering::plans_made))]
    fn order(&mut self, line: u64, command: &Command) -> Result<Came, AllocError>
        ensures { IfOk result (Leads self.old self.new (λ setting scene. playing.as_planned setting line scene
            (plans.planned command.now scene.waiting scene.delivered
            (coming.open_in scene.before)))) }
    {
        let open = open_in(self.alloc, &self.requests)?;
        match planned(self.alloc, command, &self.post, open.as_slice())? {
            Err(fault) => Ok(Came::Bad(BadLine { line, fault })),
            Ok(events) => self.make_all(line, events),
        }
    }

    // The oldest packet on a way is lost.
    #[tactic(auto, using(crate::proofs::Ordering::loses_none, crate::proofs::Ordering::loses_one))]
    fn lose(&mut self, line: u64, from: Node, to: Node, channel: Channel) -> Came
        ensures { Leads self.old self.new (λ setting scene. playing.lost line (faults.NoPacket from to channel) scene
            (first_on from to channel scene.waiting)) result }
    {
        match self.post.oldest(from, to, channel) {
            None => Came::Bad(BadLine {
                line,
                fault: Fault::NoPacket { from, to, channel },
            }),
            Some(parcel) => {
                self.post.lose(&parcel);
                Came::On
            }
        }
    }

    // All that waits for the nodes is lost.
    #[tactic(auto, using(crate::proofs::Ordering::misses))]
    fn miss(&mut self, nodes: &[Node]) -> Came
        ensures { Leads self.old self.new
            (λ setting scene. playing.On (playing.without (is_for nodes.now) scene)) result }
    {
        self.post.miss(nodes);
        Came::On
    }

    // Makes what comes up between the nodes, until nothing is left.
    #[tactic(auto, using(crate::proofs::Going::settling))]
    fn settle(&mut self, line: u64, nodes: &[Node]) -> Result<Came, AllocError>
        ensures { IfOk result (Leads self.old self.new
            (λ setting. playing.settled setting line nodes.now MOST_EVENTS)) }
    {
        let mut left = MOST_EVENTS;
        'events: loop {
            let Some(event) = self.next(nodes)? else {
                return Ok(Came::On);
            };
            if left == 0 {
                return Ok(restless(line));
            }
            match self.make(line, event)? {
                Came::On => {}
                stopped => return Ok(stopped),
            }
            left -= 1;
        }
    }

    // What comes up next between the nodes: a step, else a verdict, else a delivery.
    #[tactic(auto, using(crate::proofs::Upcoming::upcoming_step, crate::proofs::Upcoming::upcoming_verdict, crate::proofs::Upcoming::upcoming_delivery))]
    fn next(&self, nodes: &[Node]) -> Result<Option<Event>, AllocError>
        ensures { IfOk result (Answers self.now
            (λ setting scene. coming.next setting scene.before scene.waiting nodes.now)) }
    {
        if let Some(event) = next_step(&self.network, self.nodes.as_slice(), self.clock, nodes) {
            return Ok(Some(event));
        }
        let open = open_in(self.alloc, &self.requests)?;
        if let Some(event) = next_verdict(open.as_slice(), nodes) {
            return Ok(Some(event));
        }
        let delivery = next_delivery(&self.network, &self.setup, self.post.waiting(), nodes);
        Ok(delivery)
    }
}

// The clock behind an event. No memory has room for so many ticks that it would end.
fn clock_behind(event: &Event, clock: u64) -> Result<u64, AllocError>
    ensures { IfOk result (λ behind. behind ≡ drawing.clock_behind event.now clock) }
{
    match event {
        Event::Tick { ms } => clock.checked_add(*ms).ok_or(AllocError),
        _ => Ok(clock),
    }
}

// An event is refused, but for want of memory.
fn refused(error: RunError, line: u64, event: Event) -> Result<Came, AllocError>
    ensures { IfOk result (IsRefusal error line event) }
{
    match error {
        RunError::Memory => Err(AllocError),
        _ => Ok(Came::Refused { line, event }),
    }
}

// Something is left to do behind the most events.
fn restless(line: u64) -> Came
    ensures { result ≡ cames.Bad (record { line = line; fault = faults.Restless MOST_EVENTS }) }
{
    Came::Bad(BadLine {
        line,
        fault: Fault::Restless(MOST_EVENTS),
    })
}
