//! The requests that are open and were not answered.
#![tactic(auto, unfolding(crate::specs::Unanswered::unanswered_behind, crate::specs::Unanswered::count_in, crate::specs::Unanswered::count_behind))]

ghost use Rattle.std.specs.Prelude.{◌≡◌, ◌==◌, ◌++◌, ◌+◌, ◌&&◌, [], OnOk, IfOk, Some, filter, not, length, if◌then◌else◌};
ghost use Rattle.std.specs.List.{list_any};
ghost use Rattle.simplex_transcript.specs.declared.node.Node as nodes;
ghost use Rattle.model_run.specs.Kinds.{is_same_node};
ghost use Rattle.simplex_generator.specs.Unanswered as waiting;

use model_rules::Asked;
use simplex_transcript::{Entry, Event, Node, Ref};
use std::alloc::{AllocError, Global};

/// A request that is open and was not answered.
#[derive(Clone, Copy, Debug, PartialEq, Eq)]
pub struct Unanswered {
    /// The node that asked.
    pub node: Node,
    /// Where it stands.
    pub request: Ref,
    /// Its number since its node's last start, from 0.
    pub number: u64,
    /// What it asked for.
    pub asked: Asked,
}

/// How many requests a node asked since its last start.
#[derive(Clone, Copy)]
pub(crate) struct Count {
    pub(crate) node: Node,
    pub(crate) asked: u64,
}

/// The requests of all nodes.
#[derive(Drop)]
pub struct Requests {
    pub(crate) open: Vec<Unanswered>,
    pub(crate) counts: Vec<Count>,
}

impl Requests {
    /// None.
    pub fn new(alloc: Global) -> Requests
        ensures open { result.open.items ≡ [] }
        ensures counts { result.counts.items ≡ [] }
    {
        Requests {
            open: Vec::new(alloc),
            counts: Vec::new(alloc),
        }
    }

    /// What is open and was not answered, by event, then place.
    pub fn open(&self) -> &[Unanswered]
        ensures { result.now ≡ self.now.open.items }
    {
        self.open.as_slice()
    }

    /// Takes in an event and its entry.
    #[tactic(auto, unfolding(crate::specs::Unanswered::unanswered_behind, crate::specs::Unanswered::count_behind), using(crate::proofs::Dropped::none_asked))]
    pub fn take_in(&mut self, event: &Event, entry: &Entry) -> Result<(), AllocError>
        ensures open { OnOk result (self.new.open.items ≡ waiting.unanswered_behind event.now entry.now
            (waiting.first_in event.now self.old.counts.items) self.old.open.items) }
        ensures counts { OnOk result
            (waiting.Counted self.old.counts.items self.new.counts.items event.now entry.now) }
    {
        self.end(event);
        match node_in(event) {
            None => Ok(()),
            Some(node) => self.ask(event, node, entry),
        }
    }

    // Requests that the event answers or ends are no more open.
    fn end(&mut self, event: &Event)
        ensures open { self.new.open.items
            ≡ filter (λ it. not (waiting.is_ended_by event.now it)) self.old.open.items }
        ensures counts { self.new.counts ≡ self.old.counts }
    {
        self.open.retain(|it| !is_ended_by(event, it));
    }

    // The event's node asks what the entry says, and drops what it says.
    fn ask(&mut self, event: &Event, node: Node, entry: &Entry) -> Result<(), AllocError>
        requires { waiting.node_in event.now ≡ Some node }
        ensures open { OnOk result (self.new.open.items
            ≡ filter (λ it. not (waiting.is_dropped_in event.now entry.now it)) (self.old.open.items
            ++ waiting.asked_in event.now entry.now
            (waiting.first_in event.now self.old.counts.items))) }
        ensures counts { OnOk result
            (waiting.Counted self.old.counts.items self.new.counts.items event.now entry.now) }
    {
        let first = first_in(event, &self.counts, node);
        let next = push_asked(&mut self.open, node, entry, first)?;
        set_count(&mut self.counts, node, next)?;
        drop_requests(&mut self.open, node, entry.dropped.as_slice());
        Ok(())
    }
}

// The number of the next request that the event's node asks.
fn first_in(event: &Event, counts: &[Count], node: Node) -> u64
    ensures { result ≡ waiting.first_in event.now counts.now node }
{
    if matches!(event, Event::Start { .. }) {
        0
    } else {
        count_in(counts, node)
    }
}

fn count_in(counts: &[Count], node: Node) -> u64
    ensures { result ≡ waiting.count_in counts.now node }
{
    let mut rest = counts;
    while let [count, after @ ..] = rest {
        if count.node == node {
            return count.asked;
        }
        rest = after;
    }
    0
}

fn is_at(count: &Count, node: Node) -> bool
    ensures { result ≡ is_same_node count.now.node node }
{
    count.node == node
}

fn set_count(counts: &mut Vec<Count>, node: Node, asked: u64) -> Result<(), AllocError>
    ensures { OnOk result ((other : nodes.Node) → waiting.count_in counts.new.items other
        ≡ (if is_same_node node other then asked else waiting.count_in counts.old.items other)) }
{
    counts.retain(|count| !is_at(count, node));
    counts.push(Count { node, asked })?;
    Ok(())
}

// Puts the requests of the entry behind the others, numbered from the first. Answers the next number.
fn push_asked(
    open: &mut Vec<Unanswered>,
    node: Node,
    entry: &Entry,
    first: u64,
) -> Result<u64, AllocError>
    ensures open { OnOk result (open.new.items ≡ open.old.items
        ++ waiting.asked_from node entry.now.event 0 first entry.now.asked) }
    ensures next { IfOk result (λ next. next ≡ first + length entry.now.asked) }
{
    let mut number = first;
    let mut place = 0;
    let mut rest = entry.asked.as_slice();
    while let [asked, after @ ..] = rest {
        let request = Ref {
            event: entry.event,
            place,
        };
        open.push(Unanswered {
            node,
            request,
            number,
            asked: *asked,
        })?;
        // No memory has room for so many.
        number = number.checked_add(1).ok_or(AllocError)?;
        place += 1;
        rest = after;
    }
    Ok(number)
}

// The node's requests of these numbers are no more open.
fn drop_requests(open: &mut Vec<Unanswered>, node: Node, numbers: &[u64])
    ensures { open.new.items ≡ filter
        (λ it. not (is_same_node node it.node && list_any
        (λ number. number == it.number) numbers.now)) open.old.items }
{
    open.retain(|it| !is_dropped(it, node, numbers));
}

fn is_dropped(it: &Unanswered, node: Node, numbers: &[u64]) -> bool
    ensures { result ≡ (is_same_node node it.now.node && list_any
        (λ number. number == it.now.number) numbers.now) }
{
    node == it.node && numbers.contains(&it.number)
}

// The node that an event names, where that is one that may ask.
fn node_in(event: &Event) -> Option<Node>
    ensures { result ≡ waiting.node_in event.now }
{
    match event {
        Event::Start { node, .. } => Some(*node),
        Event::Deliver { node, .. } => Some(*node),
        Event::Step { node, .. } => Some(*node),
        Event::Answer { node, .. } => Some(*node),
        Event::Crash { node } => Some(*node),
        Event::Tick { .. } => None,
        Event::Inject { .. } => None,
    }
}

// Whether the event answers the request, or ends it with its node's engine.
fn is_ended_by(event: &Event, it: &Unanswered) -> bool
    ensures { result ≡ waiting.is_ended_by event.now it.now }
{
    match event {
        Event::Answer { request, .. } => *request == it.request,
        Event::Start { node, .. } => *node == it.node,
        Event::Crash { node } => *node == it.node,
        Event::Tick { .. } => false,
        Event::Deliver { .. } => false,
        Event::Step { .. } => false,
        Event::Inject { .. } => false,
    }
}
