//! What comes up between nodes by itself.
ghost use Rattle.std.specs.Prelude.{◌≡◌, ◌&&◌, true, IfOk, List, map, not};
ghost use Rattle.std.specs.List.{list_any, slice_get};
ghost use Rattle.model_run.specs.Kinds as kinds;
ghost use Rattle.model_run.specs.Life.{Noted, Running, clock_of};
ghost use Rattle.model_run.specs.Setting.{Setting};
ghost use Rattle.simplex_engine.specs.Holding as holding;
ghost use Rattle.simplex_network.specs.Stands.{StandsFor};
ghost use Rattle.simplex_generator.specs.Drawing as drawing;
ghost use Rattle.simplex_generator.specs.Generated.{held_at};
ghost use Rattle.simplex_generator.specs.Stands.{EngineAnswers};
ghost use Rattle.simplex_scripts.specs.Coming as coming;
ghost use Rattle.simplex_scripts.specs.Stands.{NetworkAnswers};

use crate::nodes::{is_node, runs_engine, says_something};
use simplex_generator::{Held, Requests, SOURCES};
use simplex_messages::Stop;
use simplex_network::{Network, NodeEngine};
use simplex_script::{OpenRequest, Parcel, delivery, judged, wants_verdict};
use simplex_transcript::{Event, Node, Setup, StepSource};
use std::alloc::{AllocError, Global};

fn is_one_of(node: &Node, nodes: &[Node]) -> bool
    ensures { result ≡ list_any (kinds.is_same_node node.now) nodes.now }
{
    nodes.contains(node)
}

// Whether the node is one of these: all nodes are, where none is named.
fn is_among(node: Node, nodes: &[Node]) -> bool
    ensures { result ≡ coming.is_among nodes.now node }
{
    match nodes {
        [] => true,
        [_, ..] => is_one_of(&node, nodes),
    }
}

// ---- a step

fn holds(engine: &NodeEngine, source: StepSource, now: u64) -> bool
    ensures { EngineAnswers engine.now (λ made past. holding.holds made past source now) result }
{
    engine.holds(source, now)
}

// The first source of an engine that holds something.
fn first_held(engine: &NodeEngine, node: Node, now: u64) -> Option<Held>
    ensures { EngineAnswers engine.now
        (λ made past. slice_get (held_at (Running made past) now node) 0) result }
{
    let mut rest = SOURCES.as_slice();
    while let [source, after @ ..] = rest {
        if holds(engine, *source, now) {
            return Some(Held {
                node,
                source: *source,
            });
        }
        rest = after;
    }
    None
}

// The first source of a node that holds something, where the node is among these.
#[tactic(auto, using(crate::proofs::Holding::first_out, crate::proofs::Holding::first_none, crate::proofs::Holding::first_some))]
fn held_among(network: &Network, node: Node, now: u64, among: &[Node]) -> Option<Held>
    ensures { (setting : Setting) (before : List Noted) → StandsFor network.now setting before → clock_of before ≡ now
        → kinds.is_node setting.setup node ≡ true
        → result ≡ slice_get (coming.held_among setting before among.now node) 0 }
{
    if !is_among(node, among) {
        return None;
    }
    match network.engine(node) {
        None => None,
        Some(engine) => first_held(engine, node, now),
    }
}

fn step(held: Held) -> Event
    ensures { result ≡ drawing.step held }
{
    Event::Step {
        node: held.node,
        source: held.source,
        stop: Stop::None,
    }
}

/// The step of the first source that holds something, by node, then in order.
#[tactic(auto, using(crate::proofs::Holding::holding_all, crate::proofs::Holding::holding_more, crate::proofs::Holding::holding_found, crate::proofs::Holding::holding_over))]
pub(crate) fn next_step(
    network: &Network,
    nodes: &[Node],
    now: u64,
    among: &[Node],
) -> Option<Event>
    ensures { (setting : Setting) (before : List Noted) → StandsFor network.now setting before → clock_of before ≡ now
        → nodes.now ≡ coming.nodes_of setting.setup
        → result ≡ coming.next_step setting before among.now }
{
    let mut rest = nodes;
    while let [node, after @ ..] = rest {
        if let Some(held) = held_among(network, *node, now, among) {
            return Some(step(held));
        }
        rest = after;
    }
    None
}

// ---- a verdict

/// The requests that are open.
pub(crate) fn open_in(alloc: Global, requests: &Requests) -> Result<Vec<OpenRequest>, AllocError>
    ensures { IfOk result (λ it. it.items ≡ map coming.as_open requests.now.open.items) }
{
    let mut all = Vec::new(alloc);
    let mut rest = requests.open();
    while let [it, after @ ..] = rest {
        all.push(OpenRequest {
            node: it.node,
            request: it.request,
            asked: it.asked,
        })?;
        rest = after;
    }
    Ok(all)
}

fn wants_verdict_among(it: &OpenRequest, among: &[Node]) -> bool
    ensures { result ≡ coming.wants_verdict_among among.now it.now }
{
    is_among(it.node, among) && wants_verdict(it)
}

/// The oldest request for a verdict is answered by yes.
pub(crate) fn next_verdict(open: &[OpenRequest], among: &[Node]) -> Option<Event>
    ensures { result ≡ coming.next_verdict open.now among.now }
{
    let mut rest = open;
    while let [it, after @ ..] = rest {
        if wants_verdict_among(it, among) {
            return Some(judged(it, true));
        }
        rest = after;
    }
    None
}

// ---- a delivery

// Whether there is such a node, and what is delivered to it may come to something.
#[tactic(auto, using(crate::proofs::Holding::other_hears))]
fn hears(network: &Network, setup: &Setup, node: Node) -> bool
    ensures { NetworkAnswers network.now setup.now
        (λ setting before. kinds.is_node setting.setup node
        && coming.hears setting before node) result }
{
    if runs_engine(setup, node.member) {
        network.engine(node).is_some()
    } else {
        only_hears(setup, node)
    }
}

// Whether there is such a node, and its member is not silent.
fn only_hears(setup: &Setup, node: Node) -> bool
    ensures { result ≡ (kinds.is_node setup.now node && kinds.is_of_kind
        (λ kind. not (coming.is_silent kind)) setup.now node.member) }
{
    is_node(setup, node) && says_something(setup, node.member)
}

// Whether the parcel goes between the nodes, to one that hears.
fn may_come(network: &Network, setup: &Setup, among: &[Node], it: &Parcel) -> bool
    ensures { NetworkAnswers network.now setup.now
        (λ setting before. coming.may_come setting before among.now it.now) result }
{
    is_among(it.from, among) && is_among(it.to, among) && hears(network, setup, it.to)
}

/// The oldest packet is delivered.
#[tactic(auto, unfolding(crate::specs::Coming::next_delivery))]
pub(crate) fn next_delivery(
    network: &Network,
    setup: &Setup,
    waiting: &[Parcel],
    among: &[Node],
) -> Option<Event>
    ensures { NetworkAnswers network.now setup.now
        (λ setting before. coming.next_delivery setting before waiting.now among.now) result }
{
    let mut rest = waiting;
    while let [it, after @ ..] = rest {
        if may_come(network, setup, among, it) {
            return Some(delivery(it));
        }
        rest = after;
    }
    None
}
