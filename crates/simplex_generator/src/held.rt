//! What the engines of a network hold.
#![tactic(auto)]

ghost use Rattle.std.specs.Prelude.{◌≡◌, ◌++◌, ◌&&◌, ℕ, IfOk, OnOk, true};
ghost use Rattle.model_run.specs.Life.{Running, clock_of, life_in};
ghost use Rattle.model_run.specs.Kinds.{is_node, runs_engine};
ghost use Rattle.simplex_engine.specs.Holding as holding;
ghost use Rattle.simplex_generator.specs.Setup.{setup_of};
ghost use Rattle.simplex_generator.specs.Generated as generated;
ghost use Rattle.simplex_generator.specs.Stands.{Answers, AnswersAt, EngineAnswers};

use crate::{ENGINE_NODES, Held, NODES, SOURCES};
use simplex_network::{Network, NodeEngine};
use simplex_transcript::{Node, StepSource};
use std::alloc::{AllocError, Global};

/// The sources that hold something, by node, then in order.
#[tactic(auto, unfolding(crate::specs::Generated::held, crate::specs::Setup::setup_of))]
pub(crate) fn all_held(alloc: Global, network: &Network, now: u64) -> Result<Vec<Held>, AllocError>
    ensures { IfOk result (λ held. AnswersAt network.now now generated.held held.items) }
{
    let mut held = Vec::new(alloc);
    let mut rest = ENGINE_NODES.as_slice();
    while let [node, after @ ..] = rest {
        push_held(&mut held, network, *node, now)?;
        rest = after;
    }
    Ok(held)
}

// Puts those of a node that hold something behind the others.
#[tactic(auto, using(crate::proofs::Shown::held_none, crate::proofs::Shown::held_some))]
fn push_held(
    held: &mut Vec<Held>,
    network: &Network,
    node: Node,
    now: u64,
) -> Result<(), AllocError>
    requires { (is_node (setup_of 0) node && runs_engine (setup_of 0) node.member) ≡ true }
    ensures { OnOk result (AnswersAt network.now now
        (λ setting before. held.old.items
        ++ generated.held_at (life_in setting before node) (clock_of before) node)
        held.new.items) }
{
    match network.engine(node) {
        None => Ok(()),
        Some(engine) => push_sources(held, engine, node, now),
    }
}

// The same of an engine.
fn push_sources(
    held: &mut Vec<Held>,
    engine: &NodeEngine,
    node: Node,
    now: u64,
) -> Result<(), AllocError>
    ensures { OnOk result (EngineAnswers engine.now
        (λ made past. held.old.items
        ++ generated.held_at (Running made past) now node) held.new.items) }
{
    let mut rest = SOURCES.as_slice();
    while let [source, after @ ..] = rest {
        if holds(engine, *source, now) {
            held.push(Held {
                node,
                source: *source,
            })?;
        }
        rest = after;
    }
    Ok(())
}

// Whether the source of the engine holds something.
fn holds(engine: &NodeEngine, source: StepSource, now: u64) -> bool
    ensures { EngineAnswers engine.now (λ made past. holding.holds made past source now) result }
{
    engine.holds(source, now)
}

/// The nodes that are given packets: those whose engine runs, and those that have none.
#[tactic(auto, unfolding(crate::specs::Setup::setup_of))]
pub(crate) fn running_nodes(alloc: Global, network: &Network) -> Result<Vec<Node>, AllocError>
    ensures { IfOk result (λ running. Answers network.now generated.running_nodes running.items) }
{
    let mut running = Vec::new(alloc);
    let mut rest = NODES.as_slice();
    while let [node, after @ ..] = rest {
        if is_running(network, *node) {
            running.push(*node)?;
        }
        rest = after;
    }
    Ok(running)
}

#[tactic(auto, using(crate::proofs::Shown::runs_shown, crate::proofs::Shown::runs_without))]
fn is_running(network: &Network, node: Node) -> bool
    requires { is_node (setup_of 0) node ≡ true }
    ensures { Answers network.now
        (λ setting before. generated.is_running setting before node) result }
{
    if has_engine(node) {
        network.engine(node).is_some()
    } else {
        true
    }
}

// Whether the member runs engines.
#[tactic(auto, using(crate::proofs::Shown::engines))]
fn has_engine(node: Node) -> bool
    ensures { (number : ℕ) → result ≡ runs_engine (setup_of number) node.member }
{
    node.member < 7 && node.member != 5
}
