//! The events of a run that goes on by itself.
ghost use Rattle.std.specs.Prelude.{◌≡◌, ◌≤◌, length, IfOk, IfErr};
ghost use Rattle.simplex_network.specs.Answer.{setup_refusal, IsRefused};
ghost use Rattle.simplex_simulator.specs.Going.{IsRunnable, Went};

use crate::plan::Plan;
use crate::simulation::Simulation;
use simplex_transcript::{Event, RunError, Setup};
use simplex_types::Sequence;
use std::alloc::Global;

/// The events that a plan makes of a setup, each of which the network makes, or why the setup is refused.
pub fn simulate(alloc: Global, setup: &Setup, plan: &Plan) -> Result<Sequence<Event>, RunError>
    // No more than the plan has choices.
    ensures few { IfOk result (λ events. length events ≤ plan.now.steps) }
    // None of them is refused.
    ensures runnable { IfOk result (λ events. IsRunnable setup.now events) }
    ensures refused { IfErr result (IsRefused (setup_refusal setup.now)) }
{
    let mut simulation = Simulation::new(alloc, setup, plan)?;
    for _ in 0..plan.steps {
        simulation.choose()?;
    }
    Ok(simulation.into_events())
}
