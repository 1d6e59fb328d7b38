//! The steps of a group, dealt to workers.
#![tactic(auto)]

ghost use Rattle.std.specs.Prelude.{◌≡◌, ◌<◌, length, IfOk, OnOk};
ghost use Rattle.simplex_par.specs.Lanes.{AreEmpty, MakesStep, AllStep, LanesStep, PutsLast, TakesFirst};

use simplex_mailbox::Gate;
use simplex_network::Task;
use std::alloc::{AllocError, Global};
use std::collections::VecDeque;
use std::thread;
use std::thread::Threads;

/// The step of the event at this place of its group.
#[derive(Drop)]
pub(crate) struct Dealt {
    pub(crate) place: u32,
    pub(crate) task: Task,
}

impl Dealt {
    /// Makes the step, behind the gate.
    fn step<G: Gate>(&mut self, gate: &G, turn: u64)
        ensures { MakesStep self.old self.new }
    {
        gate.pass(self.place, turn);
        self.task.step();
    }
}

/// The steps of one worker, in order of events.
#[derive(Drop)]
pub(crate) struct Lane {
    pub(crate) dealt: VecDeque<Dealt>,
}

impl Lane {
    /// Makes the steps, one after another.
    fn step<G: Gate>(&mut self, gate: &G, turn: u64)
        ensures { AllStep self.old.dealt.items self.new.dealt.items }
    {
        for k in 0..self.dealt.len() {
            self.dealt[k].step(gate, turn);
        }
    }
}

/// So many lanes, with no steps.
pub(crate) fn empty_lanes(alloc: Global, workers: usize) -> Result<Vec<Lane>, AllocError>
    ensures { IfOk result (λ lanes. AreEmpty workers lanes.items) }
{
    let mut lanes = Vec::new(alloc);
    for _ in 0..workers {
        lanes.push(Lane {
            dealt: VecDeque::new(alloc),
        })?;
    }
    Ok(lanes)
}

/// All lanes step at once, each in a thread of its own. [workers]
pub(crate) fn step_all<G: Gate, R: Threads + Sync>(rt: &R, lanes: &mut [Lane], gate: &G, turn: u64)
    ensures { LanesStep lanes.old lanes.new }
{
    if lanes.is_empty() {
        return;
    }
    let count = lanes.len();
    let step = |_worker: usize, lane: &mut Lane|
        ensures { AllStep lane.entry.now.dealt.items lane.exit.now.dealt.items }
    { lane.step(gate, turn) };
    thread::for_each_mut(rt, lanes, count, &step);
}

/// The step goes last into the lane of its place.
pub(crate) fn put(lanes: &mut Vec<Lane>, dealt: Dealt) -> Result<(), AllocError>
    requires { 0 < length lanes.old.items }
    ensures { OnOk result (PutsLast dealt.place dealt lanes.old.items lanes.new.items) }
{
    let worker = dealt.place as usize % lanes.len();
    lanes[worker].dealt.push_back(dealt)?;
    Ok(())
}

/// The step of this place, which is the first of its lane.
pub(crate) fn next_of(lanes: &mut Vec<Lane>, place: usize) -> Option<Dealt>
    requires { 0 < length lanes.old.items }
    ensures { TakesFirst place result lanes.old.items lanes.new.items }
{
    let first = place % lanes.len();
    lanes[first].dealt.pop_front()
}
