//! Two workers meet, and any number of workers gives what one gives.
ghost use Rattle.std.specs.Prelude.{◌<◌};

use crate::par::gates::{Counts, Holds};
use crate::par::lists::{Act, List};
use simplex_form::Input;
use simplex_par::{OpenGate, run_network_par};
use simplex_run::run_network;
use simplex_transcript::{Refusal, RunError};
use std::alloc::Global;
use std::process::Abort;
use std::test::Fail;
use std::thread::Threads;

/// Four members start, and the batchers of the first two step.
fn two_steps(alloc: Global) -> Result<Input, Fail> {
    let mut list = List::new(alloc, 4);
    list.all(Act::Start)?;
    list.act(0, Act::Step("batcher"))?;
    list.act(1, Act::Step("batcher"))?;
    list.input()
}

/// How many wait in vain at a gate that holds one of two steps until the other passes.
fn waits_in_vain<R: Threads + Sync>(
    rt: &R,
    alloc: Global,
    held: u32,
    until: u32,
    workers: u32,
) -> Result<u64, Fail>
    requires { 0 < workers }
{
    let input = two_steps(alloc)?;
    let gate = Holds::new(held, until);
    run_network_par(
        rt,
        alloc,
        &input.setup,
        input.events.as_slice(),
        workers,
        &gate,
    )
    .ok()
    .ok_or("a whole run")?;
    Ok(gate.gave_up())
}

#[test]
fn two_workers_are_inside_at_once(rt: HostRuntime) -> Result<(), Fail> {
    assert_eq!(rt; waits_in_vain(&rt, rt.alloc(), 0, 1, 8)?, 0);
    assert_eq!(rt; waits_in_vain(&rt, rt.alloc(), 1, 0, 2)?, 0);
    // The other way round one worker would pass, since it makes the steps in turn.
    assert_eq!(rt; waits_in_vain(&rt, rt.alloc(), 0, 1, 1)?, 1);
    Ok(())
}

#[test]
fn each_place_of_a_group_passes_the_gate(rt: HostRuntime) -> Result<(), Fail> {
    let input = two_steps(rt.alloc())?;
    let gate = Counts::new(5);
    run_network_par(
        &rt,
        rt.alloc(),
        &input.setup,
        input.events.as_slice(),
        2,
        &gate,
    )
    .ok()
    .ok_or("a whole run")?;
    assert!(rt; gate.counted() == (1, 1, 0));
    Ok(())
}

/// Any number of workers makes the entries of the run one by one.
fn assert_same_entries<R: Abort + Threads + Sync>(
    rt: &R,
    alloc: Global,
    input: &Input,
) -> Result<(), Fail> {
    let wanted = run_network(alloc, &input.setup, input.events.as_slice())
        .ok()
        .ok_or("a whole run")?;
    for workers in [1, 2, 4, 64u32] {
        let ran = run_network_par(
            rt,
            alloc,
            &input.setup,
            input.events.as_slice(),
            workers,
            &OpenGate,
        )
        .ok()
        .ok_or("a whole run")?;
        assert!(rt;
            ran.entries.as_slice() == wanted.entries.as_slice(),
            "{workers} workers"
        );
    }
    Ok(())
}

#[test]
fn any_number_of_workers_makes_the_same_entries(rt: HostRuntime) -> Result<(), Fail> {
    let mut list = List::new(rt.alloc(), 6);
    // Events 1 to 6, 7, and 8 to 13: each member gives view 1 up, and sends a nullify.
    list.all(Act::Start)?;
    list.tick(1000)?;
    list.all(Act::Step("timer"))?;
    // Each hears all the others, one at a time.
    for behind in 1..6 {
        for member in 0..6 {
            list.act(member, Act::Deliver(8 + (member + behind) % 6))?;
        }
    }
    for _ in 0..4 {
        list.all(Act::Step("batcher"))?;
        list.all(Act::Step("voter"))?;
    }
    let input = list.input()?;
    assert_same_entries(&rt, rt.alloc(), &input)
}

#[test]
fn the_first_refusal_of_a_group_ends_the_run(rt: HostRuntime) -> Result<(), Fail> {
    let mut list = List::new(rt.alloc(), 4);
    list.all(Act::Start)?;
    list.act(0, Act::Step("batcher"))?;
    list.act(2, Act::Answer(4))?;
    list.act(1, Act::Step("batcher"))?;
    list.act(3, Act::Answer(1))?;
    let input = list.input()?;
    let refused = Refusal {
        error: RunError::NotPending,
        event: 6,
    };
    for workers in 1..4u32 {
        let ran = run_network_par(
            &rt,
            rt.alloc(),
            &input.setup,
            input.events.as_slice(),
            workers,
            &OpenGate,
        );
        match ran {
            Err(refusal) => assert_eq!(rt; refusal, refused),
            Ok(_) => return Err("an answer to no request is taken".into()),
        }
    }
    Ok(())
}
