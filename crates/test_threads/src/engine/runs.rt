//! Runs on threads.
use super::gates::{InStep, Meets};
use super::member::{answers, finalizes, started};
use crate::alone::engine;
use simplex_engine::PollError;
use simplex_journal::{Journal, MemoryJournal};
use simplex_threads::{OpenGate, start_threads};
use simplex_types::View;
use std::test::Fail;

#[test]
fn threads_meet(rt: HostRuntime) -> Result<(), Fail> {
    let engine = started(rt.alloc(), 1, 0)?;
    let gate = Meets::new();
    let run = start_threads(&rt, engine, answers(rt.alloc(), 30)?, 8, &gate)
        .ok()
        .ok_or("a run")?;
    assert_eq!(rt; gate.progress.gave_up(), 0);
    assert_eq!(rt; gate.progress.met(), 2);
    assert_eq!(rt; gate.progress.turns(), (8, 8, 8));
    assert_eq!(rt;
        (run.batcher.len(), run.voter.len(), run.resolver.len()),
        (8, 8, 8)
    );
    Ok(())
}

#[test]
fn a_member_alone_finalizes_a_view(rt: HostRuntime) -> Result<(), Fail> {
    let engine = started(rt.alloc(), 1, 0)?;
    let turns = 24;
    let gate = InStep::new(turns);
    let run = start_threads(&rt, engine, answers(rt.alloc(), 30)?, turns, &gate)
        .ok()
        .ok_or("a run")?;
    assert_eq!(rt; gate.progress.gave_up(), 0);
    assert_eq!(rt; gate.progress.turns(), (turns, turns, turns));
    assert!(rt; finalizes(&run.voter, View(1)));
    assert_eq!(rt; run.journal.faults(), 0);
    Ok(())
}

#[test]
fn a_failing_call_ends_the_turns_of_the_voter(rt: HostRuntime) -> Result<(), Fail> {
    // The start reads the journal; the first vote is appended next.
    let engine = started(rt.alloc(), 1, 2)?;
    let run = start_threads(&rt, engine, answers(rt.alloc(), 3)?, 8, &OpenGate)
        .ok()
        .ok_or("a run")?;
    assert_eq!(rt;
        (run.batcher.len(), run.voter.len(), run.resolver.len()),
        (8, 1, 8)
    );
    assert_eq!(rt; run.journal.faults(), 1);
    Ok(())
}

#[test]
fn an_engine_that_was_not_started(rt: HostRuntime) -> Result<(), Fail> {
    let engine = engine(rt.alloc(), 1, MemoryJournal::new(rt.alloc()))?;
    match start_threads(&rt, engine, answers(rt.alloc(), 0)?, 8, &OpenGate) {
        Err(error) => assert_eq!(rt; error, PollError::Stopped),
        Ok(_) => return Err("it was not started".into()),
    }
    Ok(())
}

#[test]
fn no_turns(rt: HostRuntime) -> Result<(), Fail> {
    let engine = started(rt.alloc(), 1, 0)?;
    let run = start_threads(&rt, engine, answers(rt.alloc(), 0)?, 0, &OpenGate)
        .ok()
        .ok_or("a run")?;
    assert_eq!(rt;
        (run.batcher.len(), run.voter.len(), run.resolver.len()),
        (0, 0, 0)
    );
    // The start told the batcher where the member is, and the resolver that its journal was read.
    assert_eq!(rt; run.logs.batcher.calls().len(), 1);
    assert_eq!(rt; run.logs.resolver.calls().len(), 1);
    assert!(rt; run.logs.voter.calls().is_empty());
    Ok(())
}
