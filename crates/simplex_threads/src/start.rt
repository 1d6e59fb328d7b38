//! Each actor of an engine on a thread of its own.
ghost use Rattle.std.specs.Prelude.{◌≡◌, ◌<◌, ◌^◌, List, All, true, false, IfOk, IfErr, OnOk};
ghost use Rattle.model_steps.specs.Engine.{EngineMade, Did, runs};
ghost use Rattle.simplex_engine.specs.Parts.{Parts, parts_of};
ghost use Rattle.simplex_engine.specs.Polled.{is_memory};
ghost use Rattle.simplex_engine.specs.Stands.{StandsFor, StandsOver, Holds, clock_of, faults_of, faults_in, is_running, not_running};
ghost use Rattle.simplex_turns.specs.Threads.{IsInTime};
ghost use Rattle.simplex_threads.specs.Ran.{BatcherRan, ResolverRan, VoterRan, VoterRanWhole, IsHandedOn};
ghost use Rattle.simplex_threads.specs.Ready.{IsReady};

use crate::run::{Feed, ThreadRun};
use simplex_engine::{Boxes, Crew, Engine, PollError};
use simplex_journal::Journal;
use simplex_mailbox::Gate;
use simplex_turns::{
    BatcherThread, Mailboxes, Outs, ResolverThread, Team, VoterThread, open_for_three, open_for_two,
};
use simplex_types::elector::Elector;
use simplex_types::{Keep, Scheme};
use std::alloc::{AllocError, Global};
use std::collections::VecDeque;
use std::sync::Wait;
use std::thread::Threads;

/// Runs the batcher, the voter and the resolver of an engine on a thread of its own each, so many turns each. A turn takes a
/// message, else something of the actor's own: of its feed, or what it holds. The batcher and the resolver keep the clock of
/// the engine's last call. Before its turn t, counted from 1, each passes the gate as `pass(who, t)`: the batcher is 0, the
/// voter 1, the resolver 2. May wait.
///
/// A packet of a member that the engine blocked before, or the actor's own steps since, gives nothing; whom another actor
/// blocks meanwhile an actor is not told.
///
/// `Stopped` comes before a start and after a step that was broken off, `Failed` after want of memory.
pub fn start_threads<S, L, J, G, R>(
    rt: &R,
    engine: Engine<S, L, J>,
    feed: Feed,
    turns: u64,
    gate: &G,
) -> Result<ThreadRun<J>, PollError>
where
    S: Scheme + Keep + Drop + Send,
    L: Elector + Drop + Send,
    J: Journal + Drop + Send,
    G: Gate,
    R: Threads + Wait + Sync,
    requires clocks { All IsInTime feed.voter.items }
    // What each actor gave, turn by turn. What the engine stands for over a journal that tells that no call of it will fail,
    // it stands for over any.
    ensures over { (made : EngineMade) (past : List Did) → StandsFor engine made past
        → StandsOver engine made past }
    ensures batcher { IfOk result (λ run. (made : EngineMade) (past : List Did) → StandsOver engine made past
        → BatcherRan (parts_of made past) (clock_of engine) turns feed.batcher.items
        run.logs.batcher run.batcher.items) }
    ensures resolver { IfOk result (λ run. (made : EngineMade) (past : List Did) → StandsOver engine made past
        → ResolverRan (parts_of made past) (clock_of engine) turns feed.resolver.items
        run.logs.resolver run.resolver.items) }
    ensures voter { IfOk result (λ run. (made : EngineMade) (past : List Did) → StandsOver engine made past
        → VoterRan (parts_of made past) (clock_of engine) turns feed.voter.items
        run.logs.voter run.voter.items (faults_of engine) (J.fault_count run.journal)
        (J.sections run.journal)) }
    ensures whole { IfOk result (λ run. (made : EngineMade) (past : List Did) → StandsFor engine made past
        → VoterRanWhole (parts_of made past) (clock_of engine) turns feed.voter.items
        run.logs.voter run.voter.items (J.sections run.journal)) }
    // What each put into the mailboxes of the others.
    ensures handed { IfOk result IsHandedOn }
    ensures running { OnOk result (is_running engine ≡ true) }
    ensures refused { IfErr result (λ error. is_memory error ≡ false → (is_running engine ≡ false)
        × (error ≡ not_running engine)) }
    ensures runs { (made : EngineMade) (past : List Did) → StandsOver engine made past
        → is_running engine ≡ runs past }
{
    engine.stands_over();
    engine.is_running();
    let now = engine.clock();
    let crew = engine.into_crew()?;
    let run = run_crew(rt, crew, now, feed, turns, gate)?;
    Ok(run)
}

// The actors, with their passes and their feeds.
fn team_of<S: Scheme + Drop, L: Elector + Drop, J: Journal + Drop, R: Wait>(
    rt: &R,
    crew: Crew<S, L, J>,
    now: u64,
    feed: Feed,
) -> Result<Team<S, L, J>, AllocError>
    ensures { IfOk result (IsReady crew now feed) }
{
    let Crew {
        alloc,
        voter,
        batcher,
        resolver,
        boxes,
        blocked,
    } = crew;
    let (for_batcher, batcher_takes, voter_to_batcher) = open_for_two(rt, alloc, boxes.batcher)?;
    let (for_resolver, resolver_takes, voter_to_resolver) = open_for_two(
        rt,
        alloc,
        boxes.resolver,
    )?;
    let (for_voter, voter_takes, batcher_to_voter, resolver_to_voter) = open_for_three(
        rt,
        alloc,
        boxes.voter,
    )?;
    Ok(Team {
        boxes: Mailboxes {
            batcher: for_batcher,
            voter: for_voter,
            resolver: for_resolver,
        },
        batcher: BatcherThread {
            alloc,
            actor: batcher,
            now,
            feed: queue_of(alloc, feed.batcher)?,
            blocked,
            own: batcher_takes,
            voter: batcher_to_voter,
        },
        voter: VoterThread {
            alloc,
            actor: voter,
            now,
            feed: queue_of(alloc, feed.voter)?,
            own: voter_takes,
            batcher: voter_to_batcher,
            resolver: voter_to_resolver,
        },
        resolver: ResolverThread {
            alloc,
            actor: resolver,
            now,
            feed: queue_of(alloc, feed.resolver)?,
            own: resolver_takes,
            voter: resolver_to_voter,
        },
    })
}

// The actors of a running engine run, and the records of their mailboxes are closed.
fn run_crew<S, L, J, G, R>(
    rt: &R,
    crew: Crew<S, L, J>,
    now: u64,
    feed: Feed,
    turns: u64,
    gate: &G,
) -> Result<ThreadRun<J>, AllocError>
where
    S: Scheme + Drop + Send,
    L: Elector + Drop + Send,
    J: Journal + Drop + Send,
    G: Gate,
    R: Threads + Wait + Sync,
    requires clock { now < 2 ^ 63 }
    requires clocks { All IsInTime feed.voter.items }
    ensures batcher { IfOk result (λ run. (parts : Parts) → Holds false crew parts
        → BatcherRan parts now turns feed.batcher.items run.logs.batcher run.batcher.items) }
    ensures resolver { IfOk result (λ run. (parts : Parts) → Holds false crew parts
        → ResolverRan parts now turns feed.resolver.items run.logs.resolver run.resolver.items) }
    ensures voter { IfOk result (λ run. (parts : Parts) → Holds false crew parts
        → VoterRan parts now turns feed.voter.items run.logs.voter run.voter.items
        (faults_in crew) (J.fault_count run.journal) (J.sections run.journal)) }
    ensures whole { IfOk result (λ run. (parts : Parts) → Holds true crew parts
        → VoterRanWhole parts now turns feed.voter.items run.logs.voter run.voter.items
        (J.sections run.journal)) }
    ensures handed { IfOk result IsHandedOn }
{
    let team = team_of(rt, crew, now, feed)?;
    let (team, outs) = team.run(rt, turns, gate)?;
    let (logs, journal) = team.finish(rt)?;
    let Outs {
        batcher,
        voter,
        resolver,
    } = outs;
    Ok(ThreadRun {
        batcher,
        resolver,
        voter,
        logs,
        journal,
    })
}

// The items, in order, to be taken one by one.
fn queue_of<T: Drop>(alloc: Global, items: Vec<T>) -> Result<VecDeque<T>, AllocError>
    ensures { IfOk result (λ queue. queue.items ≡ items.items) }
{
    let mut queue = VecDeque::with_capacity(alloc, items.len())?;
    for item in items {
        queue.push_back(item)?;
    }
    Ok(queue)
}
