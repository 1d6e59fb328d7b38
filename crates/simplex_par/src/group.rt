//! The events of a group, stepped at once.
ghost use Rattle.std.specs.Prelude.{◌≡◌, ◌<◌, ◌≤◌, ◌+◌, ◌^◌, ◌++◌, ◌∷◌, [], All, length, true, false, IfOk, IfErr, OnOk};
ghost use Rattle.model_run.specs.Run as runs;
ghost use Rattle.simplex_network.specs.Answer.{is_memory};
ghost use Rattle.simplex_network.specs.Lending.{MayLend};
ghost use Rattle.simplex_par.specs.Lanes.{Any, Done, LanesHold};
ghost use Rattle.simplex_par.specs.Steps.{GroupMakes, GroupRefuses, LendsAll, EntersAll, RefusesOne};

use crate::lanes::{Dealt, Lane, empty_lanes, next_of, put, step_all};
use simplex_mailbox::Gate;
use simplex_network::Network;
use simplex_transcript::{Entry, Event, Refusal, RunError};
use simplex_types::Sequence;
use std::alloc::{AllocError, Global};
use std::thread::Threads;

/// Steps the events of a group, of which the first has this number, by at most so many workers. Their entries go behind the
/// others.
pub(crate) fn step_group<G: Gate, R: Threads + Sync>(
    rt: &R,
    alloc: Global,
    network: &mut Network,
    entries: &mut Sequence<Entry>,
    group: &[Event],
    first: u64,
    workers: usize,
    gate: &G,
) -> Result<(), Refusal>
    requires workers { 0 < workers }
    requires some { 0 < length group.now }
    requires few { first + length group.now ≤ 2 ^ 21 }
    requires may { All (MayLend network.old) group.now }
    ensures done { OnOk result
        (GroupMakes network.old network.new group.now entries.old entries.new) }
    ensures refused { IfErr result (λ refusal. is_memory refusal.error ≡ false
        → GroupRefuses network.old group.now first refusal) }
{
    // No more lanes than events: a place below their number leaves the same rest.
    let lanes = workers.min(group.len());
    let Ok(mut lanes) = lend_all(alloc, network, group, lanes) else {
        return Err(refused(RunError::Memory, first));
    };
    step_all(rt, &mut lanes, gate, first);
    enter_all(network, entries, group, first, lanes)
}

// Lends what the events step, and deals it to so many workers: the place of an event in the group tells its worker.
fn lend_all(
    alloc: Global,
    network: &mut Network,
    group: &[Event],
    workers: usize,
) -> Result<Vec<Lane>, AllocError>
    requires workers { 0 < workers }
    requires few { length group.now ≤ 2 ^ 21 }
    requires may { All (MayLend network.old) group.now }
    ensures may { All (MayLend network.new) group.now }
    ensures shape { IfOk result (λ lanes. LanesHold Any workers 0 group.now lanes.items) }
    ensures lends { IfOk result
        (λ lanes. LendsAll network.old network.new group.now workers lanes.items) }
{
    let mut lanes = empty_lanes(alloc, workers)?;
    let mut place = 0;
    for event in group {
        let task = network.lend(event);
        put(&mut lanes, Dealt { place, task })?;
        place += 1;
    }
    Ok(lanes)
}

// Enters what the steps gave, in order of events.
fn enter_all(
    network: &mut Network,
    entries: &mut Sequence<Entry>,
    group: &[Event],
    first: u64,
    lanes: Vec<Lane>,
) -> Result<(), Refusal>
    requires lanes { 0 < length lanes.items }
    requires few { first + length group.now ≤ 2 ^ 21 }
    requires may { All (MayLend network.old) group.now }
    requires shape { LanesHold Done (length lanes.items) 0 group.now lanes.items }
    ensures done { OnOk result
        (EntersAll network.old network.new group.now lanes.items entries.old entries.new) }
    ensures refused { IfErr result (λ refusal. is_memory refusal.error ≡ false
        → RefusesOne network.old group.now lanes.items first refusal) }
{
    let mut lanes = lanes;
    let mut place = 0;
    let mut number = first;
    for event in group {
        let Some(dealt) = next_of(&mut lanes, place) else {
            unreachable!();
        };
        match network.enter(event, dealt.task) {
            Ok(entry) => push(entries, entry, number)?,
            Err(error) => return Err(refused(error, number)),
        }
        place += 1;
        number += 1;
    }
    Ok(())
}

/// Puts the entry of the event of this number behind the others.
pub(crate) fn push(entries: &mut Sequence<Entry>, entry: Entry, number: u64) -> Result<(), Refusal>
    ensures ok { OnOk result (entries.new ≡ entries.old ++ entry ∷ []) }
    ensures err { IfErr result (λ refusal. is_memory refusal.error ≡ true) }
{
    match entries.push(entry) {
        Ok(()) => Ok(()),
        Err(_) => Err(refused(RunError::Memory, number)),
    }
}

/// A refusal at the event of this number.
pub(crate) fn refused(error: RunError, event: u64) -> Refusal
    ensures { result ≡ runs.refused error event }
{
    Refusal { error, event }
}
