//! A whole run, by several workers.
ghost use Rattle.std.specs.Prelude.{◌≡◌, ◌<◌, ◌≤◌, ◌^◌, length, true, false, Ok, Err, IfOk, IfErr};
ghost use Rattle.model_run.specs.Run as runs;
ghost use Rattle.model_run.specs.Setting.{at_epoch_genesis};
ghost use Rattle.law_run.specs.Complete.{IsOneEach, IsPossible};
ghost use Rattle.law_run.specs.Sayings.{Each};
ghost use Rattle.law_run.specs.Fitting.{IsTyped};
ghost use Rattle.law_run.specs.Limits.{KeepsTheLimit};
ghost use Rattle.law_run.specs.OneChain.{ReportOneChain};
ghost use Rattle.law_run.specs.Safe.{RunsSafely};
ghost use Rattle.simplex_network.specs.Answer.{is_memory};
ghost use Rattle.simplex_par.specs.Steps.{MadeOf, run_of_few};

use crate::group::{push, refused, step_group};
use law_run::{
    payloads_keep_the_limit, possible_events_run, runs_are_possible, runs_are_safe,
    runs_have_one_entry_each, transcripts_report_one_chain,
};
use simplex_mailbox::Gate;
use simplex_members::are_few;
use simplex_network::Network;
use simplex_run::Transcript;
use simplex_transcript::{Event, Field, Refusal, RunError, Setup};
use simplex_typed::entries_are_typed;
use simplex_types::Sequence;
use std::alloc::Global;
use std::thread::Threads;

/// Runs the events as `run_network` does, and steps those at once that stand apart, by so many workers, of which each has a
/// thread of its own: the first goes to worker 0, and so on in turn. Where two events or more are stepped at once, the gate
/// is passed before each of their steps.
pub fn run_network_par<G: Gate, R: Threads + Sync>(
    rt: &R,
    alloc: Global,
    setup: &Setup,
    events: &[Event],
    workers: u32,
    gate: &G,
) -> Result<Transcript, Refusal>
    requires { 0 < workers }
    ensures done { IfOk result (λ transcript. runs.Run setup.now events.now
        ≡ Ok transcript.entries) }
    ensures network { IfOk result (λ transcript. MadeOf transcript.network setup.now events.now) }
    ensures refused { IfErr result (λ refusal. is_memory refusal.error ≡ false
        → runs.Run setup.now events.now ≡ Err refusal) }
    // Each certificate that stands in the transcript and verifies is backed and of the setup's epoch, no two of them
    // conflict, and what an engine says for a certificate verifies; of each honest member each vote was stored first, the
    // votes of each event that no stop broke are those that the rules give, and over all its lives they keep their order, by
    // what had come to it; and no honest member is blamed.
    ensures safe { IfOk result (λ transcript. RunsSafely (at_epoch_genesis setup.now) events.now) }
    // What any two engines report as final is of one chain: of one view it is one proposal, and no later one skips an earlier.
    ensures one_chain { IfOk result (λ transcript. ReportOneChain transcript.entries) }
    // No packet of an honest member is longer than `max_payload_size` says for so many members.
    ensures limit { IfOk result (λ transcript. Each (KeepsTheLimit setup.now) transcript.entries) }
    // One entry for each event: as many, numbered from 1, each of the node that its event names.
    ensures entries { IfOk result (λ transcript. IsOneEach transcript.entries events.now) }
    // A valid setup and events that each meet their conditions make a transcript, or want memory; and nothing else does.
    ensures complete { IfErr result (λ refusal. IsPossible (at_epoch_genesis setup.now) events.now
        → is_memory refusal.error ≡ true) }
    ensures possible { IfOk result
        (λ transcript. IsPossible (at_epoch_genesis setup.now) events.now) }
{
    runs_are_safe();
    transcripts_report_one_chain();
    payloads_keep_the_limit();
    runs_have_one_entry_each();
    possible_events_run();
    runs_are_possible();
    run_typed(rt, alloc, setup, events, workers, gate)
}

// Runs the events. The values of the entries keep to their types.
fn run_typed<G: Gate, R: Threads + Sync>(
    rt: &R,
    alloc: Global,
    setup: &Setup,
    events: &[Event],
    workers: u32,
    gate: &G,
) -> Result<Transcript, Refusal>
    requires { 0 < workers }
    ensures done { IfOk result (λ transcript. runs.Run setup.now events.now
        ≡ Ok transcript.entries) }
    ensures network { IfOk result (λ transcript. MadeOf transcript.network setup.now events.now) }
    ensures refused { IfErr result (λ refusal. is_memory refusal.error ≡ false
        → runs.Run setup.now events.now ≡ Err refusal) }
    ensures typed { IfOk result (λ transcript. Each IsTyped transcript.entries) }
{
    let transcript = run_few(rt, alloc, setup, events, workers, gate)?;
    entries_are_typed(transcript.entries.as_slice());
    Ok(transcript)
}

// Runs the events where there are no more than may be, and tells the first refusal else.
#[tactic(auto, unfolding(model_run::specs::Run::RunFrom))]
fn run_few<G: Gate, R: Threads + Sync>(
    rt: &R,
    alloc: Global,
    setup: &Setup,
    events: &[Event],
    workers: u32,
    gate: &G,
) -> Result<Transcript, Refusal>
    requires { 0 < workers }
    ensures done { IfOk result (λ transcript. runs.Run setup.now events.now
        ≡ Ok transcript.entries) }
    ensures network { IfOk result (λ transcript. MadeOf transcript.network setup.now events.now) }
    ensures refused { IfErr result (λ refusal. is_memory refusal.error ≡ false
        → runs.Run setup.now events.now ≡ Err refusal) }
{
    if !are_few(setup, events) {
        return Err(refused(RunError::BadSetup(Field::Events), 0));
    }
    run_all(rt, alloc, setup, events, workers, gate)
}

// Runs all events, group by group.
fn run_all<G: Gate, R: Threads + Sync>(
    rt: &R,
    alloc: Global,
    setup: &Setup,
    events: &[Event],
    workers: u32,
    gate: &G,
) -> Result<Transcript, Refusal>
    requires workers { 0 < workers }
    requires few { length events.now ≤ 2 ^ 20 }
    ensures done { IfOk result (λ transcript. run_of_few setup.now events.now
        ≡ Ok transcript.entries) }
    ensures network { IfOk result (λ transcript. MadeOf transcript.network setup.now events.now) }
    ensures refused { IfErr result (λ refusal. is_memory refusal.error ≡ false
        → run_of_few setup.now events.now ≡ Err refusal) }
{
    let mut network = match Network::new(alloc, setup) {
        Ok(network) => network,
        Err(error) => return Err(refused(error, 0)),
    };
    let mut entries = Sequence::new(alloc);
    let mut next = 0;
    while next < events.len() {
        let first = next as u64 + 1;
        let Ok(size) = network.group_size(&events[next..]) else {
            return Err(refused(RunError::Memory, first));
        };
        if size < 2 {
            match network.apply(&events[next]) {
                Ok(entry) => push(&mut entries, entry, first)?,
                Err(error) => return Err(refused(error, first)),
            }
            next += 1;
        } else {
            let group = &events[next..next + size];
            match step_group(
                rt,
                alloc,
                &mut network,
                &mut entries,
                group,
                first,
                workers as usize,
                gate,
            ) {
                Ok(()) => next += size,
                Err(refusal) => return Err(refusal),
            }
        }
    }
    Ok(Transcript { entries, network })
}
