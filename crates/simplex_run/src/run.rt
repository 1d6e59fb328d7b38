//! A whole run.
ghost use Rattle.std.specs.Prelude.{◌≡◌, ◌++◌, ◌∷◌, [], Ok, Err, OnOk, IfOk, IfErr, true, false};
ghost use Rattle.model_run.specs.Run as runs;
ghost use Rattle.model_run.specs.Setting.{setting_of, at_epoch_genesis};
ghost use Rattle.model_run.specs.Setups as setups;
ghost use Rattle.law_run.specs.Complete.{IsOneEach, IsPossible};
ghost use Rattle.law_run.specs.Sayings.{Each};
ghost use Rattle.law_run.specs.Fitting.{IsTyped};
ghost use Rattle.law_run.specs.Limits.{KeepsTheLimit};
ghost use Rattle.law_run.specs.OneChain.{ReportOneChain};
ghost use Rattle.law_run.specs.Safe.{RunsSafely};
ghost use Rattle.simplex_types.specs.Genesis.{genesis_of};
ghost use Rattle.simplex_network.specs.Answer.{is_memory};
ghost use Rattle.simplex_network.specs.Stands.{MadeBy};

use law_run::{
    payloads_keep_the_limit, possible_events_run, runs_are_possible, runs_are_safe,
    runs_have_one_entry_each, transcripts_report_one_chain,
};
use simplex_members::are_few;
use simplex_network::Network;
use simplex_transcript::{Entry, Event, Field, Refusal, RunError, Setup};
use simplex_typed::entries_are_typed;
use simplex_types::{Digest, Epoch, Sequence, genesis};
use std::alloc::Global;

/// The entries of a run, one for each event, and the network on which it was made. [transcripts]
#[derive(Drop)]
pub struct Transcript {
    pub entries: Sequence<Entry>,
    pub network: Network,
}

/// Runs the events, or tells the first refusal. Want of memory is a refusal of its own. The payload of view 0 is the
/// epoch's genesis digest.
pub fn run_network(alloc: Global, setup: &Setup, events: &[Event]) -> Result<Transcript, Refusal>
    ensures done { IfOk result (λ transcript. runs.Run setup.now events.now
        ≡ Ok transcript.entries) }
    ensures network { IfOk result (λ transcript. MadeBy transcript.network (at_epoch_genesis setup.now)
        (runs.run (at_epoch_genesis setup.now) [] events.now)) }
    ensures refused { IfErr result (λ refusal. is_memory refusal.error ≡ false
        → runs.Run setup.now events.now ≡ Err refusal) }
    // Each certificate that stands in the transcript and verifies is backed and of the setup's epoch, no two of them
    // conflict, and what an engine says for a certificate verifies; of each honest member each vote was stored first,
    // the votes of each event that no stop broke are those that the rules give, and over all its lives they keep their
    // order, by what had come to it; and no honest member is blamed.
    ensures safe { IfOk result (λ transcript. RunsSafely (at_epoch_genesis setup.now) events.now) }
    // What any two engines report as final is of one chain: of one view it is one proposal, and no later one skips an
    // earlier.
    ensures one_chain { IfOk result (λ transcript. ReportOneChain transcript.entries) }
    // No packet of an honest member is longer than `max_payload_size` says for so many members.
    ensures limit { IfOk result (λ transcript. Each (KeepsTheLimit setup.now) transcript.entries) }
    // One entry for each event: as many, numbered from 1, each of the node that its event names.
    ensures entries { IfOk result (λ transcript. IsOneEach transcript.entries events.now) }
    // A valid setup and events that each meet their conditions make a transcript, or want memory; and nothing else
    // does.
    ensures complete { IfErr result (λ refusal. IsPossible (at_epoch_genesis setup.now) events.now
        → is_memory refusal.error ≡ true) }
    ensures possible { IfOk result
        (λ transcript. IsPossible (at_epoch_genesis setup.now) events.now) }
{
    run_network_from(alloc, setup, genesis_at(setup.epoch), events)
}

// The genesis digest of the epoch of this number.
fn genesis_at(epoch: u64) -> Digest
    ensures { result ≡ genesis_of epoch }
{
    genesis(Epoch(epoch))
}

/// The same, where the payload of view 0 is this digest.
pub fn run_network_from(
    alloc: Global,
    setup: &Setup,
    genesis: Digest,
    events: &[Event],
) -> Result<Transcript, Refusal>
    ensures done { IfOk result (λ transcript. runs.RunFrom (setting_of setup.now genesis) events.now
        ≡ Ok transcript.entries) }
    ensures network { IfOk result (λ transcript. MadeBy transcript.network (setting_of setup.now genesis)
        (runs.run (setting_of setup.now genesis) [] events.now)) }
    ensures refused { IfErr result (λ refusal. is_memory refusal.error ≡ false
        → runs.RunFrom (setting_of setup.now genesis) events.now ≡ Err refusal) }
    // What holds of the run at the epoch's genesis digest.
    ensures safe { IfOk result
        (λ transcript. RunsSafely (setting_of setup.now genesis) events.now) }
    ensures one_chain { IfOk result (λ transcript. ReportOneChain transcript.entries) }
    ensures limit { IfOk result (λ transcript. Each (KeepsTheLimit setup.now) transcript.entries) }
    ensures entries { IfOk result (λ transcript. IsOneEach transcript.entries events.now) }
    ensures complete { IfErr result (λ refusal. IsPossible (setting_of setup.now genesis) events.now
        → is_memory refusal.error ≡ true) }
    ensures possible { IfOk result
        (λ transcript. IsPossible (setting_of setup.now genesis) events.now) }
{
    runs_are_safe();
    transcripts_report_one_chain();
    payloads_keep_the_limit();
    runs_have_one_entry_each();
    possible_events_run();
    runs_are_possible();
    run_typed(alloc, setup, genesis, events)
}

// Runs the events. The values of the entries keep to their types.
fn run_typed(
    alloc: Global,
    setup: &Setup,
    genesis: Digest,
    events: &[Event],
) -> Result<Transcript, Refusal>
    ensures done { IfOk result (λ transcript. runs.RunFrom (setting_of setup.now genesis) events.now
        ≡ Ok transcript.entries) }
    ensures network { IfOk result (λ transcript. MadeBy transcript.network (setting_of setup.now genesis)
        (runs.run (setting_of setup.now genesis) [] events.now)) }
    ensures refused { IfErr result (λ refusal. is_memory refusal.error ≡ false
        → runs.RunFrom (setting_of setup.now genesis) events.now ≡ Err refusal) }
    ensures typed { IfOk result (λ transcript. Each IsTyped transcript.entries) }
{
    let transcript = run_few(alloc, setup, genesis, events)?;
    entries_are_typed(transcript.entries.as_slice());
    Ok(transcript)
}

// Runs the events where there are no more than may be, and tells the first refusal else.
#[tactic(auto, unfolding(model_run::specs::Run::RunFrom))]
fn run_few(
    alloc: Global,
    setup: &Setup,
    genesis: Digest,
    events: &[Event],
) -> Result<Transcript, Refusal>
    ensures done { IfOk result (λ transcript. runs.RunFrom (setting_of setup.now genesis) events.now
        ≡ Ok transcript.entries) }
    ensures network { IfOk result (λ transcript. MadeBy transcript.network (setting_of setup.now genesis)
        (runs.run (setting_of setup.now genesis) [] events.now)) }
    ensures refused { IfErr result (λ refusal. is_memory refusal.error ≡ false
        → runs.RunFrom (setting_of setup.now genesis) events.now ≡ Err refusal) }
{
    if !are_few(setup, events) {
        return Err(refused(RunError::BadSetup(Field::Events), 0));
    }
    run_all(alloc, setup, genesis, events)
}

// Runs all events.
fn run_all(
    alloc: Global,
    setup: &Setup,
    genesis: Digest,
    events: &[Event],
) -> Result<Transcript, Refusal>
    ensures done { IfOk result (λ transcript. runs.unless_bad (setups.first_bad setup.now)
        (runs.transcript_of (runs.run (setting_of setup.now genesis) [] events.now))
        ≡ Ok transcript.entries) }
    ensures network { IfOk result (λ transcript. MadeBy transcript.network (setting_of setup.now genesis)
        (runs.run (setting_of setup.now genesis) [] events.now)) }
    ensures refused { IfErr result (λ refusal. is_memory refusal.error ≡ false
        → runs.unless_bad (setups.first_bad setup.now)
        (runs.transcript_of
        (runs.run (setting_of setup.now genesis) [] events.now)) ≡ Err refusal) }
{
    let mut network = match Network::with_genesis(alloc, setup, genesis) {
        Ok(network) => network,
        Err(error) => return Err(refused(error, 0)),
    };
    let mut entries = Sequence::new(alloc);
    let mut number = 0;
    for event in events {
        number += 1;
        match network.apply(event) {
            Ok(entry) => push(&mut entries, entry, number)?,
            Err(error) => return Err(refused(error, number)),
        }
    }
    Ok(Transcript { entries, network })
}

fn push(entries: &mut Sequence<Entry>, entry: Entry, number: u64) -> Result<(), Refusal>
    ensures ok { OnOk result (entries.new ≡ entries.old ++ entry ∷ []) }
    ensures err { IfErr result (λ refusal. is_memory refusal.error ≡ true) }
{
    match entries.push(entry) {
        Ok(()) => Ok(()),
        Err(_) => Err(refused(RunError::Memory, number)),
    }
}

fn refused(error: RunError, event: u64) -> Refusal
    ensures { result ≡ runs.refused error event }
{
    Refusal { error, event }
}
