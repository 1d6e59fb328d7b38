//! The runs of epochs, one after another.
ghost use Rattle.std.specs.Prelude.{◌≡◌, ◌≢◌, ◌<◌, ◌≤◌, ◌+◌, ◌-◌, ◌^◌, ◌∷◌, [], List, length, false, Ok, Err, Some, None, IfOk, IfErr, OnOk};
ghost use Rattle.simplex_types.specs.Genesis.{genesis_of};
ghost use Rattle.model_rules.specs.Lists.{greatest_of};
ghost use Rattle.model_run.specs.Run.{RunFrom};
ghost use Rattle.model_run.specs.Setting.{setting_of};
ghost use Rattle.law_log.specs.Logs.{logs_in};
ghost use Rattle.model_epochs.specs.declared.chain.EpochError.TheVariants as errors;
ghost use Rattle.model_epochs.specs.Chain.{closing_payload};
ghost use Rattle.model_epochs.specs.Epochs.{Epochs, Input, behind, cut_at, epochs_from, lists_of};
ghost use Rattle.simplex_network.specs.Answer as answers;
ghost use Rattle.simplex_run.specs.WholeRuns.{WholeRunFrom};
ghost use Rattle.simplex_epochs.specs.Runs.{AreEpochRuns, HasOneMore, IsEpochRun, WasRefused, given_of, inputs_of, is_memory, ran_of, rans_of};

use crate::closing::{closing_payload, cut_logs, longest};
use crate::epoch::{EpochInput, EpochRun};
use model_epochs::EpochError;
use simplex_logs::{NodeLog, logs};
use simplex_run::{Transcript, run_network_from};
use simplex_transcript::{Refusal, RunError};
use simplex_types::{Digest, Epoch, Sequence, genesis};
use std::alloc::{AllocError, Global};

/// Where the next epoch begins: its place, from 0, the number that it must have, and its genesis digest.
#[derive(Clone, Copy)]
struct Beginning {
    place: u64,
    epoch: u64,
    genesis: Digest,
}

// Where the first epoch begins, which has this number.
fn first_beginning(epoch: u64) -> Beginning
    ensures place { result.place ≡ 0 }
    ensures epoch { result.epoch ≡ epoch }
    ensures genesis { result.genesis ≡ genesis_of epoch }
{
    Beginning {
        place: 0,
        epoch,
        genesis: genesis(Epoch(epoch)),
    }
}

// A whole run, and the whole logs of its honest nodes.
#[derive(Drop)]
struct Logged {
    transcript: Transcript,
    logs: Sequence<NodeLog>,
}

// The error of a refused run, which is want of memory where the refusal is.
fn refused(place: u64, refusal: Refusal) -> EpochError
    ensures run { is_memory result ≡ false → result ≡ errors.Run place refusal }
    ensures cause { is_memory result ≡ false → answers.is_memory refusal.error ≡ false }
{
    if matches!(refusal.error, RunError::Memory) {
        EpochError::Memory
    } else {
        EpochError::Run { place, refusal }
    }
}

// The run of the epoch.
#[tactic(auto, using(crate::proofs::Epochs::made_whole, crate::proofs::Epochs::was_refused))]
fn run_whole(alloc: Global, at: Beginning, input: &EpochInput) -> Result<Transcript, EpochError>
    ensures ok { IfOk result (λ transcript.
        WholeRunFrom (setting_of input.now.setup at.genesis) input.now.events transcript) }
    ensures err { IfErr result (λ error. is_memory error ≡ false
        → WasRefused (setting_of input.now.setup at.genesis) input.now.events at.place error) }
{
    match run_network_from(alloc, &input.setup, at.genesis, input.events.as_slice()) {
        Ok(transcript) => Ok(transcript),
        Err(refusal) => Err(refused(at.place, refusal)),
    }
}

// The whole run, and the whole logs.
#[tactic(auto, using(crate::proofs::Epochs::is_transcript))]
fn run_logged(alloc: Global, at: Beginning, input: &EpochInput) -> Result<Logged, EpochError>
    ensures whole { IfOk result (λ logged.
        WholeRunFrom (setting_of input.now.setup at.genesis) input.now.events logged.transcript) }
    ensures logs { IfOk result (λ logged. logged.logs
        ≡ logs_in input.now.setup logged.transcript.entries) }
    ensures err { IfErr result (λ error. is_memory error ≡ false
        → WasRefused (setting_of input.now.setup at.genesis) input.now.events at.place error) }
{
    let transcript = run_whole(alloc, at, input)?;
    let logs = logs(alloc, &input.setup, transcript.entries.as_slice())?;
    Ok(Logged { transcript, logs })
}

// The epoch's run, with its logs up to the height.
fn cut_run(
    alloc: Global,
    height: u64,
    genesis: Digest,
    logged: Logged,
) -> Result<EpochRun, AllocError>
    ensures { IfOk result (λ run. (run.genesis ≡ genesis) × (run.transcript ≡ logged.transcript)
        × (run.logs ≡ cut_at height logged.logs)) }
{
    let logs = cut_logs(alloc, height, logged.logs.as_slice())?;
    Ok(EpochRun {
        genesis,
        transcript: logged.transcript,
        logs,
    })
}

// The epoch has the number that it must have.
fn check_number(at: Beginning, input: &EpochInput) -> Result<(), EpochError>
    ensures ok { OnOk result (input.now.setup.epoch ≡ at.epoch) }
    ensures err { IfErr result (λ error. (error ≡ errors.WrongEpoch at.place)
        × (input.now.setup.epoch ≢ at.epoch)) }
{
    if input.setup.epoch == at.epoch {
        Ok(())
    } else {
        Err(EpochError::WrongEpoch { place: at.place })
    }
}

// The run of the last epoch.
#[tactic(auto, using(crate::proofs::Epochs::last_ran, crate::proofs::Epochs::cut_whole, crate::proofs::Epochs::wrong_error, crate::proofs::Epochs::refused_error))]
fn run_last(
    alloc: Global,
    height: u64,
    at: Beginning,
    input: &EpochInput,
) -> Result<EpochRun, EpochError>
    ensures ran { IfOk result (λ run. epochs_from RunFrom height at.place at.epoch at.genesis (given_of input.now ∷ [])
        ≡ Ok (ran_of run ∷ [])) }
    ensures whole { IfOk result (λ run. IsEpochRun height input.now run) }
    ensures err { IfErr result (λ error. is_memory error ≡ false
        → epochs_from RunFrom height at.place at.epoch at.genesis
        (given_of input.now ∷ []) ≡ Err error) }
{
    check_number(at, input)?;
    let logged = run_logged(alloc, at, input)?;
    Ok(cut_run(alloc, height, at.genesis, logged)?)
}

// Where the epoch behind a whole run begins: at the payload that closes its log, if it is closed.
fn next_of(height: u64, at: Beginning, logs: &[NodeLog]) -> Result<Beginning, EpochError>
    requires height { 0 < height }
    requires place { at.place < 2 ^ 64 - 1 }
    requires epoch { at.epoch < 2 ^ 64 - 1 }
    ensures ok { IfOk result (λ next. (next.place ≡ at.place + 1) × (next.epoch ≡ at.epoch + 1)
        × (closing_payload height (lists_of logs.now) ≡ Some next.genesis)) }
    ensures err { IfErr result (λ error. (error ≡ errors.Open at.place (greatest_of length (lists_of logs.now)))
        × (closing_payload height (lists_of logs.now) ≡ None)) }
{
    match closing_payload(height, logs) {
        Some(genesis) => Ok(Beginning {
            place: at.place + 1,
            epoch: at.epoch + 1,
            genesis,
        }),
        None => Err(EpochError::Open {
            place: at.place,
            found: longest(logs),
        }),
    }
}

// The run of an epoch behind which another comes, and where that one begins.
#[tactic(auto, using(crate::proofs::Epochs::next_ran, crate::proofs::Epochs::cut_whole, crate::proofs::Epochs::wrong_error, crate::proofs::Epochs::refused_error, crate::proofs::Epochs::open_error))]
fn run_next(
    alloc: Global,
    height: u64,
    at: Beginning,
    input: &EpochInput,
) -> Result<(EpochRun, Beginning), EpochError>
    requires height { 0 < height }
    requires place { at.place < 2 ^ 64 - 1 }
    ensures place { IfOk result (λ r. r.1.place ≡ at.place + 1) }
    ensures ran { IfOk result (λ r. (next : Input) (later : List Input)
        → epochs_from RunFrom height at.place at.epoch at.genesis
        (given_of input.now ∷ next ∷ later)
        ≡ behind (ran_of r.0)
        (epochs_from RunFrom height r.1.place r.1.epoch r.1.genesis (next ∷ later))) }
    ensures whole { IfOk result (λ r. IsEpochRun height input.now r.0) }
    ensures err { IfErr result (λ error. (next : Input) (later : List Input) → is_memory error ≡ false
        → epochs_from RunFrom height at.place at.epoch at.genesis
        (given_of input.now ∷ next ∷ later) ≡ Err error) }
{
    check_number(at, input)?;
    let logged = run_logged(alloc, at, input)?;
    let next = next_of(height, at, logged.logs.as_slice())?;
    Ok((cut_run(alloc, height, at.genesis, logged)?, next))
}

// Runs the epoch behind which the later ones come, puts its run last, and tells where the next one begins, if there is one.
#[tactic(auto, using(crate::proofs::Chained::adding))]
fn add_run(
    alloc: Global,
    height: u64,
    at: Beginning,
    input: &EpochInput,
    later: &[EpochInput],
    runs: &mut Sequence<EpochRun>,
) -> Result<Beginning, EpochError>
    requires height { 0 < height }
    requires place { at.place < 2 ^ 64 - 1 }
    ensures place { IfOk result (λ next. next.place ≤ at.place + 1) }
    ensures ran { IfOk result (λ next. HasOneMore height runs.old runs.new input.now
        (epochs_from RunFrom height at.place at.epoch at.genesis
        (given_of input.now ∷ inputs_of later.now))
        (epochs_from RunFrom height next.place next.epoch next.genesis (inputs_of later.now))) }
    ensures err { IfErr result (λ error. is_memory error ≡ false
        → epochs_from RunFrom height at.place at.epoch at.genesis
        (given_of input.now ∷ inputs_of later.now)
        ≡ Err error) }
{
    let [_next, ..] = later else {
        runs.push(run_last(alloc, height, at, input)?)?;
        return Ok(at);
    };
    let (run, next) = run_next(alloc, height, at, input)?;
    runs.push(run)?;
    Ok(next)
}

/// The runs of the epochs, one after another: the first from its epoch's genesis digest, and each later one from the payload at the
/// height, which is from 1 to [`MOST_HEIGHT`](crate::MOST_HEIGHT), of an honest node's log of the one before. All logs that reach the height
/// have the same payload there. An error is that of the first epoch that has one.
#[tactic(auto, unfolding(model_epochs::specs::Epochs::epochs_of, crate::specs::Runs::AreEpochRuns))]
pub fn run_epochs(
    alloc: Global,
    height: u64,
    epochs: &[EpochInput],
) -> Result<Sequence<EpochRun>, EpochError>
    requires { 0 < height }
    ensures ran { IfOk result (λ runs. Epochs height (inputs_of epochs.now) ≡ Ok (rans_of runs)) }
    // Each epoch's run is whole and safe, from the genesis digest that stands with it.
    ensures whole { IfOk result (λ runs. AreEpochRuns height epochs.now runs) }
    ensures refused { IfErr result (λ error. is_memory error ≡ false
        → Epochs height (inputs_of epochs.now) ≡ Err error) }
{
    let mut runs = Sequence::new(alloc);
    let [first, ..] = epochs else {
        return Ok(runs);
    };
    let mut at = first_beginning(first.setup.epoch);
    let mut rest = epochs;
    while let [input, later @ ..] = rest {
        at = add_run(alloc, height, at, input, later, &mut runs)?;
        rest = later;
    }
    Ok(runs)
}
