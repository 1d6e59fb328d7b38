//! The text of chains.
ghost use Rattle.std.specs.Prelude.{◌≡◌, ◌++◌, ◌∷◌, [], codes, decimal, flat_map, IfOk, OnOk, string_bytes};
ghost use Rattle.std.specs.List.{enumerate_from, range_with_len};
ghost use Rattle.simplex_text.specs.Lines.{pieces};
ghost use Rattle.model_run.specs.Kinds.{is_honest};
ghost use Rattle.model_epochs.specs.Lines.{chain_lines as lines_of, entry_line, genesis_line, genesis_lines, is_honest_in, later_lines};
ghost use Rattle.simplex_epochs.specs.Runs.{inputs_of, rans_of, honest_lines};

use crate::chains::chain_of_member;
use crate::epoch::{EpochInput, EpochRun};
use model_epochs::ChainEntry;
use simplex_records::is_honest;
use simplex_transcript::Setup;
use std::alloc::{AllocError, Global};

fn genesis_text(alloc: Global, epoch: u64, genesis: &str) -> Result<String, AllocError>
    ensures { IfOk result (λ text. string_bytes text ≡ pieces
        (codes "epoch " ∷ decimal epoch ∷ codes " genesis " ∷ genesis.now ∷ codes "\n" ∷ [])) }
{
    format!(in alloc; "epoch {epoch} genesis {genesis}\n")
}

// Writes the line on the genesis digest of the epoch behind the text.
fn write_genesis(
    alloc: Global,
    text: &mut String,
    input: &EpochInput,
    run: &EpochRun,
) -> Result<(), AllocError>
    ensures { OnOk result (string_bytes text.new
        ≡ string_bytes text.old ++ genesis_line input.now.setup.epoch run.now.genesis) }
{
    let digest = hex::encode(alloc, run.genesis.0.as_slice())?;
    let line = genesis_text(alloc, input.setup.epoch, digest.as_str())?;
    text.push_str(line.as_str())
}

// Writes these lines of all epochs but the first behind the text.
#[tactic(auto, unfolding(model_epochs::specs::Lines::genesis_lines))]
fn write_later(
    alloc: Global,
    text: &mut String,
    epochs: &[EpochInput],
    runs: &[EpochRun],
) -> Result<(), AllocError>
    ensures { OnOk result (string_bytes text.new ≡ string_bytes text.old
        ++ later_lines (inputs_of epochs.now) (rans_of runs.now)) }
{
    let [_, inputs @ ..] = epochs else {
        return Ok(());
    };
    let [_, made @ ..] = runs else {
        return Ok(());
    };
    write_all(alloc, text, inputs, made)
}

// Writes these lines of all epochs behind the text.
#[tactic(auto, unfolding(model_epochs::specs::Lines::genesis_lines))]
fn write_all(
    alloc: Global,
    text: &mut String,
    epochs: &[EpochInput],
    runs: &[EpochRun],
) -> Result<(), AllocError>
    ensures { OnOk result (string_bytes text.new ≡ string_bytes text.old
        ++ genesis_lines (inputs_of epochs.now) (rans_of runs.now)) }
{
    let mut inputs = epochs;
    let mut made = runs;
    while let [input, later @ ..] = inputs {
        let [run, others @ ..] = made else {
            return Ok(());
        };
        write_genesis(alloc, text, input, run)?;
        inputs = later;
        made = others;
    }
    Ok(())
}

fn entry_text(
    alloc: Global,
    member: u64,
    place: u64,
    placed: &ChainEntry,
    payload: &str,
) -> Result<String, AllocError>
    ensures { IfOk result (λ text. string_bytes text ≡ pieces
        (codes "member " ∷ decimal member ∷ codes " entry " ∷ decimal place ∷ codes " epoch "
        ∷ decimal placed.now.epoch
        ∷ codes " view " ∷ decimal placed.now.entry.view ∷ codes " payload "
        ∷ payload.now ∷ codes "\n" ∷ [])) }
{
    let epoch = placed.epoch.0;
    let view = placed.entry.view.0;
    format!(in alloc; "member {member} entry {place} epoch {epoch} view {view} payload {payload}\n")
}

// The line of the chain's entry at this place, from 1.
fn entry_line(
    alloc: Global,
    member: u64,
    place: u64,
    placed: &ChainEntry,
) -> Result<String, AllocError>
    ensures { IfOk result (λ text. string_bytes text ≡ entry_line member (place, placed.now)) }
{
    let payload = hex::encode(alloc, placed.entry.payload.0.as_slice())?;
    entry_text(alloc, member, place, placed, payload.as_str())
}

// Writes the lines of the member's chain behind the text.
fn write_chain(
    alloc: Global,
    text: &mut String,
    member: u64,
    chain: &[ChainEntry],
) -> Result<(), AllocError>
    ensures { OnOk result (string_bytes text.new ≡ string_bytes text.old
        ++ flat_map (entry_line member) (enumerate_from 1 chain.now)) }
{
    for (place, placed) in chain.iter().enumerate() {
        let line = entry_line(alloc, member, place as u64 + 1, placed)?;
        text.push_str(line.as_str())?;
    }
    Ok(())
}

// Whether it exists and is honest in each epoch.
fn is_honest_in(epochs: &[EpochInput], member: u64) -> bool
    ensures { result ≡ is_honest_in (inputs_of epochs.now) member }
{
    let mut rest = epochs;
    while let [input, later @ ..] = rest {
        if !is_honest(&input.setup, member) {
            return false;
        }
        rest = later;
    }
    true
}

// Writes the lines of the member's chain behind the text, if it exists and is honest in each epoch.
#[tactic(auto, using(crate::proofs::Written::kept_lines, crate::proofs::Written::dropped_lines))]
fn write_member(
    alloc: Global,
    text: &mut String,
    height: u64,
    epochs: &[EpochInput],
    runs: &[EpochRun],
    member: u64,
) -> Result<(), AllocError>
    ensures { OnOk result (string_bytes text.new ≡ string_bytes text.old
        ++ honest_lines height (inputs_of epochs.now) (rans_of runs.now) (member ∷ [])) }
{
    if !is_honest_in(epochs, member) {
        return Ok(());
    }
    let chain = chain_of_member(alloc, runs, epochs, height, member)?;
    write_chain(alloc, text, member, chain.as_slice())
}

// Writes the lines of the chains of the first of these members behind the text, in rising order.
fn write_members(
    alloc: Global,
    text: &mut String,
    height: u64,
    epochs: &[EpochInput],
    runs: &[EpochRun],
    members: u64,
) -> Result<(), AllocError>
    ensures { OnOk result (string_bytes text.new ≡ string_bytes text.old
        ++ honest_lines height (inputs_of epochs.now) (rans_of runs.now)
        (range_with_len 0 members)) }
{
    for member in 0..members {
        write_member(alloc, text, height, epochs, runs, member)?;
    }
    Ok(())
}

/// The lines of epochs: of each but the first `epoch EPOCH genesis HEX`, then of each member that exists and is honest in each epoch,
/// in rising order, those of its chain: `member MEMBER entry PLACE epoch EPOCH view VIEW payload HEX`, places counted from 1.
#[tactic(auto, unfolding(model_epochs::specs::Lines::chain_lines))]
pub fn chain_lines(
    alloc: Global,
    runs: &[EpochRun],
    epochs: &[EpochInput],
    height: u64,
) -> Result<String, AllocError>
    ensures { IfOk result (λ text. string_bytes text
        ≡ lines_of height (inputs_of epochs.now) (rans_of runs.now)) }
{
    let mut text = String::new(alloc);
    write_later(alloc, &mut text, epochs, runs)?;
    let [first, ..] = epochs else {
        return Ok(text);
    };
    let members = first.setup.members.len() as u64;
    write_members(alloc, &mut text, height, epochs, runs, members)?;
    Ok(text)
}
