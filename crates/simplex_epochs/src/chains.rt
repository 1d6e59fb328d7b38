//! A member's chain through the epochs.
ghost use Rattle.std.specs.Prelude.{◌≡◌, ◌++◌, ◌==◌, ◌&&◌, IfOk, OnOk};
ghost use Rattle.model_run.specs.Kinds.{is_same_node, node_of};
ghost use Rattle.model_epochs.specs.Chain.{chain_of, part_of};
ghost use Rattle.model_epochs.specs.Epochs.{log_in, member_logs};
ghost use Rattle.simplex_epochs.specs.Runs.{inputs_of, rans_of};

use crate::epoch::{EpochInput, EpochRun};
use model_epochs::ChainEntry;
use model_log::LogEntry;
use simplex_logs::NodeLog;
use simplex_transcript::Node;
use simplex_types::Sequence;
use simplex_values::Epoch;
use std::alloc::{AllocError, Global};

fn is_node_of(node: &Node, member: u64) -> bool
    ensures { result ≡ is_same_node node.now (node_of member) }
{
    node.member == member && node.half == 0
}

/// The log of the member's node, or none where it is not honest.
fn log_of(logs: &[NodeLog], member: u64) -> &[LogEntry]
    ensures { result.now ≡ log_in logs.now member }
{
    let mut rest = logs;
    while let [(node, log), others @ ..] = rest {
        if is_node_of(node, member) {
            return log.as_slice();
        }
        rest = others;
    }
    &[]
}

/// Puts the epoch's part of the log last.
#[tactic(auto, using(std::proofs::lemmas::List::take_min))]
fn add_part(
    chain: &mut Sequence<ChainEntry>,
    epoch: u64,
    height: u64,
    log: &[LogEntry],
) -> Result<(), AllocError>
    ensures { OnOk result (chain.new ≡ chain.old ++ part_of height (epoch, log.now)) }
{
    let end = (height as usize).min(log.len());
    for entry in &log[..end] {
        chain.push(ChainEntry {
            epoch: Epoch(epoch),
            entry: *entry,
        })?;
    }
    Ok(())
}

/// As [`chain`], of a member that may have any number.
#[tactic(auto, unfolding(model_epochs::specs::Chain::chain_of))]
pub(crate) fn chain_of_member(
    alloc: Global,
    runs: &[EpochRun],
    epochs: &[EpochInput],
    height: u64,
    member: u64,
) -> Result<Sequence<ChainEntry>, AllocError>
    ensures { IfOk result (λ chain. chain
        ≡ chain_of height (member_logs (inputs_of epochs.now) (rans_of runs.now) member)) }
{
    let mut chain = Sequence::new(alloc);
    let mut inputs = epochs;
    let mut made = runs;
    while let [input, later @ ..] = inputs {
        let [run, others @ ..] = made else {
            return Ok(chain);
        };
        let log = log_of(run.logs.as_slice(), member);
        add_part(&mut chain, input.setup.epoch, height, log)?;
        if (log.len() as u64) < height {
            return Ok(chain);
        }
        inputs = later;
        made = others;
    }
    Ok(chain)
}

/// The member's chain: its log of the first epoch up to the height, and where that is so long, that of the next, and so on. It
/// ends with the first that is shorter. A member that is not honest has none.
pub fn chain(
    alloc: Global,
    runs: &[EpochRun],
    epochs: &[EpochInput],
    height: u64,
    member: u32,
) -> Result<Sequence<ChainEntry>, AllocError>
    ensures { IfOk result (λ chain. chain
        ≡ chain_of height (member_logs (inputs_of epochs.now) (rans_of runs.now) member)) }
{
    chain_of_member(alloc, runs, epochs, height, u64::from(member))
}
