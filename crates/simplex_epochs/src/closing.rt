//! At what an epoch is closed.
ghost use Rattle.std.specs.Prelude.{◌≡◌, ◌<◌, IfOk, length, take};
ghost use Rattle.model_rules.specs.Lists.{greatest_of};
ghost use Rattle.model_epochs.specs.Chain.{closing_payload};
ghost use Rattle.model_epochs.specs.Epochs.{cut_at, lists_of};

use model_log::LogEntry;
use simplex_logs::NodeLog;
use simplex_types::{Digest, Sequence};
use std::alloc::{AllocError, Global};

/// The payload at the height, from 1, of the first log that is so long.
#[tactic(auto, unfolding(model_epochs::specs::Chain::closing_payload))]
pub(crate) fn closing_payload(height: u64, logs: &[NodeLog]) -> Option<Digest>
    requires { 0 < height }
    ensures { result ≡ closing_payload height (lists_of logs.now) }
{
    let mut rest = logs;
    while let [(_, log), others @ ..] = rest {
        if let Some(entry) = log.as_slice().get((height - 1) as usize) {
            return Some(entry.payload);
        }
        rest = others;
    }
    None
}

/// How long the longest log is.
#[tactic(auto, unfolding(model_rules::specs::Lists::greatest_of))]
pub(crate) fn longest(logs: &[NodeLog]) -> u64
    ensures { result ≡ greatest_of length (lists_of logs.now) }
{
    let [(_, log), others @ ..] = logs else {
        return 0;
    };
    (log.len() as u64).max(longest(others))
}

#[tactic(auto, using(std::proofs::lemmas::List::take_min))]
fn cut(alloc: Global, height: u64, log: &[LogEntry]) -> Result<Sequence<LogEntry>, AllocError>
    ensures { IfOk result (λ part. part ≡ take height log.now) }
{
    let end = (height as usize).min(log.len());
    let part = Vec::from_slice(alloc, &log[..end])?;
    Ok(Sequence::from_vec(part))
}

/// Each log up to the height.
pub(crate) fn cut_logs(
    alloc: Global,
    height: u64,
    logs: &[NodeLog],
) -> Result<Sequence<NodeLog>, AllocError>
    ensures { IfOk result (λ parts. parts ≡ cut_at height logs.now) }
{
    let mut parts = Sequence::new(alloc);
    for (node, log) in logs {
        let part = cut(alloc, height, log.as_slice())?;
        parts.push((*node, part))?;
    }
    Ok(parts)
}
