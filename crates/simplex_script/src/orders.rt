//! The commands that make events.
ghost use Rattle.std.specs.Prelude.{◌≡◌, IfOk, Some, map};
ghost use Rattle.simplex_names.specs.Names as shared;
ghost use Rattle.simplex_script.specs.Names as names;
ghost use Rattle.simplex_script.specs.Orders as said;

use crate::command::{Command, Question};
use crate::lines::pair_of;
use crate::names::{node_of, verdict_of, way_of, whom_of};
use crate::payloads::payload_of;
use simplex_messages::Stop;
use simplex_names::{channel_of, number_of, source_of};
use simplex_transcript::Node;
use simplex_types::Sequence;
use std::alloc::{AllocError, Global};

// How a step stops at this call, with so many records kept.
fn stop_with(how: &str, call: u64, keep: u64) -> Option<Stop>
    ensures { result ≡ said.stop_with how.now (Some call) (Some keep) }
{
    match how {
        "cut" => Some(Stop::Cut { call, keep }),
        "fail" => Some(Stop::Fail { call, keep }),
        _ => None,
    }
}

// `cut CALL keep RECORDS` or `fail CALL keep RECORDS`.
fn stop_from(how: &str, call: &str, keeps: &str, records: &str) -> Option<Stop>
    ensures { result ≡ said.stop_from how.now call.now keeps.now records.now }
{
    if keeps != "keep" {
        return None;
    }
    let call = number_of(call)?;
    let keep = number_of(records)?;
    stop_with(how, call, keep)
}

fn is_stop(word: &str) -> bool
    ensures { result ≡ said.is_stop word.now }
{
    word == "cut" || word == "fail"
}

/// The nodes that the words name, or none where a word names none.
#[tactic(auto, using(crate::proofs::NodeLists::behind_none, crate::proofs::NodeLists::behind_more, crate::proofs::NodeLists::behind_no))]
pub(crate) fn nodes_of(alloc: Global, words: &[&str]) -> Result<Option<Sequence<Node>>, AllocError>
    ensures { IfOk result (λ nodes. nodes ≡ said.nodes_of (map (λ word. word.now) words.now)) }
{
    let mut nodes = Sequence::new(alloc);
    let mut rest = words;
    while let [word, after @ ..] = rest {
        let Some(node) = node_of(word) else {
            return Ok(None);
        };
        nodes.push(node)?;
        rest = after;
    }
    Ok(Some(nodes))
}

// These nodes start, if there are some.
fn started(nodes: Option<Sequence<Node>>) -> Option<Command>
    ensures { result ≡ said.started nodes }
{
    let nodes = nodes?;
    Some(Command::Start {
        nodes,
        stop: Stop::None,
    })
}

// This node starts, and stops inside its start, if both are said.
fn start_that_stops(
    alloc: Global,
    node: Option<Node>,
    stop: Option<Stop>,
) -> Result<Option<Command>, AllocError>
    ensures { IfOk result (λ command. command ≡ said.start_that_stops node stop) }
{
    let (Some(node), Some(stop)) = (node, stop) else {
        return Ok(None);
    };
    let nodes = Sequence::from_vec(vec![in alloc; node]?);
    Ok(Some(Command::Start { nodes, stop }))
}

// `CALL keep RECORDS`.
fn stop_of(how: &str, words: &[&str]) -> Option<Stop>
    ensures { result ≡ said.stop_of how.now (map (λ word. word.now) words.now) }
{
    match words {
        [] => None,
        [call, after @ ..] => {
            let (keeps, records) = pair_of(after)?;
            stop_from(how, call, keeps, records)
        }
    }
}

// These words, of which this is the first, and the one behind it may say that its node stops.
fn start_by(
    alloc: Global,
    words: &[&str],
    node: &str,
    after: &[&str],
) -> Result<Option<Command>, AllocError>
    ensures { IfOk result (λ command. command
        ≡ said.start_by (map (λ word. word.now) words.now) node.now
        (map (λ word. word.now) after.now)) }
{
    match after {
        [] => Ok(started(nodes_of(alloc, words)?)),
        [how, later @ ..] => {
            if is_stop(how) {
                return start_that_stops(alloc, node_of(node), stop_of(how, later));
            }
            Ok(started(nodes_of(alloc, words)?))
        }
    }
}

/// `NODE ..`, or `NODE cut CALL keep RECORDS`.
pub(crate) fn start_of(alloc: Global, words: &[&str]) -> Result<Option<Command>, AllocError>
    ensures { IfOk result (λ command. command ≡ said.start_of (map (λ word. word.now) words.now)) }
{
    match words {
        [] => Ok(None),
        [node, after @ ..] => start_by(alloc, words, node, after),
    }
}

fn crashed(nodes: Option<Sequence<Node>>) -> Option<Command>
    ensures { result ≡ said.crashed nodes }
{
    let nodes = nodes?;
    Some(Command::Crash { nodes })
}

/// `NODE ..`.
pub(crate) fn crash_of(alloc: Global, words: &[&str]) -> Result<Option<Command>, AllocError>
    ensures { IfOk result (λ command. command ≡ said.crash_of (map (λ word. word.now) words.now)) }
{
    match words {
        [] => Ok(None),
        _ => Ok(crashed(nodes_of(alloc, words)?)),
    }
}

fn missed(nodes: Option<Sequence<Node>>) -> Option<Command>
    ensures { result ≡ said.missed nodes }
{
    let nodes = nodes?;
    Some(Command::Miss { nodes })
}

/// `NODE ..`.
pub(crate) fn miss_of(alloc: Global, words: &[&str]) -> Result<Option<Command>, AllocError>
    ensures { IfOk result (λ command. command ≡ said.miss_of (map (λ word. word.now) words.now)) }
{
    match words {
        [] => Ok(None),
        _ => Ok(missed(nodes_of(alloc, words)?)),
    }
}

fn settled(nodes: Option<Sequence<Node>>) -> Option<Command>
    ensures { result ≡ said.settled nodes }
{
    let nodes = nodes?;
    Some(Command::Settle { nodes })
}

/// Nothing, or `NODE ..`.
pub(crate) fn settle_of(alloc: Global, words: &[&str]) -> Result<Option<Command>, AllocError>
    ensures { IfOk result (λ command. command ≡ said.settle_of (map (λ word. word.now) words.now)) }
{
    Ok(settled(nodes_of(alloc, words)?))
}

fn stepped(node: &str, source: &str, stop: Option<Stop>) -> Option<Command>
    ensures { result ≡ said.step_with (names.node_of node.now) (shared.source_of source.now) stop }
{
    let node = node_of(node)?;
    let source = source_of(source)?;
    let stop = stop?;
    Some(Command::Step { node, source, stop })
}

// Nothing, or `cut CALL keep RECORDS`.
fn stop_behind(words: &[&str]) -> Option<Stop>
    ensures { result ≡ said.stop_behind (map (λ word. word.now) words.now) }
{
    match words {
        [] => Some(Stop::None),
        [how, after @ ..] => stop_of(how, after),
    }
}

fn step_by(node: &str, words: &[&str]) -> Option<Command>
    ensures { result ≡ said.step_by node.now (map (λ word. word.now) words.now) }
{
    match words {
        [] => None,
        [source, after @ ..] => stepped(node, source, stop_behind(after)),
    }
}

/// `NODE SOURCE`, or `NODE SOURCE cut CALL keep RECORDS`.
pub(crate) fn step_of(words: &[&str]) -> Option<Command>
    ensures { result ≡ said.step_of (map (λ word. word.now) words.now) }
{
    match words {
        [] => None,
        [node, after @ ..] => step_by(node, after),
    }
}

fn proposed(node: &str, byte: &str) -> Option<Command>
    ensures { result ≡ said.propose_in node.now byte.now }
{
    let node = node_of(node)?;
    let payload = payload_of(byte)?;
    Some(Command::Propose { node, payload })
}

/// `NODE BYTE`.
pub(crate) fn propose_of(words: &[&str]) -> Option<Command>
    ensures { result ≡ said.propose_of (map (λ word. word.now) words.now) }
{
    let (node, byte) = pair_of(words)?;
    proposed(node, byte)
}

fn judged(question: Question, whom: &str, verdict: &str) -> Option<Command>
    ensures { result ≡ said.judge_in question whom.now verdict.now }
{
    let whom = whom_of(whom)?;
    let good = verdict_of(verdict)?;
    Some(Command::Judge {
        question,
        whom,
        good,
    })
}

/// `NODE VERDICT`, or `all VERDICT`.
pub(crate) fn judge_of(question: Question, words: &[&str]) -> Option<Command>
    ensures { result ≡ said.judge_of question (map (λ word. word.now) words.now) }
{
    let (whom, verdict) = pair_of(words)?;
    judged(question, whom, verdict)
}

fn delivered(way: &str, channel: &str) -> Option<Command>
    ensures { result ≡ said.deliver_in way.now channel.now }
{
    let (from, to) = way_of(way)?;
    let channel = channel_of(channel)?;
    Some(Command::Deliver { from, to, channel })
}

/// `FROM->TO CHANNEL`.
pub(crate) fn deliver_of(words: &[&str]) -> Option<Command>
    ensures { result ≡ said.deliver_of (map (λ word. word.now) words.now) }
{
    let (way, channel) = pair_of(words)?;
    delivered(way, channel)
}

fn resent(way: &str, channel: &str) -> Option<Command>
    ensures { result ≡ said.resend_in way.now channel.now }
{
    let (from, to) = way_of(way)?;
    let channel = channel_of(channel)?;
    Some(Command::Resend { from, to, channel })
}

/// `FROM->TO CHANNEL`.
pub(crate) fn resend_of(words: &[&str]) -> Option<Command>
    ensures { result ≡ said.resend_of (map (λ word. word.now) words.now) }
{
    let (way, channel) = pair_of(words)?;
    resent(way, channel)
}

fn lost(way: &str, channel: &str) -> Option<Command>
    ensures { result ≡ said.lose_in way.now channel.now }
{
    let (from, to) = way_of(way)?;
    let channel = channel_of(channel)?;
    Some(Command::Lose { from, to, channel })
}

/// `FROM->TO CHANNEL`.
pub(crate) fn lose_of(words: &[&str]) -> Option<Command>
    ensures { result ≡ said.lose_of (map (λ word. word.now) words.now) }
{
    let (way, channel) = pair_of(words)?;
    lost(way, channel)
}

/// `MILLISECONDS`.
pub(crate) fn tick_of(words: &[&str]) -> Option<Command>
    ensures { result ≡ said.tick_of (map (λ word. word.now) words.now) }
{
    match words {
        [ms] => {
            let ms = number_of(ms)?;
            Some(Command::Tick { ms })
        }
        _ => None,
    }
}
