//! The text of logs.
#![tactic(auto, unfolding(law_log::specs::Lines::lines_of))]

ghost use Rattle.std.specs.Prelude.{◌≡◌, ◌+◌, ◌++◌, ◌∷◌, [], ℕ, List, codes, decimal, IfOk, OnOk, string_bytes, flat_map};
ghost use Rattle.std.specs.List.{enumerate_from};
ghost use Rattle.simplex_text.specs.Lines.{pieces};
ghost use Rattle.law_log.specs.Lines.{entry_line, lines_of};

use crate::node_logs::NodeLog;
use model_log::LogEntry;
use simplex_transcript::Node;
use std::alloc::{AllocError, Global};

fn line(
    alloc: Global,
    node: &Node,
    place: u64,
    view: u64,
    payload: &str,
) -> Result<String, AllocError>
    ensures { IfOk result (λ text. string_bytes text ≡ pieces
        (codes "node " ∷ decimal node.now.member ∷ codes "." ∷ decimal node.now.half
        ∷ codes " log " ∷ decimal place
        ∷ codes " view " ∷ decimal view ∷ codes " payload " ∷ payload.now ∷ codes "\n" ∷ [])) }
{
    let member = node.member;
    let half = node.half;
    format!(in alloc; "node {member}.{half} log {place} view {view} payload {payload}\n")
}

/// The line of the log's entry at this place, from 1.
fn entry_line(
    alloc: Global,
    node: &Node,
    place: u64,
    entry: &LogEntry,
) -> Result<String, AllocError>
    ensures { IfOk result (λ text. string_bytes text ≡ entry_line node.now (place, entry.now)) }
{
    let payload = hex::encode(alloc, entry.payload.0.as_slice())?;
    line(alloc, node, place, entry.view.0, payload.as_str())
}

/// Writes the lines of the node's log behind the text.
fn write_log(
    alloc: Global,
    text: &mut String,
    node: &Node,
    log: &[LogEntry],
) -> Result<(), AllocError>
    ensures { OnOk result (string_bytes text.new ≡ string_bytes text.old
        ++ flat_map (entry_line node.now) (enumerate_from 1 log.now)) }
{
    for (place, entry) in log.iter().enumerate() {
        let line = entry_line(alloc, node, place as u64 + 1, entry)?;
        text.push_str(line.as_str())?;
    }
    Ok(())
}

/// The lines of all logs, one for each entry: `node MEMBER.HALF log PLACE view VIEW payload HEX`, places counted from 1.
pub fn lines(alloc: Global, logs: &[NodeLog]) -> Result<String, AllocError>
    ensures { IfOk result (λ text. string_bytes text ≡ lines_of logs.now) }
{
    let mut text = String::new(alloc);
    for (node, log) in logs {
        write_log(alloc, &mut text, node, log.as_slice())?;
    }
    Ok(text)
}
