//! Single lines, and what they tell.
ghost use Rattle.std.specs.Prelude.{◌≡◌, ◌++◌, option_map, IfOk, OnOk, string_bytes};
ghost use Rattle.std.specs.List.{flat_map};
ghost use Rattle.hex.specs.Hex.{encode_lower};
ghost use Rattle.simplex_text.specs.Lines.{line_of, finalized_of, evidence_of, told_of, call_line_of, line_if};

use simplex_messages::Call;
use simplex_transcript::Node;
use simplex_types::{Activity, Digest, Participant, View};
use std::alloc::{AllocError, Global};

fn line(alloc: Global, event: u64, node: &Node, what: &str) -> Result<String, AllocError>
    ensures { IfOk result (λ text. string_bytes text ≡ line_of event node.now what.now) }
{
    let member = node.member;
    let half = node.half;
    format!(in alloc; "event {event} node {member}.{half} {what}\n")
}

fn finalized_text(alloc: Global, view: u64, payload: &str) -> Result<String, AllocError>
    ensures { IfOk result (λ text. string_bytes text ≡ finalized_of view payload.now) }
{
    format!(in alloc; "finalized {view} {payload}")
}

fn finalized(alloc: Global, view: View, payload: &Digest) -> Result<String, AllocError>
    ensures { IfOk result (λ text. string_bytes text
        ≡ finalized_of view (encode_lower payload.now)) }
{
    let payload = hex::encode(alloc, payload.0.as_slice())?;
    finalized_text(alloc, view.0, payload.as_str())
}

fn evidence(
    alloc: Global,
    kind: &str,
    signer: Participant,
    view: View,
) -> Result<String, AllocError>
    ensures { IfOk result (λ text. string_bytes text ≡ evidence_of kind.now signer view) }
{
    let signer = signer.0;
    let view = view.0;
    format!(in alloc; "evidence {kind} {signer} {view}")
}

// What is told of a report, if anything is.
fn told(alloc: Global, activity: &Activity) -> Result<Option<String>, AllocError>
    ensures { IfOk result (λ o. option_map (λ text. string_bytes text) o ≡ told_of activity.now) }
{
    let text = match activity {
        Activity::Finalization(it) => finalized(alloc, it.view(), &it.proposal.payload)?,
        Activity::ConflictingNotarize(it) => {
            evidence(alloc, "ConflictingNotarize", it.signer(), it.view())?
        }
        Activity::ConflictingFinalize(it) => {
            evidence(alloc, "ConflictingFinalize", it.signer(), it.view())?
        }
        Activity::NullifyFinalize(it) => {
            evidence(alloc, "NullifyFinalize", it.signer(), it.view())?
        }
        Activity::Notarize(_)
        | Activity::Notarization(_)
        | Activity::Certification(_)
        | Activity::Nullify(_)
        | Activity::Nullification(_)
        | Activity::Finalize(_) => return Ok(None),
    };
    Ok(Some(text))
}

/// Adds the line on what is told of a node at an event, if anything is.
pub fn push_line(
    alloc: Global,
    text: &mut String,
    event: u64,
    node: &Node,
    what: Option<&str>,
) -> Result<(), AllocError>
    ensures { OnOk result (string_bytes text.new
        ≡ string_bytes text.old ++ line_if event node.now (option_map (λ s. s.now) what.entry)) }
{
    if let Some(what) = what {
        text.push_str(line(alloc, event, node, what)?.as_str())?;
    }
    Ok(())
}

// Adds the line of a call, if it has one.
fn push_call(
    alloc: Global,
    text: &mut String,
    event: u64,
    node: &Node,
    call: &Call,
) -> Result<(), AllocError>
    ensures { OnOk result (string_bytes text.new
        ≡ string_bytes text.old ++ call_line_of event node.now call.now) }
{
    if let Call::Report(activity) = call
        && let Some(what) = told(alloc, activity)?
    {
        push_line(alloc, text, event, node, Some(what.as_str()))?;
    }
    Ok(())
}

/// Adds the lines of the calls, in their order.
pub fn push_calls(
    alloc: Global,
    text: &mut String,
    event: u64,
    node: &Node,
    calls: &[Call],
) -> Result<(), AllocError>
    ensures { OnOk result (string_bytes text.new
        ≡ string_bytes text.old ++ flat_map (call_line_of event node.now) calls.now) }
{
    let mut rest = calls;
    while let [call, after @ ..] = rest {
        push_call(alloc, text, event, node, call)?;
        rest = after;
    }
    Ok(())
}
