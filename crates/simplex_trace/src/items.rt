//! What came of an event, item by item.
ghost use Rattle.std.specs.Prelude.{◌≡◌, ◌++◌, codes, decimal, IfOk, OnOk, string_bytes};
ghost use Rattle.std.specs.List.{enumerate_from};
ghost use Rattle.simplex_messages.specs.declared.call.Call.TheVariants as calls;
ghost use Rattle.simplex_trace.specs.Deeds as deeds;
ghost use Rattle.simplex_trace.specs.Items as items;
ghost use Rattle.simplex_trace.specs.Words as words;

use crate::deeds::{node_text, numbered, payload_text, ref_text, spaced};
use crate::words::{cause_word, record_word, report_word};
use model_rules::Asked;
use simplex_messages::{Call, Handed, Outcome};
use simplex_names::channel_word;
use simplex_transcript::{Entry, Node, Packet, Ref};
use simplex_types::{Activity, Artifact, BlockCause, Digest, Participant};
use std::alloc::{AllocError, Global};

fn append_text(alloc: Global, section: u64, artifact: &Artifact) -> Result<String, AllocError>
    ensures { IfOk result (λ text. string_bytes text
        ≡ deeds.spaced (codes "append")
        (deeds.spaced (words.record_word artifact.now) (decimal section))) }
{
    let what = numbered(alloc, record_word(artifact), section)?;
    spaced(alloc, "append", what.as_str())
}

fn report_text(alloc: Global, activity: &Activity) -> Result<String, AllocError>
    ensures { IfOk result (λ text. string_bytes text
        ≡ items.call_text (calls.Report activity.now)) }
{
    let what = numbered(alloc, report_word(activity), activity.view().0)?;
    spaced(alloc, "report", what.as_str())
}

fn relay_text(alloc: Global, payload: &Digest) -> Result<String, AllocError>
    ensures { IfOk result (λ text. string_bytes text
        ≡ deeds.spaced (codes "relay") (deeds.payload_text payload.now)) }
{
    let payload = payload_text(alloc, payload)?;
    spaced(alloc, "relay", payload.as_str())
}

fn block_text(alloc: Global, member: Participant, cause: BlockCause) -> Result<String, AllocError>
    ensures { IfOk result (λ text. string_bytes text ≡ items.call_text (calls.Block member cause)) }
{
    let cause = spaced(alloc, "for", cause_word(cause))?;
    let cause = cause.as_str();
    let member = member.0;
    let what = format!(in alloc; "{member} {cause}")?;
    spaced(alloc, "block", what.as_str())
}

fn call_text(alloc: Global, call: &Call) -> Result<String, AllocError>
    ensures { IfOk result (λ text. string_bytes text ≡ items.call_text call.now) }
{
    match call {
        Call::Append(section, artifact) => append_text(alloc, *section, artifact),
        Call::Sync(section) => numbered(alloc, "sync", *section),
        Call::Prune(least) => numbered(alloc, "prune below", *least),
        Call::Send { channel, .. } => spaced(alloc, "send", channel_word(*channel)),
        Call::Report(activity) => report_text(alloc, activity),
        Call::Relay { payload, .. } => relay_text(alloc, payload),
        Call::Block(member, cause) => block_text(alloc, *member, *cause),
    }
}

/// What is asked, and of which view.
pub fn ask_text(alloc: Global, asked: &Asked) -> Result<String, AllocError>
    ensures { IfOk result (λ text. string_bytes text ≡ items.ask_text asked.now) }
{
    match asked {
        Asked::Prepare(context) => numbered(alloc, "prepare", context.round.view.0),
        Asked::Propose(context) => numbered(alloc, "propose", context.round.view.0),
        Asked::Verify(context, _) => numbered(alloc, "verify", context.round.view.0),
        Asked::Certify(round, _) => numbered(alloc, "certify", round.view.0),
    }
}

fn mailbox_word(handed: &Handed) -> &'static str
    ensures { result.now ≡ items.mailbox_word handed.now }
{
    match handed {
        Handed::Batcher(_) => "batcher",
        Handed::Voter(_) => "voter",
        Handed::Resolver(_) => "resolver",
        Handed::Handler(_) => "handler",
    }
}

fn mail_text(alloc: Global, handed: &Handed) -> Result<String, AllocError>
    ensures { IfOk result (λ text. string_bytes text ≡ items.mail_text handed.now) }
{
    spaced(alloc, "mail for", mailbox_word(handed))
}

// Writes a text behind a mark.
fn push_behind(text: &mut String, mark: &str, what: &str) -> Result<(), AllocError>
    ensures { OnOk result (string_bytes text.new
        ≡ string_bytes text.old ++ (mark.now ++ what.now)) }
{
    text.push_str(mark)?;
    text.push_str(what)
}

// Writes an item behind what stands before it.
fn push_item(text: &mut String, what: &str) -> Result<(), AllocError>
    ensures { OnOk result (string_bytes text.new ≡ string_bytes text.old ++ items.item what.now) }
{
    push_behind(text, ", ", what)
}

fn push_calls(alloc: Global, text: &mut String, calls: &[Call]) -> Result<(), AllocError>
    ensures { OnOk result (string_bytes text.new
        ≡ string_bytes text.old ++ items.items_by items.call_text calls.now) }
{
    for call in calls {
        let what = call_text(alloc, call)?;
        push_item(text, what.as_str())?;
    }
    Ok(())
}

fn push_mail(alloc: Global, text: &mut String, handed: &[Handed]) -> Result<(), AllocError>
    ensures { OnOk result (string_bytes text.new
        ≡ string_bytes text.old ++ items.items_by items.mail_text handed.now) }
{
    for message in handed {
        let what = mail_text(alloc, message)?;
        push_item(text, what.as_str())?;
    }
    Ok(())
}

fn request_text(alloc: Global, event: u64, place: u64, asked: &Asked) -> Result<String, AllocError>
    ensures { IfOk result (λ text. string_bytes text
        ≡ items.request_text event (place, asked.now)) }
{
    let name = ref_text(alloc, &Ref { event, place })?;
    let name = spaced(alloc, "as", name.as_str())?;
    let what = ask_text(alloc, asked)?;
    let what = spaced(alloc, what.as_str(), name.as_str())?;
    spaced(alloc, "ask", what.as_str())
}

fn push_requests(
    alloc: Global,
    text: &mut String,
    event: u64,
    requests: &[Asked],
) -> Result<(), AllocError>
    ensures { OnOk result (string_bytes text.new ≡ string_bytes text.old
        ++ items.items_by (items.request_text event) (enumerate_from 0 requests.now)) }
{
    for (place, asked) in requests.iter().enumerate() {
        let what = request_text(alloc, event, place as u64, asked)?;
        push_item(text, what.as_str())?;
    }
    Ok(())
}

fn nodes_text(alloc: Global, nodes: &[Node]) -> Result<String, AllocError>
    ensures { IfOk result (λ text. string_bytes text ≡ codes "to" ++ items.nodes_text nodes.now) }
{
    let mut text = String::from_str(alloc, "to")?;
    for node in nodes {
        let node = node_text(alloc, node)?;
        push_behind(&mut text, " ", node.as_str())?;
    }
    Ok(text)
}

fn packet_text(alloc: Global, event: u64, place: u64, packet: &Packet) -> Result<String, AllocError>
    ensures { IfOk result (λ text. string_bytes text
        ≡ items.packet_text event (place, packet.now)) }
{
    let name = ref_text(alloc, &Ref { event, place })?;
    let to = nodes_text(alloc, packet.to.as_slice())?;
    let what = spaced(alloc, name.as_str(), to.as_str())?;
    spaced(alloc, channel_word(packet.channel), what.as_str())
}

fn push_packets(
    alloc: Global,
    text: &mut String,
    event: u64,
    packets: &[Packet],
) -> Result<(), AllocError>
    ensures { OnOk result (string_bytes text.new ≡ string_bytes text.old
        ++ items.items_by (items.packet_text event) (enumerate_from 0 packets.now)) }
{
    for (place, packet) in packets.iter().enumerate() {
        let what = packet_text(alloc, event, place as u64, packet)?;
        push_item(text, what.as_str())?;
    }
    Ok(())
}

fn push_outcome(text: &mut String, outcome: Outcome) -> Result<(), AllocError>
    ensures { OnOk result (string_bytes text.new
        ≡ string_bytes text.old ++ items.outcome_items outcome) }
{
    match outcome {
        Outcome::Done => Ok(()),
        Outcome::Idle => push_item(text, "nothing to take"),
        Outcome::Refused => push_item(text, "refused: its sender is blocked"),
        Outcome::Journal => push_item(text, "stopped: the journal failed"),
        Outcome::Cut => push_item(text, "stopped: cut off"),
    }
}

/// The calls, the messages that wait now, the requests and the packets of an entry.
pub(crate) fn items_of(alloc: Global, entry: &Entry) -> Result<String, AllocError>
    ensures { IfOk result (λ text. string_bytes text ≡ items.items_of entry.now) }
{
    let mut text = String::new(alloc);
    push_calls(alloc, &mut text, entry.calls.as_slice())?;
    push_mail(alloc, &mut text, entry.handed.as_slice())?;
    push_requests(alloc, &mut text, entry.event, entry.asked.as_slice())?;
    push_packets(alloc, &mut text, entry.event, entry.packets.as_slice())?;
    push_outcome(&mut text, entry.outcome)?;
    Ok(text)
}
