//! Why a line of a script is refused.
ghost use Rattle.std.specs.Prelude.{◌≡◌, IfOk, string_bytes};
ghost use Rattle.simplex_script.specs.Faults as said;

use crate::command::{Question, Whom};
use crate::names::question_word;
use simplex_names::channel_word;
use simplex_transcript::Node;
use simplex_types::Channel;
use std::alloc::{AllocError, Global};

/// The words that a command takes.
#[derive(Clone, Copy, Debug, PartialEq, Eq)]
pub enum Form {
    Network,
    Set,
    Start,
    Propose,
    Verify,
    Certify,
    Deliver,
    Resend,
    Lose,
    Miss,
    Step,
    Tick,
    Crash,
    Settle,
}

/// Why a line is refused.
#[derive(Clone, Copy, Debug, PartialEq, Eq)]
pub enum Fault {
    /// Its first word is no command.
    NoCommand,
    /// The words behind the first are not what the command takes.
    Words(Form),
    /// It comes before the line on the network.
    NoNetwork,
    /// It sets something up behind the first event, or says the network again.
    Late,
    /// No packet of the channel from one node to another is there that was not delivered.
    NoPacket {
        from: Node,
        to: Node,
        channel: Channel,
    },
    /// None was delivered.
    NotDelivered {
        from: Node,
        to: Node,
        channel: Channel,
    },
    /// The node has no open request for a proposal.
    NoProposal(Node),
    /// No request of this kind is open, of any node or of one.
    NoRequest {
        question: Question,
        whom: Whom,
    },
    /// Something is left to do behind so many events.
    Restless(u64),
}

/// A line that is refused, and why.
#[derive(Clone, Copy, Debug, PartialEq, Eq)]
pub struct BadLine {
    /// The number of the line, from 1.
    pub line: u64,
    /// Why it is refused.
    pub fault: Fault,
}

/// The words that the command takes.
fn form_text(form: Form) -> &'static str
    ensures { result.now ≡ said.form_text form }
{
    match form {
        Form::Network =>
            "network KIND .., as honest, silent, conflicter, equivocator, impersonator, nuller, nullify_only, outdated:VIEWS, reconfigurer, corrupt, unrecovering or twin",
        Form::Set =>
            "set NAME VALUE: a number for epoch, key_base, term, lookahead, leader_timeout, certification_timeout, retry, stall, retention, mailbox, fetch_timeout or fetch_retry, yes or no for track or handoff, and disabled, voters or leader for forward",
        Form::Start => "start NODE .. or start NODE cut CALL keep RECORDS",
        Form::Propose => "propose NODE BYTE, the byte of two digits as aa",
        Form::Verify => "verify NODE yes, or all in place of NODE, or no in place of yes",
        Form::Certify => "certify NODE yes, or all in place of NODE, or no in place of yes",
        Form::Deliver => "deliver FROM->TO CHANNEL, a channel vote, certificate or resolver",
        Form::Resend => "resend FROM->TO CHANNEL, a channel vote, certificate or resolver",
        Form::Lose => "lose FROM->TO CHANNEL, a channel vote, certificate or resolver",
        Form::Miss => "miss NODE ..",
        Form::Step =>
            "step NODE SOURCE or step NODE SOURCE cut CALL keep RECORDS, a source batcher, voter, timer, propose, verify, certify, resolver, handler or fetch",
        Form::Tick => "tick MILLISECONDS",
        Form::Crash => "crash NODE ..",
        Form::Settle => "settle or settle NODE ..",
    }
}

// A node, as `0.0`.
fn node_text(alloc: Global, node: Node) -> Result<String, AllocError>
    ensures { IfOk result (λ text. string_bytes text ≡ said.node_text node) }
{
    let member = node.member;
    let half = node.half;
    format!(in alloc; "{member}.{half}")
}

// Of which packet between which nodes it is so.
fn packet_text(
    alloc: Global,
    channel: Channel,
    from: Node,
    to: Node,
    which: &str,
) -> Result<String, AllocError>
    ensures { IfOk result (λ text. string_bytes text ≡ said.packet_text channel from to which.now) }
{
    let channel = channel_word(channel);
    let from = node_text(alloc, from)?;
    let from = from.as_str();
    let to = node_text(alloc, to)?;
    let to = to.as_str();
    format!(in alloc; "no {channel} from {from} to {to} {which}")
}

// Of which kind no request is open, of any node or of one.
fn request_text(alloc: Global, question: Question, whom: Whom) -> Result<String, AllocError>
    ensures { IfOk result (λ text. string_bytes text ≡ said.request_text question whom) }
{
    let question = question_word(question);
    match whom {
        Whom::All => format!(in alloc; "no request to {question} is open"),
        Whom::One(node) => {
            let node = node_text(alloc, node)?;
            let node = node.as_str();
            format!(in alloc; "no request of {node} to {question} is open")
        }
    }
}

/// Why a line is refused, in words.
pub fn fault_text(alloc: Global, fault: &Fault) -> Result<String, AllocError>
    ensures { IfOk result (λ text. string_bytes text ≡ said.fault_text fault.now) }
{
    match fault {
        Fault::NoCommand => String::from_str(
            alloc,
            "its first word is none of network, set, start, propose, verify, certify, deliver, resend, lose, miss, step, tick, crash and settle",
        ),
        Fault::Words(form) => {
            let form = form_text(*form);
            format!(in alloc; "it is not of the form: {form}")
        }
        Fault::NoNetwork => String::from_str(alloc, "the line on the network has to come first"),
        Fault::Late => String::from_str(alloc, "it has to stand once, before the first event"),
        Fault::NoPacket { from, to, channel } => {
            packet_text(alloc, *channel, *from, *to, "is open")
        }
        Fault::NotDelivered { from, to, channel } => {
            packet_text(alloc, *channel, *from, *to, "was delivered")
        }
        Fault::NoProposal(node) => {
            let node = node_text(alloc, *node)?;
            let node = node.as_str();
            format!(in alloc; "{node} is not asked for a proposal")
        }
        Fault::NoRequest { question, whom } => request_text(alloc, *question, *whom),
        Fault::Restless(events) => format!(in alloc;
            "something is left to do behind {events} events"
        ),
    }
}
