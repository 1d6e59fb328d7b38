//! The events that a command stands for.
ghost use Rattle.std.specs.Prelude.{◌≡◌, ◌∷◌, [], IfOk, Some};
ghost use Rattle.simplex_script.specs.Planning as plans;

use crate::command::{Command, Question, Whom};
use crate::fault::Fault;
use crate::post::{Parcel, Post};
use model_rules::Asked;
use simplex_messages::Stop;
use simplex_transcript::{Event, Node, Ref};
use simplex_types::{Answer, Digest, Handoff};
use std::alloc::{AllocError, Global};

/// A request that is open and was not answered.
#[derive(Clone, Copy, Debug, PartialEq, Eq)]
pub struct OpenRequest {
    /// The node that asked.
    pub node: Node,
    /// Where it stands.
    pub request: Ref,
    /// What it asked for.
    pub asked: Asked,
}

// The nodes start, one after another.
fn starts(alloc: Global, nodes: &[Node], stop: Stop) -> Result<Vec<Event>, AllocError>
    ensures { IfOk result (λ events. events.items ≡ plans.starts stop nodes.now) }
{
    let mut events = Vec::new(alloc);
    let mut rest = nodes;
    while let [node, after @ ..] = rest {
        events.push(Event::Start {
            node: *node,
            floor: None,
            stop,
        })?;
        rest = after;
    }
    Ok(events)
}

// The nodes crash, one after another.
fn crashes(alloc: Global, nodes: &[Node]) -> Result<Vec<Event>, AllocError>
    ensures { IfOk result (λ events. events.items ≡ plans.crashes nodes.now) }
{
    let mut events = Vec::new(alloc);
    let mut rest = nodes;
    while let [node, after @ ..] = rest {
        events.push(Event::Crash { node: *node })?;
        rest = after;
    }
    Ok(events)
}

fn is_same_node(a: Node, b: Node) -> bool
    ensures { result ≡ plans.is_same_node a b }
{
    a.member == b.member && a.half == b.half
}

// The answer that proposes a payload, where that is asked for.
fn proposal_for(asked: &Asked, payload: Digest) -> Option<Answer>
    ensures { result ≡ plans.proposal_for payload asked.now }
{
    match asked {
        Asked::Prepare(_) => Some(Answer::Handoff(Handoff::Stage(payload))),
        Asked::Propose(_) => Some(Answer::Payload(payload)),
        Asked::Verify(_, _) => None,
        Asked::Certify(_, _) => None,
    }
}

// The request is answered by a payload, if it is the node's and wants one.
fn proposed_to(it: &OpenRequest, node: Node, payload: Digest) -> Option<Event>
    ensures { result ≡ plans.proposed_to node payload it.now }
{
    if !is_same_node(it.node, node) {
        return None;
    }
    let answer = proposal_for(&it.asked, payload)?;
    Some(Event::Answer {
        node,
        request: it.request,
        answer,
    })
}

// The node's oldest request for a proposal is answered.
fn proposed(open: &[OpenRequest], node: Node, payload: Digest) -> Option<Event>
    ensures { result ≡ plans.proposed node payload open.now }
{
    let mut rest = open;
    while let [it, after @ ..] = rest {
        if let Some(event) = proposed_to(it, node, payload) {
            return Some(event);
        }
        rest = after;
    }
    None
}

fn asks(asked: &Asked, question: Question) -> bool
    ensures { result ≡ plans.asks question asked.now }
{
    match question {
        Question::Verify => matches!(asked, Asked::Verify(_, _)),
        Question::Certify => matches!(asked, Asked::Certify(_, _)),
    }
}

fn is_of(node: Node, whom: Whom) -> bool
    ensures { result ≡ plans.is_of whom node }
{
    match whom {
        Whom::All => true,
        Whom::One(one) => is_same_node(node, one),
    }
}

/// Whether the request wants a verdict on a payload.
pub fn wants_verdict(it: &OpenRequest) -> bool
    ensures { result ≡ plans.wants_verdict it.now }
{
    asks(&it.asked, Question::Verify) || asks(&it.asked, Question::Certify)
}

/// The request is answered by a verdict.
pub fn judged(it: &OpenRequest, good: bool) -> Event
    ensures { result ≡ plans.judged good it.now }
{
    Event::Answer {
        node: it.node,
        request: it.request,
        answer: Answer::Verdict(good),
    }
}

// Whether a verdict on a question of these nodes is the answer.
fn is_judged(it: &OpenRequest, question: Question, whom: Whom) -> bool
    ensures { result ≡ plans.is_judged question whom it.now }
{
    is_of(it.node, whom) && asks(&it.asked, question)
}

// The requests of a kind are answered, the oldest first.
fn verdicts(
    alloc: Global,
    open: &[OpenRequest],
    question: Question,
    whom: Whom,
    good: bool,
) -> Result<Vec<Event>, AllocError>
    ensures { IfOk result (λ events. events.items ≡ plans.verdicts question whom good open.now) }
{
    let mut events = Vec::new(alloc);
    let mut rest = open;
    while let [it, after @ ..] = rest {
        if is_judged(it, question, whom) {
            events.push(judged(it, good))?;
        }
        rest = after;
    }
    Ok(events)
}

/// The parcel is delivered.
pub fn delivery(parcel: &Parcel) -> Event
    ensures { result ≡ plans.delivery parcel.now }
{
    Event::Deliver {
        node: parcel.to,
        packet: parcel.packet,
    }
}

// This event alone.
fn only(alloc: Global, event: Event) -> Result<Vec<Event>, AllocError>
    ensures { IfOk result (λ events. events.items ≡ event ∷ []) }
{
    let mut events = Vec::new(alloc);
    events.push(event)?;
    Ok(events)
}

// This event, if there is one.
fn only_if(
    alloc: Global,
    event: Option<Event>,
    fault: Fault,
) -> Result<Result<Vec<Event>, Fault>, AllocError>
    ensures { IfOk result (λ it. plans.IsPlan it (plans.only_if fault event)) }
{
    match event {
        None => Ok(Err(fault)),
        Some(event) => Ok(Ok(only(alloc, event)?)),
    }
}

// The delivery of this parcel, if there is one.
fn delivered_if(
    alloc: Global,
    parcel: Option<Parcel>,
    fault: Fault,
) -> Result<Result<Vec<Event>, Fault>, AllocError>
    ensures { IfOk result (λ it. plans.IsPlan it (plans.delivered_if fault parcel)) }
{
    match parcel {
        None => Ok(Err(fault)),
        Some(parcel) => Ok(Ok(only(alloc, delivery(&parcel))?)),
    }
}

// These events, if there are some.
fn some_of(events: Vec<Event>, fault: Fault) -> Result<Vec<Event>, Fault>
    ensures { plans.IsPlan result (plans.some_of fault events.items) }
{
    if events.is_empty() {
        Err(fault)
    } else {
        Ok(events)
    }
}

/// The events that a command stands for, where these packets and requests are open, or what it does not find. `settle`, `lose` and
/// `miss` stand for none: what `settle` comes to is not known before it is made.
pub fn planned(
    alloc: Global,
    command: &Command,
    post: &Post,
    open: &[OpenRequest],
) -> Result<Result<Vec<Event>, Fault>, AllocError>
    ensures { IfOk result (λ it.
        plans.IsPlan it (plans.planned command.now post.now.waiting.items post.now.delivered.items open.now)) }
{
    match command {
        Command::Start { nodes, stop } => Ok(Ok(starts(alloc, nodes.as_slice(), *stop)?)),
        Command::Propose { node, payload } => only_if(
            alloc,
            proposed(open, *node, *payload),
            Fault::NoProposal(*node),
        ),
        Command::Judge {
            question,
            whom,
            good,
        } => {
            let events = verdicts(alloc, open, *question, *whom, *good)?;
            Ok(some_of(
                events,
                Fault::NoRequest {
                    question: *question,
                    whom: *whom,
                },
            ))
        }
        Command::Deliver { from, to, channel } => delivered_if(
            alloc,
            post.oldest(*from, *to, *channel),
            Fault::NoPacket {
                from: *from,
                to: *to,
                channel: *channel,
            },
        ),
        Command::Resend { from, to, channel } => delivered_if(
            alloc,
            post.last(*from, *to, *channel),
            Fault::NotDelivered {
                from: *from,
                to: *to,
                channel: *channel,
            },
        ),
        Command::Step { node, source, stop } => {
            let event = Event::Step {
                node: *node,
                source: *source,
                stop: *stop,
            };
            Ok(Ok(only(alloc, event)?))
        }
        Command::Tick { ms } => Ok(Ok(only(alloc, Event::Tick { ms: *ms })?)),
        Command::Crash { nodes } => Ok(Ok(crashes(alloc, nodes.as_slice())?)),
        Command::Lose { .. } => Ok(Ok(Vec::new(alloc))),
        Command::Miss { .. } => Ok(Ok(Vec::new(alloc))),
        Command::Settle { .. } => Ok(Ok(Vec::new(alloc))),
    }
}
