//! Whether an entry fits its event, as far as no other entry is asked.
ghost use Rattle.std.specs.Prelude.{◌≡◌};
ghost use Rattle.std.specs.Option.{option_eq};
ghost use Rattle.model_run.specs.Kinds.{is_same_node};
ghost use Rattle.law_run.specs.Complete as complete;
ghost use Rattle.model_audit.specs.Answers as answers;
ghost use Rattle.model_audit.specs.Fitting as fitting;
ghost use Rattle.simplex_case.specs.Sources as sources;

use crate::all::three;
use model_audit::{AuditEntry, AuditTook};
use model_rules::Asked;
use simplex_messages::{Outcome, Stop};
use simplex_transcript::{Event, Node, StepSource};
use simplex_types::Answer;

/// The node that an event names.
pub fn node_named(event: &Event) -> Option<Node>
    ensures { result ≡ complete.node_named event.now }
{
    match event {
        Event::Start { node, .. } => Some(*node),
        Event::Tick { .. } => None,
        Event::Deliver { node, .. } => Some(*node),
        Event::Step { node, .. } => Some(*node),
        Event::Answer { node, .. } => Some(*node),
        Event::Crash { node } => Some(*node),
        Event::Inject { member, .. } => Some(Node {
            member: *member,
            half: 0,
        }),
    }
}

/// Whether both are one node, or both none.
pub(crate) fn is_same(who: Option<Node>, other: Option<Node>) -> bool
    ensures { result ≡ option_eq is_same_node who other }
{
    match who {
        None => other.is_none(),
        Some(node) => match other {
            None => false,
            Some(other) => node == other,
        },
    }
}

fn stop_of(event: &Event) -> Stop
    ensures { result ≡ fitting.stop_of event.now }
{
    match event {
        Event::Start { stop, .. } => *stop,
        Event::Step { stop, .. } => *stop,
        _ => Stop::None,
    }
}

fn is_cut(stop: Stop) -> bool
    ensures { result ≡ fitting.is_cut stop }
{
    matches!(stop, Stop::Cut { .. })
}

fn is_fail(stop: Stop) -> bool
    ensures { result ≡ fitting.is_fail stop }
{
    matches!(stop, Stop::Fail { .. })
}

/// Whether such an event may end so.
pub(crate) fn outcome_fits(event: &Event, outcome: Outcome) -> bool
    ensures { result ≡ fitting.outcome_fits event.now outcome }
{
    match outcome {
        Outcome::Done => true,
        Outcome::Idle => matches!(event, Event::Step { .. } | Event::Crash { .. }),
        Outcome::Cut => is_cut(stop_of(event)),
        Outcome::Journal => is_fail(stop_of(event)),
        Outcome::Refused => matches!(event, Event::Deliver { .. }),
    }
}

/// Whether an entry that ended so may list what it does.
pub(crate) fn lists_fit(entry: &AuditEntry) -> bool
    ensures { result ≡ fitting.lists_fit entry.now.outcome entry.now }
{
    match entry.outcome {
        Outcome::Done => true,
        Outcome::Idle => lists_nothing(entry),
        Outcome::Cut => adds_nothing(entry),
        Outcome::Journal => adds_nothing(entry),
        Outcome::Refused => lists_nothing(entry),
    }
}

fn lists_nothing(entry: &AuditEntry) -> bool
    ensures { result ≡ fitting.lists_nothing entry.now }
{
    three(
        adds_nothing(entry),
        entry.calls.is_empty(),
        entry.packets.is_empty(),
    )
}

fn adds_nothing(entry: &AuditEntry) -> bool
    ensures { result ≡ fitting.adds_nothing entry.now }
{
    three(
        entry.added.is_empty(),
        entry.asked.is_empty(),
        entry.dropped.is_empty(),
    )
}

/// Whether nothing was taken.
pub(crate) fn is_nothing(took: &AuditTook) -> bool
    ensures { result ≡ fitting.is_nothing took.now }
{
    matches!(took, AuditTook::Nothing)
}

/// Whether a step from this source takes the answer to the request.
pub(crate) fn is_for(source: StepSource, asked: &Asked) -> bool
    ensures { result ≡ fitting.is_for source asked.now }
{
    match asked {
        Asked::Prepare(_) => matches!(source, StepSource::Propose),
        Asked::Propose(_) => matches!(source, StepSource::Propose),
        Asked::Verify(_, _) => matches!(source, StepSource::Verify),
        Asked::Certify(_, _) => matches!(source, StepSource::Certify),
    }
}

/// Whether the request takes such an answer.
pub(crate) fn answer_fits(asked: &Asked, answer: &Answer) -> bool
    ensures { result ≡ answers.answer_fits asked.now answer.now }
{
    match answer {
        Answer::Closed => true,
        Answer::Handoff(_) => matches!(asked, Asked::Prepare(_)),
        Answer::Payload(_) => matches!(asked, Asked::Propose(_)),
        Answer::Verdict(_) => matches!(asked, Asked::Verify(_, _) | Asked::Certify(_, _)),
    }
}

/// Whether a step from this source takes such a thing, which is no answer to a request.
pub(crate) fn source_takes(source: StepSource, took: &AuditTook) -> bool
    ensures { sources.source_takes source took.now ≡ result }
{
    match took {
        AuditTook::Timer => matches!(source, StepSource::Timer | StepSource::Fetch),
        AuditTook::OtherMail => matches!(
            source,
            StepSource::Batcher | StepSource::Resolver | StepSource::Handler
        ),
        AuditTook::Proposal(_) | AuditTook::Timeout(_, _) | AuditTook::Certificate(_) => {
            matches!(source, StepSource::Voter)
        }
        AuditTook::Nothing | AuditTook::Packet(_) | AuditTook::Request(_, _) | AuditTook::Floor =>
            false,
    }
}
