//! What is read from what a voter takes.
#![tactic(auto, unfolding(crate::specs::Due::reading))]

ghost use Rattle.std.specs.Prelude.{◌≡◌};
ghost use Rattle.model_rules.specs.Calls.{proposal_on};
ghost use Rattle.model_rules.specs.declared.request.Asked.TheVariants as asks;
ghost use Rattle.simplex_messages.specs.declared.voter.Message.TheVariants as mail;
ghost use Rattle.model_audit.specs.Taking.{Mail, Reply, payload_for};
ghost use Rattle.simplex_known.specs.Knows.{Answers};
ghost use Rattle.simplex_due.specs.Due.{Reads, ReadsPayload};

use crate::lessons::Lesson;
use model_rules::Asked;
use simplex_known::Known;
use simplex_values::{Answer, Context, Digest, Handoff, Proposal, Round, View};
use simplex_wire::Certificate;

/// What a step learns besides certificates and own votes, and which view it touches.
#[derive(Clone, Copy, Debug, PartialEq, Eq)]
pub(crate) struct Reading {
    pub(crate) lesson: Option<Lesson>,
    pub(crate) touched: Option<View>,
}

impl Reading {
    /// The step ends there.
    const NOTHING: Reading = Reading {
        lesson: None,
        touched: None,
    };
}

/// That of a proposal of a leader.
pub(crate) fn read_proposal(known: &Known, proposal: &Proposal) -> Reading
    ensures { Reads known.now (Mail (mail.Proposal proposal.now)) result }
{
    if !known.records_proposal(proposal) {
        return Reading::NOTHING;
    }
    Reading {
        lesson: Some(Lesson::Taken(*proposal)),
        touched: Some(proposal.view()),
    }
}

/// That of a certificate that verifies.
pub(crate) fn read_certificate(known: &Known, certificate: &Certificate) -> Reading
    ensures { Reads known.now (Mail (mail.Verified certificate.now)) result }
{
    let view = certificate.view();
    if !known.admits_certificate(view) {
        return Reading::NOTHING;
    }
    Reading {
        lesson: None,
        touched: Some(view),
    }
}

/// That of an answer to a request.
pub(crate) fn read_answer(known: &Known, asked: &Asked, answer: &Answer) -> Reading
    ensures { Reads known.now (Reply asked.now answer.now) result }
{
    match asked {
        Asked::Prepare(context) => read_payload(known, context, answer),
        Asked::Propose(context) => read_payload(known, context, answer),
        Asked::Verify(context, payload) => read_check(known, context, payload, answer),
        Asked::Certify(round, payload) => read_verdict(known, round, payload, answer),
    }
}

// That of a payload.
fn read_payload(known: &Known, context: &Context, answer: &Answer) -> Reading
    ensures { ReadsPayload known.now context.now answer.now result }
{
    let view = context.round.view;
    match payload_for(known, context, answer) {
        None => Reading::NOTHING,
        Some(payload) => {
            if !known.records_answer(view) {
                return Reading::NOTHING;
            }
            Reading {
                lesson: Some(Lesson::Answered(proposal_on(context, payload))),
                touched: Some(view),
            }
        }
    }
}

// That of an answer to whether another's payload is valid.
fn read_check(known: &Known, context: &Context, payload: &Digest, answer: &Answer) -> Reading
    ensures { Reads known.now (Reply (asks.Verify context.now payload.now) answer.now) result }
{
    let touched = Some(context.round.view);
    match answer {
        Answer::Verdict(true) => Reading {
            lesson: Some(Lesson::Approved(proposal_on(context, *payload))),
            touched,
        },
        Answer::Verdict(false) | Answer::Payload(_) | Answer::Handoff(_) | Answer::Closed =>
            Reading {
                lesson: None,
                touched,
            },
    }
}

// That of a verdict on a notarization.
fn read_verdict(known: &Known, round: &Round, payload: &Digest, answer: &Answer) -> Reading
    ensures { Reads known.now (Reply (asks.Certify round.now payload.now) answer.now) result }
{
    let view = round.view;
    match answer {
        Answer::Verdict(good) => {
            if !known.takes_verdict(view) {
                return Reading::NOTHING;
            }
            Reading {
                lesson: Some(Lesson::Judged(view, *good)),
                touched: Some(view),
            }
        }
        Answer::Payload(_) | Answer::Handoff(_) | Answer::Closed => Reading {
            lesson: None,
            touched: Some(view),
        },
    }
}

// The payload of an answer to a request on this parent: a staged one waits until the parent is certified.
fn payload_for(known: &Known, context: &Context, answer: &Answer) -> Option<Digest>
    ensures { Answers known.now (λ made facts. payload_for facts context.now answer.now) result }
{
    match answer {
        Answer::Payload(payload) => Some(*payload),
        Answer::Handoff(Handoff::Vote(payload)) => Some(*payload),
        Answer::Handoff(Handoff::Stage(payload)) => {
            if !known.is_certified(context.parent.view) {
                return None;
            }
            Some(*payload)
        }
        Answer::Handoff(Handoff::Wait) | Answer::Verdict(_) | Answer::Closed => None,
    }
}

// The proposal of the payload in the context's round, on its parent.
fn proposal_on(context: &Context, payload: Digest) -> Proposal
    ensures { result ≡ proposal_on context.now payload }
{
    Proposal {
        round: context.round,
        parent: context.parent.view,
        payload,
    }
}
