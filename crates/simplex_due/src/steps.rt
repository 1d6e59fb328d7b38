//! The steps of a voter, by what it takes.
ghost use Rattle.std.specs.Prelude.{IfOk};
ghost use Rattle.simplex_values.specs.declared.timeout.TimeoutReason.{TimeoutReason};
ghost use Rattle.simplex_messages.specs.declared.voter.Message.TheVariants as mail;
ghost use Rattle.model_audit.specs.Taking.{Deadline, Mail, Reply};
ghost use Rattle.simplex_due.specs.Due.{Steps, StepsAs};

use crate::due::{Due, due_on};
use crate::lessons::{add_all, take_in};
use crate::reading::{Reading, read_answer, read_certificate, read_proposal};
use model_rules::Asked;
use simplex_known::Known;
use simplex_values::{Answer, Proposal, Round};
use simplex_wire::{Certificate, Scheme};
use std::alloc::AllocError;

/// At a deadline the nullify of the current view is due. Where there is one, no other vote is.
pub fn at_deadline<S: Scheme>(
    known: &mut Known,
    scheme: &S,
    added: &[Certificate],
) -> Result<Due, AllocError>
    ensures { IfOk result
        (λ due. Steps known.old known.new (S.attests scheme.now) added.now Deadline due) }
{
    let view = known.current();
    let gave_up = known.has_nullified(view);
    let nullify = known.nullify_at(scheme, view);
    add_all(known, added)?;
    if gave_up {
        return Ok(Due::of_nullify(nullify));
    }
    match nullify {
        None => Ok(due_on(known, scheme, Some(view))),
        Some(_) => Ok(Due::of_nullify(nullify)),
    }
}

/// On a proposal of a leader.
pub fn on_proposal<S: Scheme>(
    known: &mut Known,
    scheme: &S,
    added: &[Certificate],
    proposal: &Proposal,
) -> Result<Due, AllocError>
    ensures { IfOk result (λ due. Steps known.old known.new (S.attests scheme.now) added.now
        (Mail (mail.Proposal proposal.now)) due) }
{
    let reading = read_proposal(known, proposal);
    step(known, scheme, added, &reading)
}

/// On a timeout of a round, whatever its reason.
pub fn on_timeout<S: Scheme>(
    known: &mut Known,
    scheme: &S,
    added: &[Certificate],
    round: &Round,
) -> Result<Due, AllocError>
    ensures { IfOk result (λ due. (reason : TimeoutReason)
        → Steps known.old known.new (S.attests scheme.now) added.now
        (Mail (mail.Timeout round.now reason)) due) }
{
    let reading = Reading {
        lesson: None,
        touched: Some(round.view),
    };
    step(known, scheme, added, &reading)
}

/// On a certificate that verifies.
pub fn on_certificate<S: Scheme>(
    known: &mut Known,
    scheme: &S,
    added: &[Certificate],
    certificate: &Certificate,
) -> Result<Due, AllocError>
    ensures { IfOk result (λ due. Steps known.old known.new (S.attests scheme.now) added.now
        (Mail (mail.Verified certificate.now)) due) }
{
    let reading = read_certificate(known, certificate);
    step(known, scheme, added, &reading)
}

/// On an answer to a request.
pub fn on_answer<S: Scheme>(
    known: &mut Known,
    scheme: &S,
    added: &[Certificate],
    asked: &Asked,
    answer: &Answer,
) -> Result<Due, AllocError>
    ensures { IfOk result (λ due. Steps known.old known.new (S.attests scheme.now) added.now
        (Reply asked.now answer.now) due) }
{
    let reading = read_answer(known, asked, answer);
    step(known, scheme, added, &reading)
}

// On what is read so: at no deadline.
fn step<S: Scheme>(
    known: &mut Known,
    scheme: &S,
    added: &[Certificate],
    reading: &Reading,
) -> Result<Due, AllocError>
    ensures { IfOk result
        (λ due. StepsAs known.old known.new (S.attests scheme.now) added.now reading.now due) }
{
    take_in(known, added, &reading.lesson)?;
    Ok(due_on(known, scheme, reading.touched))
}
