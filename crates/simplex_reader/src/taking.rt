//! What comes of what a step took.
ghost use Rattle.std.specs.Prelude.{◌≡◌, [], IfOk};
ghost use Rattle.std.specs.Option.{option_map};
ghost use Rattle.simplex_values.specs.declared.timeout.TimeoutReason.{TimeoutReason};
ghost use Rattle.simplex_messages.specs.declared.voter.Message.TheVariants as mail;
ghost use Rattle.model_audit.specs.Reading.{reply};
ghost use Rattle.model_audit.specs.Taking.{Deadline, Mail};
ghost use Rattle.simplex_due.specs.Due.{votes_in};
ghost use Rattle.simplex_reader.specs.Taking as taking;
ghost use Rattle.simplex_reader.specs.Taking.{Acts, taking_by, taking_if};

use model_audit::AuditTook;
use model_rules::Asked;
use simplex_due::{Due, at_deadline, on_answer, on_certificate, on_proposal, on_timeout};
use simplex_known::Known;
use simplex_transcript::StepSource;
use simplex_values::{Answer, Proposal, Round};
use simplex_wire::{Certificate, Scheme};
use std::alloc::AllocError;

/// Takes in what a step from this source took, and the certificates that it added. Where it took an answer, this is the request.
pub(crate) fn take_in<S: Scheme>(
    known: &mut Known,
    scheme: &S,
    added: &[Certificate],
    source: StepSource,
    took: &AuditTook,
    asked: Option<&Asked>,
) -> Result<Due, AllocError>
    ensures { IfOk result (λ due. Acts known.old known.new (S.attests scheme.now) added.now
        (taking_by source took.now (option_map (λ asked. asked.now) asked.entry)) due) }
{
    match took {
        AuditTook::Timer => take_deadline(known, scheme, added, source),
        AuditTook::Proposal(proposal) => take_proposal(known, scheme, added, source, proposal),
        AuditTook::Timeout(round, _) => take_timeout(known, scheme, added, source, round),
        AuditTook::Certificate(certificate) => {
            take_certificate(known, scheme, added, source, certificate)
        }
        AuditTook::Request(_, answer) => take_answer(known, scheme, added, asked, answer),
        AuditTook::Nothing => Ok(nothing_due()),
        AuditTook::Packet(_) => Ok(nothing_due()),
        AuditTook::OtherMail => Ok(nothing_due()),
        AuditTook::Floor => Ok(nothing_due()),
    }
}

// Takes in a deadline, where it is the voter's.
fn take_deadline<S: Scheme>(
    known: &mut Known,
    scheme: &S,
    added: &[Certificate],
    source: StepSource,
) -> Result<Due, AllocError>
    ensures { IfOk result (λ due. Acts known.old known.new (S.attests scheme.now) added.now
        (taking_if (taking.is_timer source) Deadline) due) }
{
    if !is_timer(source) {
        return Ok(nothing_due());
    }
    at_deadline(known, scheme, added)
}

// Takes in a proposal of a leader, where it is the voter's mail.
fn take_proposal<S: Scheme>(
    known: &mut Known,
    scheme: &S,
    added: &[Certificate],
    source: StepSource,
    proposal: &Proposal,
) -> Result<Due, AllocError>
    ensures { IfOk result (λ due. Acts known.old known.new (S.attests scheme.now) added.now
        (taking_if (taking.is_voter source) (Mail (mail.Proposal proposal.now))) due) }
{
    if !is_voter(source) {
        return Ok(nothing_due());
    }
    on_proposal(known, scheme, added, proposal)
}

// Takes in a timeout of a round, whatever its reason, where it is the voter's mail.
fn take_timeout<S: Scheme>(
    known: &mut Known,
    scheme: &S,
    added: &[Certificate],
    source: StepSource,
    round: &Round,
) -> Result<Due, AllocError>
    ensures { IfOk result (λ due. (reason : TimeoutReason) → Acts known.old known.new (S.attests scheme.now) added.now
        (taking_if (taking.is_voter source) (Mail (mail.Timeout round.now reason))) due) }
{
    if !is_voter(source) {
        return Ok(nothing_due());
    }
    on_timeout(known, scheme, added, round)
}

// Takes in a certificate that verifies, where it is the voter's mail.
fn take_certificate<S: Scheme>(
    known: &mut Known,
    scheme: &S,
    added: &[Certificate],
    source: StepSource,
    certificate: &Certificate,
) -> Result<Due, AllocError>
    ensures { IfOk result (λ due. Acts known.old known.new (S.attests scheme.now) added.now
        (taking_if (taking.is_voter source) (Mail (mail.Verified certificate.now))) due) }
{
    if !is_voter(source) {
        return Ok(nothing_due());
    }
    on_certificate(known, scheme, added, certificate)
}

// Takes in an answer to the request, where there is one.
fn take_answer<S: Scheme>(
    known: &mut Known,
    scheme: &S,
    added: &[Certificate],
    asked: Option<&Asked>,
    answer: &Answer,
) -> Result<Due, AllocError>
    ensures { IfOk result (λ due. Acts known.old known.new (S.attests scheme.now) added.now
        (option_map (reply answer.now) (option_map (λ asked. asked.now) asked.entry)) due) }
{
    match asked {
        None => Ok(nothing_due()),
        Some(asked) => on_answer(known, scheme, added, asked, answer),
    }
}

/// Whether a step is the voter's at its deadline.
pub(crate) fn is_timer(source: StepSource) -> bool
    ensures { result ≡ taking.is_timer source }
{
    matches!(source, StepSource::Timer)
}

/// Whether a step takes the voter's mail.
pub(crate) fn is_voter(source: StepSource) -> bool
    ensures { result ≡ taking.is_voter source }
{
    matches!(source, StepSource::Voter)
}

/// No vote.
pub(crate) fn nothing_due() -> Due
    ensures { votes_in result ≡ [] }
{
    Due {
        nullify: None,
        notarize: None,
        finalize: None,
    }
}
