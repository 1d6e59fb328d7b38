//! The prune that the rules make in a step.
ghost use Rattle.std.specs.Prelude.{◌≡◌, ◌==◌, ◌<◌, ◌≤◌, ℕ, List, length, true, false, Some, IfOk, if◌then◌else◌};
ghost use Rattle.std.specs.Option.{option_map};
ghost use Rattle.simplex_messages.specs.declared.voter.Message.TheVariants as mail;
ghost use Rattle.simplex_values.specs.declared.timeout.TimeoutReason.{TimeoutReason};
ghost use Rattle.model_rules.specs.declared.request.Asked.TheVariants as asks;
ghost use Rattle.model_rules.specs.Known.{Made, Fact};
ghost use Rattle.model_audit.specs.JournalCalls.{records_taken};
ghost use Rattle.model_audit.specs.Reading.{reply};
ghost use Rattle.model_audit.specs.Taking.{Deadline, Mail, Reply};
ghost use Rattle.simplex_due.specs.Due.{votes_in};
ghost use Rattle.simplex_known.specs.Knows.{Knows, Answers};
ghost use Rattle.simplex_reader.specs.Failing.{ArePrunedBy};
ghost use Rattle.simplex_reader.specs.Pruning.{Counts, CountsIf, prune_behind, repeats};
ghost use Rattle.simplex_reader.specs.Taking as taking;
ghost use Rattle.simplex_reader.specs.Taking.{ruled_if, taking_by, taking_if};

use crate::sections::RuledPrune;
use crate::taking::{is_timer, is_voter};
use model_audit::AuditTook;
use model_rules::Asked;
use simplex_due::{Due, at_deadline, on_answer, on_certificate, on_proposal, on_timeout};
use simplex_known::Known;
use simplex_transcript::StepSource;
use simplex_values::{Answer, Digest, Proposal, Round, View};
use simplex_wire::{Certificate, Scheme};
use std::alloc::AllocError;
use std::slice::from_ref;

/// The prune that the rules make in a step from this source that took this: where the least active view rises, behind the records
/// that they append and the sync of their section. What is known afterwards is what comes of what the rules add.
pub(crate) fn ruled_prune<S: Scheme>(
    known: &mut Known,
    scheme: &S,
    source: StepSource,
    took: &AuditTook,
    asked: Option<&Asked>,
) -> Result<Option<RuledPrune>, AllocError>
    ensures { IfOk result (λ prune. (made : Made) (facts : List Fact) (now : ℕ) → Knows known.old made facts → S.attests scheme.now ≡ made.signs
        → ArePrunedBy (ruled_if made now facts
        (taking_by source took.now (option_map (λ asked. asked.now) asked.entry))) prune) }
{
    let before = known.least_active();
    let records = count_records(known, scheme, source, took, asked)?;
    let after = known.least_active();
    Ok(prune_behind(records, before, after))
}

// The prune where the least active view rises so, behind so many records.
fn prune_behind(records: u64, before: View, after: View) -> Option<RuledPrune>
    requires few { records < 16 }
    ensures { result ≡ prune_behind records before after }
{
    if before.0 < after.0 {
        Some(RuledPrune {
            number: records + syncs_of(records) + 1,
            least: after.0,
        })
    } else {
        None
    }
}

// How many syncs there are behind so many records.
fn syncs_of(records: u64) -> u64
    ensures { result ≡ (if records == 0 then 0 else 1) }
{
    if records == 0 { 0 } else { 1 }
}

// How many records the rules append in the step.
fn count_records<S: Scheme>(
    known: &mut Known,
    scheme: &S,
    source: StepSource,
    took: &AuditTook,
    asked: Option<&Asked>,
) -> Result<u64, AllocError>
    ensures { IfOk result (λ records. Counts known.old known.new (S.attests scheme.now)
        (taking_by source took.now (option_map (λ asked. asked.now) asked.entry)) records) }
{
    match took {
        AuditTook::Timer => count_at_deadline(known, scheme, source),
        AuditTook::Proposal(proposal) => count_on_proposal(known, scheme, source, proposal),
        AuditTook::Timeout(round, _) => count_on_timeout(known, scheme, source, round),
        AuditTook::Certificate(certificate) => {
            count_on_certificate(known, scheme, source, certificate)
        }
        AuditTook::Request(_, answer) => count_on_answer(known, scheme, asked, answer),
        AuditTook::Nothing => Ok(0),
        AuditTook::Packet(_) => Ok(0),
        AuditTook::OtherMail => Ok(0),
        AuditTook::Floor => Ok(0),
    }
}

// At a deadline, where it is the voter's: the nullify of a view that was given up before is not appended again.
fn count_at_deadline<S: Scheme>(
    known: &mut Known,
    scheme: &S,
    source: StepSource,
) -> Result<u64, AllocError>
    ensures { IfOk result (λ records. Counts known.old known.new (S.attests scheme.now)
        (taking_if (taking.is_timer source) Deadline) records) }
{
    if !is_timer(source) {
        return Ok(0);
    }
    let repeated = repeats(known, scheme);
    match at_deadline(known, scheme, &[]) {
        Ok(due) => Ok(count(&due).saturating_sub(repeated)),
        Err(error) => Err(error),
    }
}

// On a proposal of a leader, where it is the voter's mail.
fn count_on_proposal<S: Scheme>(
    known: &mut Known,
    scheme: &S,
    source: StepSource,
    proposal: &Proposal,
) -> Result<u64, AllocError>
    ensures { IfOk result (λ records. Counts known.old known.new (S.attests scheme.now)
        (taking_if (taking.is_voter source) (Mail (mail.Proposal proposal.now))) records) }
{
    if !is_voter(source) {
        return Ok(0);
    }
    match on_proposal(known, scheme, &[], proposal) {
        Ok(due) => Ok(count(&due)),
        Err(error) => Err(error),
    }
}

// On a timeout of a round, whatever its reason, where it is the voter's mail.
fn count_on_timeout<S: Scheme>(
    known: &mut Known,
    scheme: &S,
    source: StepSource,
    round: &Round,
) -> Result<u64, AllocError>
    ensures { IfOk result (λ records. (reason : TimeoutReason) → Counts known.old known.new (S.attests scheme.now)
        (taking_if (taking.is_voter source) (Mail (mail.Timeout round.now reason))) records) }
{
    if !is_voter(source) {
        return Ok(0);
    }
    match on_timeout(known, scheme, &[], round) {
        Ok(due) => Ok(count(&due)),
        Err(error) => Err(error),
    }
}

// On a certificate that verifies, where it is the voter's mail: it is appended where the rules add it.
fn count_on_certificate<S: Scheme>(
    known: &mut Known,
    scheme: &S,
    source: StepSource,
    certificate: &Certificate,
) -> Result<u64, AllocError>
    ensures { IfOk result (λ records. Counts known.old known.new (S.attests scheme.now)
        (taking_if (taking.is_voter source) (Mail (mail.Verified certificate.now))) records) }
{
    if !is_voter(source) {
        return Ok(0);
    }
    if known.adds(certificate) {
        count_added(known, scheme, certificate)
    } else {
        count_left(known, scheme, certificate)
    }
}

// On a certificate that is added.
fn count_added<S: Scheme>(
    known: &mut Known,
    scheme: &S,
    certificate: &Certificate,
) -> Result<u64, AllocError>
    ensures { IfOk result
        (λ records. CountsIf true known.old known.new
        (S.attests scheme.now) certificate.now records) }
{
    match on_certificate(known, scheme, from_ref(certificate), certificate) {
        Ok(due) => Ok(count(&due) + 1),
        Err(error) => Err(error),
    }
}

// On a certificate that is not added.
fn count_left<S: Scheme>(
    known: &mut Known,
    scheme: &S,
    certificate: &Certificate,
) -> Result<u64, AllocError>
    ensures { IfOk result
        (λ records. CountsIf false known.old known.new
        (S.attests scheme.now) certificate.now records) }
{
    match on_certificate(known, scheme, &[], certificate) {
        Ok(due) => Ok(count(&due)),
        Err(error) => Err(error),
    }
}

// On an answer to the request, where there is one: a verdict that is taken is appended.
fn count_on_answer<S: Scheme>(
    known: &mut Known,
    scheme: &S,
    asked: Option<&Asked>,
    answer: &Answer,
) -> Result<u64, AllocError>
    ensures { IfOk result (λ records. Counts known.old known.new (S.attests scheme.now)
        (option_map (reply answer.now) (option_map (λ asked. asked.now) asked.entry)) records) }
{
    match asked {
        None => Ok(0),
        Some(asked) => count_on_reply(known, scheme, asked, answer),
    }
}

// On an answer to this request.
fn count_on_reply<S: Scheme>(
    known: &mut Known,
    scheme: &S,
    asked: &Asked,
    answer: &Answer,
) -> Result<u64, AllocError>
    ensures { IfOk result (λ records. Counts known.old known.new (S.attests scheme.now)
        (Some (Reply asked.now answer.now)) records) }
{
    let taken = verdicts_taken(known, asked, answer);
    match on_answer(known, scheme, &[], asked, answer) {
        Ok(due) => Ok(count(&due) + taken),
        Err(error) => Err(error),
    }
}

// How many verdicts are taken with the answer.
fn verdicts_taken(known: &Known, asked: &Asked, answer: &Answer) -> u64
    ensures taken { Answers known.now
        (λ made facts. length (records_taken made facts (Reply asked.now answer.now))) result }
    ensures few { result ≤ 1 }
{
    match asked {
        Asked::Certify(round, payload) => count_verdict(known, round, payload, answer),
        Asked::Prepare(_) | Asked::Propose(_) | Asked::Verify(_, _) => 0,
    }
}

// And of a verdict on a notarization.
fn count_verdict(known: &Known, round: &Round, payload: &Digest, answer: &Answer) -> u64
    ensures taken { Answers known.now (λ made facts. length
        (records_taken made facts (Reply (asks.Certify round.now payload.now) answer.now))) result }
    ensures few { result ≤ 1 }
{
    match answer {
        Answer::Verdict(_) => {
            if known.takes_verdict(round.view) {
                1
            } else {
                0
            }
        }
        Answer::Payload(_) | Answer::Handoff(_) | Answer::Closed => 0,
    }
}

// How many nullifies of the current view are due that were appended before.
fn repeats<S: Scheme>(known: &Known, scheme: &S) -> u64
    ensures { (made : Made) (facts : List Fact) → Knows known.now made facts
        → S.attests scheme.now ≡ made.signs → result ≡ repeats made facts }
{
    let view = known.current();
    if !known.has_nullified(view) {
        return 0;
    }
    match known.nullify_at(scheme, view) {
        None => 0,
        Some(_) => 1,
    }
}

// How many votes are due.
fn count(due: &Due) -> u64
    ensures due { result ≡ length (votes_in due.now) }
    ensures few { result ≤ 3 }
{
    one_if(due.nullify.is_some()) + one_if(due.notarize.is_some()) + one_if(due.finalize.is_some())
}

fn one_if(test: bool) -> u64
    ensures { result ≡ (if test then 1 else 0) }
{
    if test { 1 } else { 0 }
}
