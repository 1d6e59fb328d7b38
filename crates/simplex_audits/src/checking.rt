//! The verdict on a record, and its text.
ghost use Rattle.std.specs.Prelude.{◌≡◌, List, ℕ, IfOk, Ok, string_bytes};
ghost use Rattle.simplex_audit_form.specs.declared.document.Document.{Document};
ghost use Rattle.simplex_front.specs.Answer.{IsAnswer};
ghost use Rattle.simplex_audits.specs.Checks.{CheckSays, IsNoDocument, NothingRefused};
ghost use Rattle.simplex_audits.specs.Checks as checks;

use model_audit::{AuditFault, Verdict};
use simplex_audit_form::read_document;
use simplex_front::Answer;
use simplex_judge::audit;
use simplex_transcript::Refusal;
use std::alloc::{AllocError, Global};

// The name of a fault.
fn fault_name(cause: AuditFault) -> &'static str
    ensures { result.now ≡ checks.fault_name cause }
{
    match cause {
        AuditFault::Setup => "Setup",
        AuditFault::Entry => "Entry",
        AuditFault::Condition => "Condition",
        AuditFault::Forged => "Forged",
        AuditFault::Order => "Order",
        AuditFault::Votes => "Votes",
        AuditFault::Conflict => "Conflict",
    }
}

// The line on a fault at an event.
fn fault_line(alloc: Global, name: &str, event: u64) -> Result<String, AllocError>
    ensures { IfOk result (λ text. string_bytes text ≡ checks.fault_line name.now event) }
{
    format!(in alloc; "fault {name} at {event}\n")
}

// The line on a verdict.
fn verdict_text(alloc: Global, verdict: Verdict) -> Result<String, AllocError>
    ensures { IfOk result (λ text. string_bytes text ≡ checks.verdict_text verdict) }
{
    match verdict {
        Verdict::Sound => String::from_str(alloc, "sound\n"),
        Verdict::Fault { event, cause } => fault_line(alloc, fault_name(cause), event),
    }
}

/// The verdict on the record that the bytes say.
pub(crate) fn check(alloc: Global, bytes: &[u8]) -> Result<Answer<Verdict, Refusal>, AllocError>
    ensures { IfOk result (IsAnswer (CheckSays bytes.now) NothingRefused (IsNoDocument bytes.now)) }
{
    match read_document(alloc, bytes)? {
        Err(place) => Ok(Answer::BadInput { place }),
        Ok(document) => {
            let events = document.events.as_slice();
            let verdict = audit(alloc, &document.setup, events, document.entries.as_slice())?;
            let text = verdict_text(alloc, verdict)?;
            Ok(Answer::Done {
                done: verdict,
                text,
            })
        }
    }
}
