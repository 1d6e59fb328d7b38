//! Why the program of the ledger ends in a way of its own.
ghost use Rattle.std.specs.Prelude.{◌≡◌, IfOk, string_bytes};
ghost use Rattle.simplex_ledgers.specs.End.{error_status, end_status, error_text, end_text};

use simplex_front::Reason;
use simplex_ledger::LedgerError;
use simplex_text::refusal_text;
use simplex_transcript::Refusal;
use std::alloc::{AllocError, Global};

/// Why the program of the ledger ends in a way of its own.
#[derive(Clone, Copy, Debug, PartialEq, Eq)]
pub enum LedgerEnd {
    /// The run of the events is refused.
    Run(Refusal),
    /// The run is whole, and there is no ledger of it.
    BadLedger(LedgerError),
}

/// The status with which the process ends where there is no ledger.
fn error_status(error: &LedgerError) -> u8
    ensures { result ≡ error_status error.now }
{
    match error {
        LedgerError::BadAccounts => 8,
        LedgerError::Double { .. } => 9,
        LedgerError::BadAnswer { .. } => 10,
        LedgerError::Memory => 7,
    }
}

/// The line on why there is no ledger.
fn error_text(alloc: Global, error: &LedgerError) -> Result<String, AllocError>
    ensures { IfOk result (λ text. string_bytes text ≡ error_text error.now) }
{
    match *error {
        LedgerError::BadAccounts => String::from_str(alloc, "bad accounts\n"),
        LedgerError::Double { second, .. } => format!(in alloc; "double block {second}\n"),
        LedgerError::BadAnswer { event } => format!(in alloc; "bad answer at {event}\n"),
        LedgerError::Memory => String::from_str(alloc, "out of memory\n"),
    }
}

/// The line on such an end.
pub fn end_text(alloc: Global, end: &LedgerEnd) -> Result<String, AllocError>
    ensures { IfOk result (λ text. string_bytes text ≡ end_text end.now) }
{
    match end {
        LedgerEnd::Run(refusal) => refusal_text(alloc, refusal),
        LedgerEnd::BadLedger(error) => error_text(alloc, error),
    }
}

impl Reason for LedgerEnd {
    ghost status_of = { end_status };

    fn status(&self) -> u8 {
        match self {
            LedgerEnd::Run(_) => 1,
            LedgerEnd::BadLedger(error) => error_status(error),
        }
    }
}
