//! Why a run is refused, in words.
ghost use Rattle.std.specs.Prelude.{◌≡◌, IfOk, string_bytes};
ghost use Rattle.simplex_lab.specs.Refusals as refusals;

use simplex_transcript::{Field, RunError};
use std::alloc::{AllocError, Global};

// The limit of an item of a setup.
fn limit_of(field: Field) -> &'static str
    ensures { result.now ≡ refusals.limit_of field }
{
    match field {
        Field::Events => "there may be 2^20 events, and 2^25 events times members",
        Field::Members => "there have to be 1 to 256 members, and with a scenario 1 to 64",
        Field::Faulty => "fewer than a third of the members may be faulty",
        Field::Epoch => "it has to be below 2^64 - 1",
        Field::Term => "it has to be 1 to 2^32",
        Field::Lookahead => "it may be up to 2^32",
        Field::LeaderTimeout => "it has to be 1 to 2^62, and at most the certification timeout",
        Field::CertificationTimeout => "it has to be 1 to 2^62",
        Field::Retry => "it has to be 1 to 2^62",
        Field::Stall => "it has to be null, or above the certification timeout and at most 2^62",
        Field::Retention => "it has to be 1 to 2^32",
        Field::Skip => "its timeout has to be 1 to 2^62",
        Field::Mailbox => "it has to be 1 to 4096",
        Field::FetchTimeout => "it has to be 1 to 2^62",
        Field::FetchRetry => "it may be up to 2^62",
        Field::Scenario =>
            "each leader has to be a member with a bit in one of the masks, and the masks have bits of members alone",
    }
}

// Why an event, or a setup, is refused, in words.
fn reason_of(error: &RunError) -> &'static str
    ensures { result.now ≡ refusals.reason_of error.now }
{
    match error {
        RunError::BadSetup(field) => limit_of(*field),
        RunError::NoMember => "there is no such node",
        RunError::NotRunning => "the node is stopped: it has to start first",
        RunError::NotStopped => "the node runs: it has to crash before it can start again",
        RunError::NoPacket => "no earlier event sent this packet to the node",
        RunError::NotPending =>
            "the request is not open: it was not made, was answered or dropped, or takes another kind of answer",
        RunError::NotFaulty => "only a faulty member sends bytes of its own",
        RunError::ForeignFloor => "no honest member reported this finalization",
        RunError::ClockEnd => "the clock would pass its end",
        RunError::ViewEnd => "the node's view is too near the greatest one",
        RunError::Forged { .. } =>
            "the bytes have an honest member's signature for a vote that it did not send",
        RunError::Failed => "memory ran out before",
        RunError::Memory => "memory ran out",
    }
}

/// The line that says why.
pub(crate) fn reason_line(alloc: Global, error: &RunError) -> Result<String, AllocError>
    ensures { IfOk result (λ text. string_bytes text ≡ refusals.reason_line error.now) }
{
    let reason = reason_of(error);
    format!(in alloc; "why: {reason}\n")
}
