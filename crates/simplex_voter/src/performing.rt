//! The calls of a planned step are made, up to where the step stops.
ghost use Rattle.std.specs.Prelude.{◌≡◌, ◌-◌, ◌&&◌, nat_lt, nat_le, if◌then◌else◌, IfOk, OnOk, IsErrOf, take, Some, None};
ghost use Rattle.simplex_journal.specs.Order.{Order, no_order};
ghost use Rattle.simplex_messages.specs.Step.{no_out};
ghost use Rattle.model_steps.specs.Performed.{after_call};
ghost use Rattle.simplex_journal.specs.Faults.{Counts};
ghost use Rattle.simplex_messages.specs.declared.step.Outcome.TheVariants as outcomes;
ghost use Rattle.std.specs.Option.{option_map};
ghost use Rattle.simplex_voter.specs.Performing.{Heeds, FailsPart, Ran, Reached, FaultsBy, Passed, BrokeOver, Made, MadeOver, FaultsWith, Settled, SettledOver};
ghost use Rattle.simplex_voter.specs.Turned.{FaultsAt};

use simplex_journal::{Journal, JournalError};
use simplex_messages::{Call, Outcome, StepOut, Stop};
use simplex_types::Sequence;
use std::alloc::{AllocError, Global};

/// Where the calls of a step ended, and why.
#[derive(Clone, Copy, Debug, PartialEq, Eq)]
pub(crate) struct Break {
    // how many calls were made
    pub(crate) place: usize,
    pub(crate) outcome: Outcome,
}

// The call is made, as far as it is one of the journal.
fn make_call<J: Journal>(journal: &mut J, alloc: Global, call: &Call) -> Result<(), JournalError>
    ensures ok { OnOk result (J.sections journal.new
        ≡ after_call call.now (J.sections journal.old)) }
    ensures part { IsErrOf result JournalError.Failed
        → FailsPart (J.order journal.old) call.now (J.sections journal.old)
        (J.sections journal.new) }
    ensures ordered { Heeds (J.order journal.old) call.now result (J.order journal.new) }
    ensures faults { Counts (J.fault_count journal.old) result (J.fault_count journal.new) }
{
    match call {
        Call::Append(section, artifact) => journal.append(alloc, *section, artifact)?,
        Call::Sync(section) => journal.sync(*section)?,
        Call::Prune(least) => journal.prune(*least)?,
        _ => {}
    }
    Ok(())
}

// Makes the calls in order, up to the first that fails; the place of that one.
fn make_calls<J: Journal>(
    journal: &mut J,
    alloc: Global,
    calls: &[Call],
) -> Result<Option<usize>, AllocError>
    ensures told { IfOk result (λ failed. (order : Order) → J.order journal.old ≡ Some order
        → Ran order calls.now (J.sections journal.old) failed (J.sections journal.new)
        (J.order journal.new)) }
    ensures over { IfOk result
        (λ failed. Reached calls.now (J.sections journal.old) failed (J.sections journal.new)) }
    ensures faults { IfOk result
        (λ failed. FaultsBy failed (J.fault_count journal.old) (J.fault_count journal.new)) }
{
    for (place, call) in calls.iter().enumerate() {
        match make_call(journal, alloc, call) {
            Ok(()) => {}
            Err(JournalError::Failed) => return Ok(Some(place)),
            Err(JournalError::Memory) => return Err(AllocError),
        }
    }
    Ok(None)
}

// A call of the journal at this place failed, if one did. [calls-before-the-stop]
fn broken_off(failed: Option<usize>) -> Option<Break>
    ensures { result ≡ option_map
        (λ place. record { place = place; outcome = outcomes.Journal }) failed }
{
    match failed {
        None => None,
        Some(place) => Some(Break {
            place,
            outcome: Outcome::Journal,
        }),
    }
}

// Makes the calls in order, up to the first that fails by itself: the pending records stand.
fn make_all<J: Journal>(
    journal: &mut J,
    alloc: Global,
    calls: &[Call],
) -> Result<Option<Break>, AllocError>
    ensures told { IfOk result (λ broke. J.order journal.old ≡ Some no_order
        → Passed calls.now (J.sections journal.old) broke (J.sections journal.new)
        (J.order journal.new)) }
    ensures over { IfOk result
        (λ broke. BrokeOver calls.now (J.sections journal.old) broke (J.sections journal.new)) }
    ensures faults { IfOk result
        (λ broke. FaultsWith broke (J.fault_count journal.old) (J.fault_count journal.new)) }
{
    let failed = make_calls(journal, alloc, calls)?;
    Ok(broken_off(failed))
}

// The place of the call that a cut names, counted from 0.
fn cut_place(call: u64, count: usize) -> Option<usize>
    ensures { result ≡ (if nat_lt 0 call && nat_le call count then Some (call - 1) else None) }
{
    if 0 < call && call <= count as u64 {
        return Some((call - 1) as usize);
    }
    None
}

// Makes the calls before the one that the cut names.
fn make_until<J: Journal>(
    journal: &mut J,
    alloc: Global,
    calls: &[Call],
    call: u64,
    keep: u64,
) -> Result<Option<Break>, AllocError>
    ensures told { IfOk result (λ broke. J.order journal.old ≡ Some no_order
        → Made (Stop.Cut call keep) calls.now (J.sections journal.old) broke
        (J.sections journal.new) (J.order journal.new)) }
    ensures over { IfOk result (λ broke. MadeOver (Stop.Cut call keep) calls.now
        (J.sections journal.old) broke (J.sections journal.new)) }
    ensures faults { IfOk result
        (λ broke. FaultsWith broke (J.fault_count journal.old) (J.fault_count journal.new)) }
{
    let Some(place) = cut_place(call, calls.len()) else {
        let broke = make_all(journal, alloc, calls)?;
        return Ok(broke);
    };
    let broke = make_all(journal, alloc, &calls[..place])?;
    if broke.is_some() {
        return Ok(broke);
    }
    journal.crash(keep);
    Ok(Some(Break {
        place,
        outcome: Outcome::Cut,
    }))
}

// Makes the calls, of which the journal's call of this number fails: then so many pending records of each section are
// kept.
fn make_failing<J: Journal>(
    journal: &mut J,
    alloc: Global,
    calls: &[Call],
    call: u64,
    keep: u64,
) -> Result<Option<Break>, AllocError>
    ensures told { IfOk result (λ broke. J.order journal.old ≡ Some no_order
        → Made (Stop.Fail call keep) calls.now (J.sections journal.old) broke
        (J.sections journal.new) (J.order journal.new)) }
    ensures over { IfOk result (λ broke. MadeOver (Stop.Fail call keep) calls.now
        (J.sections journal.old) broke (J.sections journal.new)) }
    ensures faults { IfOk result
        (λ broke. FaultsWith broke (J.fault_count journal.old) (J.fault_count journal.new)) }
{
    journal.fail_next(call, keep);
    let failed = make_calls(journal, alloc, calls)?;
    if failed.is_some() {
        journal.crash(keep);
    }
    journal.fail_next(0, 0);
    Ok(broken_off(failed))
}

// Makes the calls up to where the stop ends them: the journal is then as after a stop.
fn perform<J: Journal>(
    journal: &mut J,
    alloc: Global,
    calls: &[Call],
    stop: &Stop,
) -> Result<Option<Break>, AllocError>
    ensures told { IfOk result (λ broke. J.order journal.old ≡ Some no_order → Made stop.now calls.now
        (J.sections journal.old) broke (J.sections journal.new) (J.order journal.new)) }
    ensures over { IfOk result
        (λ broke. MadeOver stop.now calls.now (J.sections journal.old) broke
        (J.sections journal.new)) }
    ensures faults { IfOk result
        (λ broke. FaultsWith broke (J.fault_count journal.old) (J.fault_count journal.new)) }
{
    match stop {
        Stop::None => {
            let broke = make_all(journal, alloc, calls)?;
            Ok(broke)
        }
        Stop::Cut { call, keep } => {
            let broke = make_until(journal, alloc, calls, *call, *keep)?;
            Ok(broke)
        }
        Stop::Fail { call, keep } => {
            let broke = make_failing(journal, alloc, calls, *call, *keep)?;
            Ok(broke)
        }
    }
}

// Of what was planned, the calls that were made are listed.
fn list_made(out: &mut StepOut, planned: StepOut, count: usize)
    ensures { out.new ≡ record out.old { calls = take count planned.calls } }
{
    let mut calls = planned.calls.into_vec();
    calls.truncate(count);
    out.calls = Sequence::from_vec(calls);
}

/// Performs what was planned, up to where the stop ends it, and lists what was done. [stops-by-the-journal]
pub(crate) fn settle<J: Journal>(
    journal: &mut J,
    alloc: Global,
    planned: StepOut,
    stop: &Stop,
    out: &mut StepOut,
) -> Result<Outcome, AllocError>
    requires empty { out.old ≡ no_out }
    ensures told { IfOk result (λ outcome. J.order journal.old ≡ Some no_order → Settled stop.now planned
        (J.sections journal.old) outcome out.new (J.sections journal.new) (J.order journal.new)) }
    ensures over { IfOk result (λ outcome. SettledOver stop.now planned
        (J.sections journal.old) outcome out.new (J.sections journal.new)) }
    ensures faults { IfOk result
        (λ outcome. FaultsAt outcome (J.fault_count journal.old) (J.fault_count journal.new)) }
{
    match perform(journal, alloc, planned.calls.as_slice(), stop)? {
        None => {
            *out = planned;
            Ok(Outcome::Done)
        }
        Some(broke) => {
            list_made(out, planned, broke.place);
            Ok(broke.outcome)
        }
    }
}
