//! Accusations: what evidence says of a member.
ghost use Rattle.std.specs.Prelude.{◌≡◌, ◌++◌, filter_map, IfOk, OnOk};
ghost use Rattle.example_monitor.specs.Accusations.{accusation_by, accusations_of, named_by};

use simplex::Entry;
use simplex::actors::Call;
use simplex::types::{Activity, Participant};
use std::alloc::{AllocError, Global};

/// A member that evidence names, and the event in which a node reported it.
#[derive(Clone, Copy)]
pub struct Accusation {
    /// The event's number.
    pub event: u64,
    /// The member.
    pub member: Participant,
}

/// The member that evidence names.
fn named_by(activity: &Activity) -> Option<Participant>
    ensures { result ≡ named_by activity.now }
{
    match activity {
        Activity::ConflictingNotarize(it) => Some(it.first.attestation.signer),
        Activity::ConflictingFinalize(it) => Some(it.first.attestation.signer),
        Activity::NullifyFinalize(it) => Some(it.finalize.attestation.signer),
        _ => None,
    }
}

/// What the call accuses a member of, where it reports evidence in this event.
fn accusation_by(event: u64, call: &Call) -> Option<Accusation>
    ensures { result ≡ accusation_by event call.now }
{
    match call {
        Call::Report(activity) => match named_by(activity) {
            Some(member) => Some(Accusation { event, member }),
            None => None,
        },
        _ => None,
    }
}

/// Adds what the entry's calls accuse members of.
fn accuse(found: &mut Vec<Accusation>, entry: &Entry) -> Result<(), AllocError>
    ensures { OnOk result (found.new.items
        ≡ found.old.items ++ filter_map (accusation_by entry.now.event) entry.now.calls) }
{
    for call in entry.calls.as_slice() {
        if let Some(accusation) = accusation_by(entry.event, call) {
            found.push(accusation)?;
        }
    }
    Ok(())
}

/// The accusations of these entries, in order.
pub fn accusations_of(alloc: Global, entries: &[Entry]) -> Result<Vec<Accusation>, AllocError>
    ensures { IfOk result (λ found. found.items ≡ accusations_of entries.now) }
{
    let mut found = Vec::new(alloc);
    for entry in entries {
        accuse(&mut found, entry)?;
    }
    Ok(found)
}
