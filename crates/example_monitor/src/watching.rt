//! Whom the evidence in a run accuses.

ghost use Rattle.std.specs.Prelude.{◌≡◌, List, IfOk, Ok};
ghost use Rattle.simplex.specs.declared.Entry.{Entry};
ghost use Rattle.simplex.specs.Run.{Run};
ghost use Rattle.example_monitor.specs.Accusations.{SparesHonest, accusations_of};

use crate::accusation::{Accusation, accusations_of};
use simplex::laws::runs::transcripts_blame_no_honest_member;
use simplex::{Event, Refusal, Setup, run_network};
use std::alloc::{AllocError, Global};

/// Why there are no accusations.
#[derive(Drop)]
pub enum Ended {
    /// The run is refused.
    Refused(Refusal),
    /// Out of memory.
    Memory,
}

/// Runs the events, and accuses whom the evidence in the run names: exactly these, and whoever is accused is faulty.
pub fn watch(alloc: Global, setup: &Setup, events: &[Event]) -> Result<Vec<Accusation>, Ended>
    ensures exact { IfOk result (λ found. (entries : List Entry)
        × (Run setup.now events.now ≡ Ok entries) × (found.items ≡ accusations_of entries)) }
    ensures faulty { IfOk result (λ found. SparesHonest setup.now found.items) }
{
    let transcript = match run_network(alloc, setup, events) {
        Ok(transcript) => transcript,
        Err(refusal) => return Err(Ended::Refused(refusal)),
    };
    transcripts_blame_no_honest_member();
    match accusations_of(alloc, transcript.entries.as_slice()) {
        Ok(found) => Ok(found),
        Err(AllocError) => Err(Ended::Memory),
    }
}
