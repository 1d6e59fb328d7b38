//! What came before the event that a run refuses.
ghost use Rattle.std.specs.Prelude.{◌≡◌, ◌-◌, IfOk, option_map, take};
ghost use Rattle.simplex_lab.specs.Prefix.{entries_of};

use simplex_run::{Transcript, run_network};
use simplex_transcript::{Event, RunError, Setup};
use std::alloc::{AllocError, Global};

/// The events before the one of this number, which is counted from 1; all, where there are not so many.
pub(crate) fn events_before(events: &[Event], number: u64) -> &[Event]
    ensures { result.now ≡ take (number - 1) events.now }
{
    let before = events.len().min(number.saturating_sub(1) as usize);
    &events[..before]
}

/// The run of the events, if it is whole.
#[tactic(auto, unfolding(crate::specs::Prefix::entries_of))]
pub(crate) fn whole_run(
    alloc: Global,
    setup: &Setup,
    events: &[Event],
) -> Result<Option<Transcript>, AllocError>
    ensures { IfOk result (λ whole. option_map (λ transcript. transcript.entries) whole
        ≡ entries_of setup.now events.now) }
{
    match run_network(alloc, setup, events) {
        Ok(transcript) => Ok(Some(transcript)),
        Err(refusal) => {
            if matches!(refusal.error, RunError::Memory) {
                return Err(AllocError);
            }
            Ok(None)
        }
    }
}
