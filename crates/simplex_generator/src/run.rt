//! All events that a number makes.
#![tactic(auto, using(crate::proofs::Leading::leads_first, crate::proofs::Leading::leads_all, crate::proofs::Leading::leads_more, crate::proofs::Leading::leads_last))]

ghost use Rattle.std.specs.Prelude.{◌≡◌, IfOk};
ghost use Rattle.simplex_generator.specs.Setup as setups;
ghost use Rattle.simplex_generator.specs.Generated.{generated};

use crate::generator::Generator;
use crate::setup_of;
use simplex_transcript::{Event, RunError, Setup};
use std::alloc::{AllocError, Global};

/// The setup that the number makes, and so many of its events: fewer where the network refuses one, which is the last.
pub fn gen_run(alloc: Global, number: u64, steps: u64) -> Result<(Setup, Vec<Event>), AllocError>
    ensures setup { IfOk result (λ made. made.0 ≡ setups.setup_of number) }
    ensures events { IfOk result (λ made. made.1.items ≡ generated number steps) }
{
    let setup = setup_of(alloc, number)?;
    let events = events_of(alloc, number, &setup, steps)?;
    Ok((setup, events))
}

fn events_of(
    alloc: Global,
    number: u64,
    setup: &Setup,
    steps: u64,
) -> Result<Vec<Event>, AllocError>
    ensures { IfOk result (λ events. setup.now ≡ setups.setup_of number
        → events.items ≡ generated number steps) }
{
    let Ok(mut generator) = Generator::new(alloc, number, setup) else {
        return Err(AllocError);
    };
    let mut events = Vec::new(alloc);
    let mut left = steps;
    while left > 0 {
        let event = generator.next_event()?;
        let made = generator.make(&event);
        events.push(event)?;
        match made {
            Ok(()) => {}
            Err(error) => {
                if matches!(error, RunError::Memory) {
                    return Err(AllocError);
                }
                return Ok(events);
            }
        }
        left -= 1;
    }
    Ok(events)
}
