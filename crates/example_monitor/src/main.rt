//! A monitor: runs an input, and prints which members the evidence in it accuses. Whoever is accused is faulty, whatever the
//! events are.
#![tactic(auto)]

mod accusation;
mod watching;

use crate::watching::{Ended, watch};
use anyhow::{Result, bail};
use simplex::form::read_run;
use simplex::io::{ReaderSource, read_bytes};
use std::io::Print;

fn main(rt: HostRuntime) -> Result<()> {
    let alloc = rt.alloc();
    let mut source = ReaderSource::new(alloc, rt.reader());
    let Ok(bytes) = read_bytes(alloc, &mut source) else {
        bail!("there is no input");
    };
    let Ok(input) = read_run(alloc, &bytes) else {
        bail!("the input is not of the form");
    };
    match watch(alloc, &input.setup, input.events.as_slice()) {
        Ok(found) => {
            for accusation in found.as_slice() {
                let event = accusation.event;
                let member = accusation.member.0;
                println!(rt; "event {event}: member {member} is faulty")?;
            }
            Ok(())
        }
        Err(Ended::Refused(refusal)) => bail!("refused at event {}", refusal.event),
        Err(Ended::Memory) => bail!("out of memory"),
    }
}
