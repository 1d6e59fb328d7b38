//! An application of one's own: of four members, of whom one is silent, three run it, and what becomes final is printed.
#![tactic(auto)]

ghost use Rattle.std.specs.Prelude.{IfOk};
ghost use Rattle.simplex.specs.Safe.{RunsSafely};
ghost use Rattle.simplex.specs.Setting.{at_epoch_genesis};

mod application;
mod world;

use crate::application::Application;
use crate::world::World;
use anyhow::{Result, bail};
use simplex::actors::Call;
use simplex::types::{Activity, Digest, View};
use simplex::{Entry, Event, MemberKind, Refusal, RunError, Setup, Transcript, run_network};
use std::alloc::{AllocError, Global};
use std::io;
use std::io::Print;

/// How many events happen at most.
const MOST: u64 = 200;

/// The members that are honest.
const HONEST: [u64; 3] = [0, 1, 2];

/// Four members, with terms of one view. Times are in milliseconds.
fn setup(alloc: Global) -> Result<Setup, AllocError> {
    let members = vec![in alloc;
        MemberKind::Honest,
        MemberKind::Honest,
        MemberKind::Honest,
        MemberKind::Silent,
    ]?;
    Ok(Setup::usual(alloc, members))
}

/// What happens where each packet arrives and the application answers each request: it proposes a payload of the view's number,
/// finds each payload valid that is not 0, and lets each become final.
fn happen(alloc: Global, setup: &Setup) -> Result<World, RunError> {
    let application = Application {
        propose: |view: View| Digest([(view.0 % 256) as u8; 32]),
        verify: |payload: &Digest| payload.0[0] != 0,
        certify: |_: &Digest| true,
    };
    let mut world = World::new(alloc, setup, &HONEST)?;
    world.go(&application, MOST)?;
    Ok(world)
}

/// Runs what happened. Whatever the application answered, no two certificates of the run conflict, and each vote was stored
/// before it went out.
fn run(alloc: Global, setup: &Setup, events: &[Event]) -> Result<Transcript, Refusal>
    ensures { IfOk result (λ _. RunsSafely (at_epoch_genesis setup.now) events.now) }
{
    run_network(alloc, setup, events)
}

/// Prints what became final in the event.
fn tell(rt: &impl Print, entry: &Entry) -> io::Result<()> {
    for call in entry.calls.as_slice() {
        if let Call::Report(Activity::Finalization(it)) = call {
            let event = entry.event;
            let view = it.proposal.round.view;
            let payload = it.proposal.payload.0[0];
            println!(rt; "event {event}: view {view} is final, with payload {payload}")?;
        }
    }
    Ok(())
}

fn main(rt: HostRuntime) -> Result<()> {
    let setup = setup(rt.alloc())?;
    let Ok(world) = happen(rt.alloc(), &setup) else {
        bail!("there is no such network");
    };
    match run(rt.alloc(), &setup, world.events()) {
        Ok(transcript) => {
            for entry in transcript.entries.as_slice() {
                tell(&rt, entry)?;
            }
            Ok(())
        }
        Err(refusal) => bail!("refused at event {}", refusal.event),
    }
}
