//! Uses the library from a program: of four members, of whom one is silent, three agree on a proposal, and what became final
//! is printed.
#![tactic(auto)]

ghost use Rattle.std.specs.Prelude.{IfOk};
ghost use Rattle.simplex.specs.Safe.{RunsSafely};
ghost use Rattle.simplex.specs.Setting.{at_epoch_genesis};

mod script;

use crate::script::Script;
use anyhow::{Result, bail};
use simplex::actors::Call;
use simplex::types::{Activity, Answer, Digest};
use simplex::{Entry, Event, MemberKind, Refusal, Setup, StepSource, Transcript, run_network};
use std::alloc::{AllocError, Global};
use std::io;
use std::io::Print;

/// The member that leads view 1.
const LEADER: u64 = 1;

/// The others that are honest.
const FOLLOWERS: [u64; 2] = [0, 2];

/// What the leader's application proposes.
const PAYLOAD: Digest = Digest([17; 32]);

/// Four members, with terms of one view. Times are in milliseconds.
fn setup(alloc: Global) -> Result<Setup, AllocError> {
    let members = vec![in alloc;
        MemberKind::Honest,
        MemberKind::Honest,
        MemberKind::Honest,
        MemberKind::Silent,
    ]?;
    Ok(Setup::usual(alloc, members))
}

/// The leader's application proposes, and the leader sends its vote in the event that is answered.
fn propose(script: &mut Script) -> Result<u64, AllocError> {
    let asked = script.start(LEADER)?;
    script.answer(LEADER, asked, Answer::Payload(PAYLOAD))?;
    script.step(LEADER, StepSource::Propose)
}

/// The member hears of the proposal, its application finds it valid, and it votes in the event that is answered.
fn verify(script: &mut Script, member: u64, proposal: u64) -> Result<u64, AllocError> {
    script.start(member)?;
    script.step(member, StepSource::Batcher)?;
    script.deliver(member, proposal)?;
    let asked = script.step(member, StepSource::Voter)?;
    script.answer(member, asked, Answer::Verdict(true))?;
    script.step(member, StepSource::Verify)
}

/// The member, which took a notarization in this event, certifies it, and votes that it is final in the event that is
/// answered.
fn certify(script: &mut Script, member: u64, notarized: u64) -> Result<u64, AllocError> {
    script.answer(member, notarized, Answer::Verdict(true))?;
    script.step(member, StepSource::Certify)
}

/// The member hears of the notarization that went out in this event, and does the same.
fn learn(script: &mut Script, member: u64, notarized: u64) -> Result<u64, AllocError> {
    script.deliver(member, notarized)?;
    let learned = script.step(member, StepSource::Voter)?;
    certify(script, member, learned)
}

/// The leader takes its own vote, and those of the others that went out in these events, and then what comes of them.
fn collect(script: &mut Script, votes: [u64; 2]) -> Result<u64, AllocError> {
    script.step(LEADER, StepSource::Batcher)?;
    script.step(LEADER, StepSource::Batcher)?;
    for vote in votes {
        script.deliver(LEADER, vote)?;
    }
    script.step(LEADER, StepSource::Voter)
}

/// View 1, from its proposal to its finalization.
fn agree(alloc: Global) -> Result<Script, AllocError> {
    let mut script = Script::new(alloc);
    let proposal = propose(&mut script)?;
    let [first, second] = FOLLOWERS;
    let notarizes = [
        verify(&mut script, first, proposal)?,
        verify(&mut script, second, proposal)?,
    ];
    let notarized = collect(&mut script, notarizes)?;
    certify(&mut script, LEADER, notarized)?;
    let finalizes = [
        learn(&mut script, first, notarized)?,
        learn(&mut script, second, notarized)?,
    ];
    collect(&mut script, finalizes)?;
    Ok(script)
}

/// Runs the events. Whatever they are, no two certificates of the run conflict, and each vote was stored before it went out.
fn run(alloc: Global, setup: &Setup, events: &[Event]) -> Result<Transcript, Refusal>
    ensures { IfOk result (λ _. RunsSafely (at_epoch_genesis setup.now) events.now) }
{
    run_network(alloc, setup, events)
}

/// Prints what became final in the event.
fn tell(rt: &impl Print, entry: &Entry) -> io::Result<()> {
    for call in entry.calls.as_slice() {
        if let Call::Report(Activity::Finalization(it)) = call {
            let event = entry.event;
            let view = it.proposal.round.view;
            let signers = it.certificate.as_slice().len();
            println!(rt; "event {event}: view {view} is final, with {signers} signatures")?;
        }
    }
    Ok(())
}

fn main(rt: HostRuntime) -> Result<()> {
    let setup = setup(rt.alloc())?;
    let script = agree(rt.alloc())?;
    match run(rt.alloc(), &setup, script.events()) {
        Ok(transcript) => {
            for entry in transcript.entries.as_slice() {
                tell(&rt, entry)?;
            }
            Ok(())
        }
        Err(refusal) => bail!("refused at event {}", refusal.event),
    }
}
