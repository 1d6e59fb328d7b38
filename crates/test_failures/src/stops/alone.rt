//! A member alone: a view's list of ten events, stopped before each of its nineteen calls, with each of its ten journal calls
//! failing, and started again.
use super::checker::{assert_sound, last_final};
use super::world::{Answers, World, assert_run, stopped};
use crate::events::{answer, start, step};
use simplex_messages::{Outcome, Stop};
use simplex_transcript::{Event, MemberKind, Node, Setup, StepSource};
use simplex_types::{Answer, Digest, View};
use std::alloc::{AllocError, Global};
use std::process::Abort;

const NODE: Node = Node { member: 0, half: 0 };

/// Behind the stop the application proposes payload 22, and requests of view 3 stay open.
const ANSWERS: Answers = Answers {
    payload: 22,
    last: View(2),
};

fn setup(alloc: Global) -> Result<Setup, AllocError> {
    let members = vec![in alloc; MemberKind::Honest]?;
    Ok(Setup::usual(alloc, members))
}

/// The view's events: event 1 asks for a proposal, and event 6 for a certification.
fn view(alloc: Global) -> Result<Vec<Event>, AllocError> {
    let events = vec![in alloc;
        start(NODE, None),
        answer(NODE, 1, Answer::Payload(Digest([17; 32]))),
        step(NODE, StepSource::Propose),
        step(NODE, StepSource::Batcher),
        step(NODE, StepSource::Batcher),
        step(NODE, StepSource::Voter),
        answer(NODE, 6, Answer::Verdict(true)),
        step(NODE, StepSource::Certify),
        step(NODE, StepSource::Batcher),
        step(NODE, StepSource::Voter),
    ]?;
    Ok(events)
}

/// The events that call outside, counted from 1, with how many calls each makes.
const CALLS: [(u64, u64); 6] = [(3, 4), (5, 1), (6, 4), (8, 5), (9, 1), (10, 4)];

/// The events that call the journal, with how often.
const JOURNAL_CALLS: [(u64, u64); 5] = [(1, 1), (3, 2), (6, 2), (8, 3), (10, 2)];

const SOURCES: [StepSource; 9] = [
    StepSource::Batcher,
    StepSource::Voter,
    StepSource::Timer,
    StepSource::Propose,
    StepSource::Verify,
    StepSource::Certify,
    StepSource::Resolver,
    StepSource::Handler,
    StepSource::Fetch,
];

/// The view up to the event of this number, which is made with this stop.
fn until(rt: &impl Abort, alloc: Global, number: u64, stop: Stop) -> World {
    let setup = setup(alloc).expect(rt, "memory");
    let events = view(alloc).expect(rt, "memory");
    let mut world = World::new(rt, alloc, &setup, ANSWERS);
    for (place, event) in (1u64..).zip(events) {
        if place > number {
            break;
        }
        let event = if place == number {
            stopped(event, stop)
        } else {
            event
        };
        let is_made = world.make(rt, event);
        assert!(rt; is_made, "event {place} is made");
    }
    world.forget(alloc);
    world
}

/// The member starts at genesis, is answered, and steps until it is idle.
fn starts_again(rt: &impl Abort, world: &mut World, case: &str) {
    let starts = world.make(rt, start(NODE, None));
    assert!(rt; starts, "{case}: it starts");
    world.settle(rt, 200);
    for source in SOURCES {
        let steps = world.make(rt, step(NODE, source));
        assert!(rt; steps, "{case}: it steps");
        let last = world.entries.last().expect(rt, "an entry");
        assert!(rt; last.outcome == Outcome::Idle, "{case}: {source:?} is idle");
    }
}

/// What stands at the end is sound, and is the run of the events. Whether view 2 is final; else none is: the member has its
/// notarize of view 1 in the journal, did not send it, and waits for the view's end.
fn assert_end(rt: &impl Abort, alloc: Global, world: &World, case: &str) -> bool {
    let setup = setup(alloc).expect(rt, "memory");
    assert_sound(rt, alloc, case, &setup, &[NODE], world);
    let last = last_final(world.entries.as_slice(), NODE).map(|it| it.proposal.round.view);
    assert!(rt; last.is_none() || last == Some(View(2)), "{case}: {last:?}");
    assert_run(rt, alloc, case, &setup, world);
    last.is_some()
}

/// The event of this number is made with this stop, which ends it so, and the member starts again. Whether view 2 is final then.
fn stops(rt: &impl Abort, alloc: Global, number: u64, stop: Stop, wanted: Outcome) -> bool {
    let case = format!(in alloc; "event {number}, {stop:?}").expect(rt, "memory");
    let mut world = until(rt, alloc, number, stop);
    let broken = world.entries.last().expect(rt, "an entry");
    assert_eq!(rt; broken.outcome, wanted, "{case}");
    starts_again(rt, &mut world, &case);
    assert_end(rt, alloc, &world, &case)
}

fn count(cases: &mut u64, finals: &mut u64, is_final: bool) {
    *cases = cases.saturating_add(1);
    if is_final {
        *finals = finals.saturating_add(1);
    }
}

#[test]
fn a_stop_before_each_call(rt: HostRuntime) {
    let alloc = rt.alloc();
    let (mut cases, mut finals) = (0u64, 0u64);
    for (number, calls) in CALLS {
        for call in 1..=calls {
            for keep in 0..=2u64 {
                let stop = Stop::Cut { call, keep };
                let is_final = stops(&rt, alloc, number, stop, Outcome::Cut);
                count(&mut cases, &mut finals, is_final);
            }
        }
    }
    assert_eq!(rt; (cases, finals), (57, 45));
}

#[test]
fn each_call_of_the_journal_fails(rt: HostRuntime) {
    let alloc = rt.alloc();
    let (mut cases, mut finals) = (0u64, 0u64);
    for (number, calls) in JOURNAL_CALLS {
        for call in 1..=calls {
            for keep in 0..=2u64 {
                let stop = Stop::Fail { call, keep };
                let is_final = stops(&rt, alloc, number, stop, Outcome::Journal);
                count(&mut cases, &mut finals, is_final);
            }
        }
    }
    assert_eq!(rt; (cases, finals), (30, 24));
}
