//! Four members in terms of three views, with a lookahead of one: one of them stops before each of its calls, and starts again at
//! what it reported last.
use super::checker::{assert_sound, last_final};
use super::world::{Answers, World, assert_run, stopped};
use crate::events::start;
use simplex_messages::{Outcome, Stop};
use simplex_transcript::{Event, MemberKind, Node, Setup};
use simplex_types::{Keep, View};
use std::alloc::{AllocError, Global};
use std::process::Abort;

const HONEST: [Node; 3] = [
    Node { member: 0, half: 0 },
    Node { member: 1, half: 0 },
    Node { member: 2, half: 0 },
];

/// The member that stops.
const STOPPING: Node = Node { member: 1, half: 0 };

const ANSWERS: Answers = Answers {
    payload: 17,
    last: View(5),
};

/// How many events come before a stop at most, and how many behind it.
const MOST: u64 = 150;

fn setup(alloc: Global) -> Result<Setup, AllocError> {
    let members = vec![in alloc;
        MemberKind::Honest,
        MemberKind::Honest,
        MemberKind::Honest,
        MemberKind::Silent,
    ]?;
    Ok(Setup {
        term: 3,
        lookahead: 1,
        ..Setup::usual(alloc, members)
    })
}

/// The honest members start.
fn started(rt: &impl Abort, alloc: Global) -> World {
    let setup = setup(alloc).expect(rt, "memory");
    let mut world = World::new(rt, alloc, &setup, ANSWERS);
    for node in HONEST {
        let _made = world.make(rt, start(node, None));
    }
    world
}

/// Whether the event is a start or a step of the member that stops.
fn may_stop(event: &Event) -> bool {
    match event {
        Event::Start { node, .. } | Event::Step { node, .. } => *node == STOPPING,
        _ => false,
    }
}

/// The places of the whole run's events that may stop, with how many calls each makes.
fn calls_of(alloc: Global, world: &World) -> Result<Vec<(usize, u64)>, AllocError> {
    let mut calls = Vec::new(alloc);
    for (place, event) in world.happened.iter().enumerate() {
        let made = world
            .entries
            .get(place)
            .map_or(0, |entry| entry.calls.as_slice().len());
        if may_stop(event) && made > 0 && place >= HONEST.len() {
            calls.push((place, made as u64))?;
        }
    }
    Ok(calls)
}

/// The run up to the event at this place, which is made with this stop.
fn until(rt: &impl Abort, alloc: Global, place: usize, stop: Stop) -> World {
    let mut world = started(rt, alloc);
    let mut is_stopped = false;
    for _ in 0..MOST {
        let event = world.next().expect(rt, "an event that waits");
        if world.happened.len() == place && may_stop(&event) {
            is_stopped = world.make(rt, stopped(event, stop));
            break;
        }
        let _made = world.make(rt, event);
    }
    assert!(rt; is_stopped, "the event at {place} is made, and stops");
    world
}

/// The event at this place is made with this stop, and the member starts at what it reported last.
fn stops(rt: &impl Abort, alloc: Global, place: usize, stop: Stop) {
    let case = format!(in alloc; "place {place}, {stop:?}").expect(rt, "memory");
    let mut world = until(rt, alloc, place, stop);
    let broken = world.entries.last().expect(rt, "an entry");
    assert_eq!(rt; broken.outcome, Outcome::Cut, "{case}");
    let floor = match last_final(world.entries.as_slice(), STOPPING) {
        Some(it) => Some(it.keep(alloc).expect(rt, "memory")),
        None => None,
    };
    let starts = world.make(rt, start(STOPPING, floor));
    assert!(rt; starts, "{case}: it starts");
    world.settle(rt, MOST);
    let setup = setup(alloc).expect(rt, "memory");
    assert_sound(rt, alloc, &case, &setup, &HONEST, &world);
    assert_run(rt, alloc, &case, &setup, &world);
}

/// The member stops before each of its calls, and of each section so many pending records are kept.
fn stops_before_each_call(rt: &impl Abort, alloc: Global, keep: u64) {
    let mut whole = started(rt, alloc);
    whole.settle(rt, MOST);
    let setup = setup(alloc).expect(rt, "memory");
    assert_sound(rt, alloc, "a whole run", &setup, &HONEST, &whole);
    assert!(rt; last_final(whole.entries.as_slice(), STOPPING).is_some());
    let places = calls_of(alloc, &whole).expect(rt, "memory");
    drop(whole);
    let mut cases = 0u64;
    for (place, calls) in places {
        for call in 1..=calls {
            stops(rt, alloc, place, Stop::Cut { call, keep });
            cases = cases.saturating_add(1);
        }
    }
    assert!(rt; cases >= 20, "{cases} cases");
}

#[test]
fn one_of_four_stops_and_keeps_nothing(rt: HostRuntime) {
    stops_before_each_call(&rt, rt.alloc(), 0);
}

#[test]
fn one_of_four_stops_and_keeps_a_record(rt: HostRuntime) {
    stops_before_each_call(&rt, rt.alloc(), 1);
}

#[test]
fn one_of_four_stops_and_keeps_two_records(rt: HostRuntime) {
    stops_before_each_call(&rt, rt.alloc(), 2);
}
