//! Runs that a number makes: the same events as the input of a run, of a record and of logs, and one event more.
use simplex_audits::audit_program;
use simplex_generator::gen_run;
use simplex_logs::log_program;
use simplex_program::{Exit, program};
use simplex_run::run_network;
use simplex_transcript::{Event, Node, Ref, RunError, Setup};
use simplex_writer::write_input;
use std::alloc::{AllocError, Global};
use std::process::Abort;
use std::thread::Threads;
use test_support::desk_of;

const NUMBER: u64 = 7;

// The input that has these events.
fn input_of(alloc: Global, setup: &Setup, events: &[Event]) -> Result<Vec<u8>, AllocError> {
    let text = write_input(alloc, setup, events)?;
    text.as_bytes().to_vec(alloc)
}

// How the program ends with these words and this input, and what it writes.
fn ended<R: Abort + Threads + Sync>(
    rt: &R,
    alloc: Global,
    words: &[&str],
    input: Vec<u8>,
) -> (Exit, Vec<u8>) {
    let mut desk = desk_of(alloc, words, &input).expect(rt, "room");
    let exit = program(rt, alloc, &desk.words, &mut desk.source, &mut desk.sink);
    let written = desk.sink.bytes().to_vec(alloc).expect(rt, "room");
    (exit, written)
}

#[test]
fn the_input_that_has_the_events_of_a_number_has_the_same_entries(rt: HostRuntime) {
    let alloc = rt.alloc();
    let (setup, events) = gen_run(alloc, NUMBER, 700).expect(&rt, "room");
    let input = input_of(alloc, &setup, &events).expect(&rt, "room");
    let (made, _summary) = ended(&rt, alloc, &["gen", "7", "700"], Vec::new(alloc));
    let (read, _lines) = ended(&rt, alloc, &["run"], input);
    match (made, read) {
        (Exit::Done(made), Exit::Done(read)) => {
            assert_eq!(rt; made.entries.as_slice().len(), 700);
            assert_eq!(rt; made.entries.as_slice(), read.entries.as_slice());
        }
        _ => {
            assert!(rt; false, "both runs are whole");
        }
    }
}

#[test]
fn a_packet_of_no_event_behind_them_is_refused(rt: HostRuntime) {
    let alloc = rt.alloc();
    let (setup, mut events) = gen_run(alloc, NUMBER, 2000).expect(&rt, "room");
    events
        .push(Event::Deliver {
            node: Node { member: 0, half: 0 },
            packet: Ref {
                event: 9999,
                place: 0,
            },
        })
        .expect(&rt, "room");
    match run_network(alloc, &setup, &events) {
        Ok(_transcript) => {
            assert!(rt; false, "there is no such packet");
        }
        Err(refusal) => {
            assert_eq!(rt; refusal.error, RunError::NoPacket);
            assert_eq!(rt; refusal.event, 2001);
        }
    }
}

// The bytes of the input of 2,000 events.
fn long_input(rt: &impl Abort, alloc: Global) -> Vec<u8> {
    let (setup, events) = gen_run(alloc, NUMBER, 2000).expect(rt, "room");
    input_of(alloc, &setup, &events).expect(rt, "room")
}

// What the program of records writes with this word, and with which status.
fn audited(rt: &impl Abort, alloc: Global, word: &str, input: &[u8]) -> (Vec<u8>, u8) {
    let mut desk = desk_of(alloc, &[word], input).expect(rt, "room");
    let exit = audit_program(alloc, &desk.words, &mut desk.source, &mut desk.sink);
    let written = desk.sink.bytes().to_vec(alloc).expect(rt, "room");
    (written, exit.status())
}

#[test]
fn the_record_of_generated_events_is_sound(rt: HostRuntime) {
    let alloc = rt.alloc();
    let input = long_input(&rt, alloc);
    let (record, _status) = audited(&rt, alloc, "record", &input);
    let (verdict, status) = audited(&rt, alloc, "check", &record);
    assert_eq!(rt; (verdict.as_slice(), status), ("sound\n".as_bytes(), 0));
}

// In these 2,000 events nothing becomes final, so that no node has a log.
#[test]
fn events_that_finalize_nothing_give_no_logs(rt: HostRuntime) {
    let alloc = rt.alloc();
    let input = long_input(&rt, alloc);
    let mut desk = desk_of(alloc, &["logs"], &input).expect(&rt, "room");
    let exit = log_program(alloc, &desk.words, &mut desk.source, &mut desk.sink);
    assert_eq!(rt; (desk.sink.bytes(), exit.status()), ("".as_bytes(), 0));
}
