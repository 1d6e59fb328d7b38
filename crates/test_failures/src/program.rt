//! Reads and writes of the program that fail in turn, before a run and in a whole one, and an input that is too long.
use simplex_io::{MemorySink, MemorySource};
use simplex_program::{Exit, LIMIT, program};
use std::alloc::Global;
use std::fmt::Debug;
use std::process::Abort;
use std::thread::Threads;
use test_support::words_of;

const USAGE: &str = "usage: run | par WORKERS | gen NUMBER STEPS\n";

// A member alone proposes, notarizes, certifies and finalizes.
const FINALIZES: &str =
    r#"{"setup":{"epoch":0,"key_base":1,"members":["honest"],"term":1,"lookahead":0,"leader_timeout":1000,"certification_timeout":2000,"retry":500,"stall":null,"retention":10,"skip":null,"forward":"disabled","mailbox":16,"track":false,"handoff":false,"fetch_timeout":1000,"fetch_retry":100,"scenario":[]},"events":[{"do":"start","node":[0,0],"floor":null,"stop":null},{"do":"answer","node":[0,0],"request":[1,0],"answer":{"payload":"1111111111111111111111111111111111111111111111111111111111111111"}},{"do":"step","node":[0,0],"source":"propose","stop":null},{"do":"step","node":[0,0],"source":"batcher","stop":null},{"do":"step","node":[0,0],"source":"batcher","stop":null},{"do":"step","node":[0,0],"source":"voter","stop":null},{"do":"answer","node":[0,0],"request":[6,0],"answer":{"verdict":true}},{"do":"step","node":[0,0],"source":"certify","stop":null},{"do":"step","node":[0,0],"source":"batcher","stop":null},{"do":"step","node":[0,0],"source":"voter","stop":null}]}"#;

const FINALIZED: &str =
    "event 10 node 0.0 finalized 1 1111111111111111111111111111111111111111111111111111111111111111\n";

// What is written of it, in pieces of 16 bytes, where the second write fails, the third, and so on.
const PIECES: [&str; 5] = [
    "event 10 node 0.",
    "event 10 node 0.0 finalized 1 11",
    "event 10 node 0.0 finalized 1 111111111111111111",
    "event 10 node 0.0 finalized 1 1111111111111111111111111111111111",
    "event 10 node 0.0 finalized 1 11111111111111111111111111111111111111111111111111",
];

// So many spaces.
fn spaces(rt: &impl Abort, alloc: Global, n: u32) -> Vec<u8> {
    vec![in alloc; 32u8; n as usize].expect(rt, "room")
}

// Which read and which write fails, counted from 1; 0 is none.
#[derive(Clone, Copy)]
struct Failing {
    read: u64,
    write: u64,
}

fn one(rt: &impl Abort, alloc: Global, number: u64) -> Vec<u64> {
    vec![in alloc; number].expect(rt, "room")
}

// The test ends here where the two differ, and says in which case.
fn same<T: PartialEq + Debug>(rt: &impl Abort, case: &str, got: &T, wanted: &T) {
    assert_eq!(rt; got, wanted, "{case}");
}

// The status with which the program ends.
fn status<R: Threads + Sync>(
    rt: &R,
    alloc: Global,
    words: &[String],
    source: &mut MemorySource,
    sink: &mut MemorySink,
) -> u8 {
    let exit = program(rt, alloc, words, source, sink);
    exit.status()
}

// The program writes this and ends with this status, where such calls fail. The case says which it is.
fn assert_ends<R: Abort + Threads + Sync>(
    rt: &R,
    alloc: Global,
    case: &str,
    words: &[&str],
    input: Vec<u8>,
    failing: Failing,
    (text, wanted): (&str, u8),
) {
    let words = words_of(alloc, words).expect(rt, "room");
    let mut source = MemorySource::new(input, one(rt, alloc, failing.read));
    let mut sink = MemorySink::new(alloc, one(rt, alloc, failing.write));
    let status = status(rt, alloc, &words, &mut source, &mut sink);
    let wanted = (text.as_bytes(), wanted);
    same(rt, case, &(sink.bytes(), status), &wanted);
}

// Where the words are not taken, or make the events, no read is made that could fail.
#[test]
fn other_words_and_a_number_read_nothing(rt: HostRuntime) {
    let alloc = rt.alloc();
    let table: [(&[&str], &str, u8); 5] = [
        (&[], USAGE, 2),
        (&["walk"], USAGE, 2),
        (&["par", "0"], USAGE, 2),
        (&["gen", "07", "3"], USAGE, 2),
        (
            &["gen", "7", "3"],
            "events 3 finalized 0 greatest 0 evidence 0 stops 0\n",
            0,
        ),
    ];
    for (words, text, status) in table {
        let failing = Failing { read: 1, write: 0 };
        let input = spaces(&rt, alloc, 9);
        assert_ends(&rt, alloc, text, words, input, failing, (text, status));
    }
}

#[test]
fn one_byte_more_than_the_limit_is_too_long(rt: HostRuntime) {
    let alloc = rt.alloc();
    let input = spaces(&rt, alloc, LIMIT + 1);
    let nothing = Failing { read: 0, write: 0 };
    let wanted = ("input too long\n", 4);
    assert_ends(&rt, alloc, "spaces", &["run"], input, nothing, wanted);
}

#[test]
fn want_of_memory_is_told_by_the_status(rt: HostRuntime) {
    same(&rt, "memory", &Exit::Memory.status(), &7);
}

// Ten thousand bytes come in reads of 4,096, 4,096, 1,808 and none; a fifth is not made.
#[test]
fn a_read_that_fails_is_told_by_the_status_alone(rt: HostRuntime) {
    let alloc = rt.alloc();
    for (case, read, text, status) in [
        ("read 1 fails", 1, "", 5),
        ("read 2 fails", 2, "", 5),
        ("read 3 fails", 3, "", 5),
        ("read 4 fails", 4, "", 5),
        ("read 5 fails", 5, "bad input at 0\n", 3),
    ] {
        let input = spaces(&rt, alloc, 10_000);
        let failing = Failing { read, write: 0 };
        assert_ends(&rt, alloc, case, &["run"], input, failing, (text, status));
    }
}

// The usage is 44 bytes, which are written in pieces of 16, 16 and 12; a fourth is not written.
#[test]
fn behind_a_write_that_fails_nothing_is_written(rt: HostRuntime) {
    let alloc = rt.alloc();
    for (case, write, text, status) in [
        ("write 1 fails", 1, "", 6),
        ("write 2 fails", 2, "usage: run | par", 6),
        ("write 3 fails", 3, "usage: run | par WORKERS | gen N", 6),
        ("write 4 fails", 4, USAGE, 2),
    ] {
        let failing = Failing { read: 0, write };
        let input = Vec::new(alloc);
        let wanted = (text, status);
        assert_ends(&rt, alloc, case, &["walk"], input, failing, wanted);
    }
}

// The input comes in one read and its end in a second; the 95 bytes of the text go in six writes. Number 0 stands
// for no call.
#[test]
fn a_fault_in_a_whole_run_is_told_by_the_status(rt: HostRuntime) {
    let alloc = rt.alloc();
    for (case, read, write, text, status) in [
        ("read 1 fails", 1, 0, "", 5),
        ("read 2 fails", 2, 0, "", 5),
        ("read 3 fails", 3, 0, FINALIZED, 0),
        ("write 1 fails", 0, 1, "", 6),
        ("write 2 fails", 0, 2, PIECES[0], 6),
        ("write 3 fails", 0, 3, PIECES[1], 6),
        ("write 4 fails", 0, 4, PIECES[2], 6),
        ("write 5 fails", 0, 5, PIECES[3], 6),
        ("write 6 fails", 0, 6, PIECES[4], 6),
        ("write 7 fails", 0, 7, FINALIZED, 0),
    ] {
        let bytes = FINALIZES.as_bytes().to_vec(alloc).expect(&rt, "room");
        let failing = Failing { read, write };
        assert_ends(&rt, alloc, case, &["run"], bytes, failing, (text, status));
    }
}
