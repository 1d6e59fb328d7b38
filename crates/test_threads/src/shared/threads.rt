//! Threads that call at once, and their one history.
ghost use Rattle.std.specs.Prelude.{◌≡◌, ◌<◌};

use crate::shared::calls::pair;
use crate::shared::gate::Gate;
use crate::shared::replay::{assert_calls, replay};
use simplex_shared::{Log, Op, Pass, RecordedMailbox};
use std::alloc::Global;
use std::process::Abort;
use std::sync::Wait;
use std::test::Fail;
use std::thread;
use std::thread::Threads;
use test_support::Letter;

/// So many calls each pass makes.
const CALLS: u64 = 10_000;

/// So many letters are ready at most.
const CAPACITY: u32 = 16;

/// A pass of an even number puts letters, and one of an odd number takes them.
fn call_all<R: Abort + Wait>(
    rt: &R,
    mailbox: &RecordedMailbox<Letter>,
    mut pass: Pass<Letter>,
) -> Pass<Letter>
    requires { pass.mailbox ≡ mailbox.now }
    ensures { result.mailbox ≡ mailbox.entry.now }
{
    let writer = pass.number();
    for number in 0..CALLS {
        if writer % 2 == 0 {
            let letter = Letter { writer, number };
            let put = mailbox.enqueue(rt, &mut pass, letter);
            assert!(rt; put.is_ok(), "a letter was not put");
        } else {
            let got = mailbox.recv(rt, &mut pass);
            assert!(rt; got.is_ok(), "no letter could be taken");
        }
    }
    pass
}

/// The history of a mailbox of so many passes, each of which calls in a thread of its own.
fn history_of<R: Abort + Threads + Wait + Sync>(rt: &R, alloc: Global, count: u32) -> Log<Letter> {
    let (mailbox, passes) = RecordedMailbox::new(alloc, CAPACITY, count).expect(rt, "a mailbox");
    let shared = &mailbox;
    let work = |pass: Pass<Letter>| -> Pass<Letter>
        requires { pass.mailbox ≡ shared.now }
        ensures { result.mailbox ≡ shared.entry.now }
    { call_all(rt, shared, pass) };
    let passes = thread::map_vec(rt, passes, &work).expect(rt, "memory for the threads");
    assert!(rt; !passes.is_empty(), "a thread for each pass");
    mailbox.finish(rt, passes)
}

/// One thread makes the history of so many threads again, and each of them made its calls.
fn assert_one_history<R: Abort + Threads + Wait + Sync>(rt: &R, alloc: Global, count: u32) {
    let log = history_of(rt, alloc, count);
    replay(rt, alloc, &log, CAPACITY);
    for caller in 0..count {
        assert_calls(rt, &log, caller, CALLS);
    }
}

#[test]
fn two_threads_make_one_history(rt: HostRuntime) -> Result<(), Fail> {
    assert_one_history(&rt, rt.alloc(), 2);
    Ok(())
}

#[test]
fn three_threads_make_one_history(rt: HostRuntime) -> Result<(), Fail> {
    assert_one_history(&rt, rt.alloc(), 3);
    Ok(())
}

#[test]
fn eight_threads_make_one_history(rt: HostRuntime) -> Result<(), Fail> {
    assert_one_history(&rt, rt.alloc(), 8);
    Ok(())
}

/// The leader puts its letter, and stays until the follower put one too.
fn lead<R: Abort + Wait>(
    rt: &R,
    mailbox: &RecordedMailbox<Letter>,
    mut pass: Pass<Letter>,
    gate: &Gate,
) -> Pass<Letter>
    requires { pass.mailbox ≡ mailbox.now }
    ensures { result.mailbox ≡ mailbox.entry.now }
{
    let letter = Letter {
        writer: pass.number(),
        number: 0,
    };
    let put = mailbox.enqueue(rt, &mut pass, letter);
    assert!(rt; put.is_ok(), "a letter was not put");
    gate.lead();
    pass
}

/// The follower puts its letter once the leader put one.
fn follow<R: Abort + Wait>(
    rt: &R,
    mailbox: &RecordedMailbox<Letter>,
    mut pass: Pass<Letter>,
    gate: &Gate,
) -> Pass<Letter>
    requires { pass.mailbox ≡ mailbox.now }
    ensures { result.mailbox ≡ mailbox.entry.now }
{
    gate.follow();
    let letter = Letter {
        writer: pass.number(),
        number: 0,
    };
    let put = mailbox.enqueue(rt, &mut pass, letter);
    assert!(rt; put.is_ok(), "a letter was not put");
    gate.followed();
    pass
}

/// The history of two threads, of which the first leads.
fn led_by_the_first<R: Abort + Threads + Wait + Sync>(
    rt: &R,
    alloc: Global,
    gate: &Gate,
) -> Log<Letter> {
    let (mailbox, first, second) = pair(rt, alloc, CAPACITY);
    let shared = &mailbox;
    let (first, second) = thread::join(
        rt,
        move || -> Pass<Letter>
            requires { first.mailbox ≡ shared.now }
            ensures { result.mailbox ≡ shared.entry.now }
        { lead(rt, shared, first, gate) },
        move || -> Pass<Letter>
            requires { second.mailbox ≡ shared.now }
            ensures { result.mailbox ≡ shared.entry.now }
        { follow(rt, shared, second, gate) },
    );
    mailbox.finish(rt, vec![in alloc; first, second].expect(rt, "memory"))
}

/// The history of two threads, of which the second leads.
fn led_by_the_second<R: Abort + Threads + Wait + Sync>(
    rt: &R,
    alloc: Global,
    gate: &Gate,
) -> Log<Letter> {
    let (mailbox, first, second) = pair(rt, alloc, CAPACITY);
    let shared = &mailbox;
    let (first, second) = thread::join(
        rt,
        move || -> Pass<Letter>
            requires { first.mailbox ≡ shared.now }
            ensures { result.mailbox ≡ shared.entry.now }
        { follow(rt, shared, first, gate) },
        move || -> Pass<Letter>
            requires { second.mailbox ≡ shared.now }
            ensures { result.mailbox ≡ shared.entry.now }
        { lead(rt, shared, second, gate) },
    );
    mailbox.finish(rt, vec![in alloc; first, second].expect(rt, "memory"))
}

/// The history is a put of each of these writers, in this order, and no thread waited in vain.
fn assert_met(rt: &impl Abort, log: &Log<Letter>, gate: &Gate, writers: [u32; 2]) {
    assert!(rt; gate.gave_up() == 0, "a thread waited in vain");
    assert!(rt; log.calls().len() == 2, "two calls were made");
    for (call, writer) in log.calls().iter().zip(writers) {
        let is_put = matches!(call, Op::Put { caller, .. } if *caller == writer);
        assert!(rt; is_put, "a put in another order");
    }
}

#[test]
fn two_threads_put_in_turn(rt: HostRuntime) -> Result<(), Fail> {
    let gate = Gate::new();
    let log = led_by_the_first(&rt, rt.alloc(), &gate);
    assert_met(&rt, &log, &gate, [0, 1]);
    let gate = Gate::new();
    let log = led_by_the_second(&rt, rt.alloc(), &gate);
    assert_met(&rt, &log, &gate, [1, 0]);
    Ok(())
}
