//! Threads put letters into one shared mailbox and take them again.
ghost use Rattle.std.specs.Prelude.{◌≡◌};

use anyhow::Result;
use simplex_shared::{Pass, RecordedMailbox};
use std::alloc::Global;
use std::sync::Wait;
use std::thread::{self, Threads};
use test_support::Letter;

/// How many letters are ready.
const CAPACITY: u32 = 16;

/// The thread of this pass puts a letter and takes one, so many times.
fn work<R: Wait>(
    rt: &R,
    mailbox: &RecordedMailbox<Letter>,
    mut pass: Pass<Letter>,
    times: u32,
) -> Pass<Letter>
    requires { pass.mailbox ≡ mailbox.now }
    ensures { result.mailbox ≡ mailbox.entry.now }
{
    let writer = pass.number();
    for number in 0..times {
        let number = u64::from(number);
        let _answer = mailbox.enqueue(rt, &mut pass, Letter { writer, number });
        let _letter = mailbox.recv(rt, &mut pass);
    }
    pass
}

/// How many calls so many threads made.
pub(crate) fn calls<R: Threads + Wait + Sync>(
    rt: &R,
    alloc: Global,
    threads: u32,
    times: u32,
) -> Result<u64> {
    let (mailbox, passes) = RecordedMailbox::new(alloc, CAPACITY, threads)?;
    let shared = &mailbox;
    let times = &times;
    let each = |pass: Pass<Letter>| -> Pass<Letter>
        requires { pass.mailbox ≡ shared.now }
        ensures { result.mailbox ≡ shared.entry.now }
    { work(rt, shared, pass, *times) };
    let passes = thread::map_vec(rt, passes, &each)?;
    if passes.is_empty() {
        return Ok(0);
    }
    Ok(mailbox.finish(rt, passes).calls().len() as u64)
}
