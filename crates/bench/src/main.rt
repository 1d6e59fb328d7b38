//! What the engine is made of, again and again: `bench PART WORK SIZE TIMES`. Each work prints how much came out of it, and no times, which
//! `bench/run.sh` takes; `all` stands for each part, and for each work of a part.
//!
//! - `wire encode`, `wire decode`, `wire verify`: a notarization that SIZE members signed, 127 at most.
//! - `mailbox pass`: a message comes into a voter's mailbox of capacity 16 that holds SIZE others, and one goes.
//! - `journal sections`: a section of SIZE records is appended and synced, and those before the last two are pruned, in segment
//!   files over a disk in memory. `journal replays`: one such section is read.
//! - `fetch`: calls of a fetcher with SIZE open views. `ask` asks for one more view and settles it, `answer` hears an answer and
//!   judges it, `serve` hears a request and serves it, `expire` lets a millisecond pass, `sweep` retires what reaches all views.
//! - `round`: rounds of SIZE members. `take` gives them all votes, `make` lets them make their certificates too.
//! - `state`: a member's state, with SIZE views to a term. `final` takes a view to its finalization, `given_up` then gives one up.
//! - `ledger`: a ledger of 65,536 accounts. `extend` applies SIZE blocks of a thousand transfers.
//! - `log`: a finalized log that hears of SIZE certificates of a chain. `rise` gives it finalizations from the first view up, `fall`
//!   the last view's and then the links below it, `wait` finalizations above a link that never comes.
//! - `repair`: a repair state with SIZE terms. `jump` gives it a nullification that many terms ahead, `fill` one of those before.
//! - `shared pass`: SIZE threads share a mailbox of capacity 16. Each puts a letter and takes one, TIMES times.
//!
//! It may assume nothing of its words, and owes nothing but that it is safe and ends.
#![tactic(auto)]

ghost use Rattle.std.specs.Prelude.{◌<◌};

mod fetch;
mod journal;
mod ledger;
mod log;
mod mailbox;
mod repair;
mod round;
mod shared;
mod state;
mod wire;

use anyhow::{Context, Result, bail};
use std::alloc::{AllocError, Global};
use std::env;
use std::io::Print;
use std::sync::Wait;
use std::thread::Threads;

/// What is done again and again.
#[derive(Clone, Copy)]
enum Work {
    Encode,
    Decode,
    Verify,
    Pass,
    Sections,
    Replays,
    Fetch(fetch::Work),
    Ledger,
    Log(log::Work),
    Round { makes: bool },
    State { gives_up: bool },
    Jump,
    Fill,
}

/// Each part's works, but for those of threads.
const WORKS: [(&str, &str, Work); 21] = [
    ("wire", "encode", Work::Encode),
    ("wire", "decode", Work::Decode),
    ("wire", "verify", Work::Verify),
    ("mailbox", "pass", Work::Pass),
    ("journal", "sections", Work::Sections),
    ("journal", "replays", Work::Replays),
    ("fetch", "ask", Work::Fetch(fetch::Work::Ask)),
    ("fetch", "answer", Work::Fetch(fetch::Work::Answer)),
    ("fetch", "serve", Work::Fetch(fetch::Work::Serve)),
    ("fetch", "expire", Work::Fetch(fetch::Work::Expire)),
    ("fetch", "sweep", Work::Fetch(fetch::Work::Sweep)),
    ("ledger", "extend", Work::Ledger),
    ("log", "rise", Work::Log(log::Work::Rise)),
    ("log", "fall", Work::Log(log::Work::Fall)),
    ("log", "wait", Work::Log(log::Work::Wait)),
    ("round", "take", Work::Round { makes: false }),
    ("round", "make", Work::Round { makes: true }),
    ("state", "final", Work::State { gives_up: false }),
    ("state", "given_up", Work::State { gives_up: true }),
    ("repair", "jump", Work::Jump),
    ("repair", "fill", Work::Fill),
];

/// How much comes out of so many turns of the work.
fn done(alloc: Global, work: Work, size: u32, times: u32) -> Result<u64, AllocError>
    requires { 0 < size }
{
    match work {
        Work::Encode => wire::encode(alloc, size, times),
        Work::Decode => wire::decode(alloc, size, times),
        Work::Verify => wire::verify(alloc, size, times),
        Work::Pass => mailbox::pass(alloc, size, times),
        Work::Sections => journal::sections(alloc, size, times),
        Work::Replays => journal::replays(alloc, size, times),
        Work::Fetch(work) => fetch::turns(alloc, work, size, times),
        Work::Ledger => ledger::turns(alloc, size, times),
        Work::Log(work) => log::turns(alloc, work, size, times),
        Work::Round { makes } => round::turns(alloc, makes, size, times),
        Work::State { gives_up } => state::turns(alloc, gives_up, size, times),
        Work::Jump => repair::jumps(alloc, size, times),
        Work::Fill => repair::fills(alloc, size, times),
    }
}

/// Whether a word names this, or all.
fn names(word: &str, name: &str) -> bool {
    word == name || word == "all"
}

/// Each work that the words name, but for those of threads.
fn run(
    rt: &impl Print,
    alloc: Global,
    part: &str,
    work: &str,
    size: u32,
    times: u32,
) -> Result<()> {
    let size = size.max(1);
    for (of, name, it) in WORKS {
        if names(part, of) && names(work, name) {
            let done = done(alloc, it, size, times)?;
            println!(rt; "{of} {name} {size} {times} {done}")?;
        }
    }
    Ok(())
}

/// The work of threads, where the words name it.
fn share<R: Print + Threads + Wait + Sync>(
    rt: &R,
    alloc: Global,
    part: &str,
    work: &str,
    threads: u32,
    times: u32,
) -> Result<()> {
    if names(part, "shared") && names(work, "pass") {
        let calls = shared::calls(rt, alloc, threads, times)?;
        println!(rt; "shared pass {threads} {times} {calls}")?;
    }
    Ok(())
}

fn number(word: &str) -> Result<u32> {
    word.parse::<u32>().context("not a number")
}

fn main(rt: HostRuntime) -> Result<()> {
    let alloc = rt.alloc();
    let words: Vec<String> = env::args(&rt)?.collect(alloc)?;
    let [_, part, work, size, times] = words.as_slice() else {
        bail!("words: PART WORK SIZE TIMES");
    };
    let (size, times) = (number(size)?, number(times)?);
    run(&rt, alloc, part, work, size, times)?;
    share(&rt, alloc, part, work, size, times)
}
