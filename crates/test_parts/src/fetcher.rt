//! Scripts about a fetcher: whom a member asks for what it lacks, and when.

ghost use Rattle.std.specs.Prelude.{◌<◌, ◌^◌};

mod command;

use crate::fetcher::command::{Command, command_of};
use simplex_fetch::{FetchConfig, Fetcher, Out};
use simplex_types::{Participant, ResolverBody, ResolverMessage};
use std::alloc::{AllocError, Global};
use test_support::{Part, Script, Told, member, play_made, timed};

/// A fetcher, and the time.
#[derive(Drop)]
struct Desk {
    alloc: Global,
    fetcher: Fetcher,
    now: u64,
}

/// `ME of N`: a fetcher whose peers have a second to answer, and that waits a tenth of one behind an attempt that failed.
fn desk_of(alloc: Global, words: &[&str]) -> Option<Desk> {
    let [me, "of", n] = words else {
        return None;
    };
    let (me, n) = (member(me)?, member(n)?);
    if me >= n {
        return None;
    }
    let config = FetchConfig {
        me: Participant(me),
        n,
        fetch_timeout: 1000,
        fetch_retry_delay: 100,
    };
    Some(Desk {
        alloc,
        fetcher: Fetcher::new(alloc, config),
        now: 0,
    })
}

/// Plays a script whose first line is `fetcher`, and these words.
pub(crate) fn run(words: &[&str], script: &Script, told: &mut Told) -> Result<(), AllocError> {
    play_made(desk_of(told.alloc(), words), script, told)
}

/// A request to a member.
pub(crate) fn request_text(
    alloc: Global,
    to: &Participant,
    bytes: &[u8],
) -> Result<String, AllocError> {
    let Ok(ResolverMessage { id, body }) = ResolverMessage::decode(alloc, bytes) else {
        return String::from_str(alloc, "bytes of no message");
    };
    match body {
        ResolverBody::Request { view } => {
            format!(in alloc; "{to} is asked for view {view} as request {id}")
        }
        _ => format!(in alloc; "{to} gets no request"),
    }
}

/// Tells the next deadline where it is another than before.
pub(crate) fn tell_deadline(
    before: Option<u64>,
    after: Option<u64>,
    told: &mut Told,
) -> Result<(), AllocError> {
    match after {
        _ if before == after => Ok(()),
        Some(time) => {
            let text = format!(in told.alloc(); "due at {time}")?;
            told.says(text.as_str())
        }
        None => told.says("nothing is due"),
    }
}

/// Tells what is wanted, and the next deadline where it is another than before.
fn tell(
    outs: &[Out],
    before: Option<u64>,
    after: Option<u64>,
    told: &mut Told,
) -> Result<(), AllocError> {
    let alloc = told.alloc();
    if outs.is_empty() && before == after {
        return told.says("nothing");
    }
    for out in outs {
        match out {
            Out::Send { to, bytes } => {
                told.says(request_text(alloc, to, bytes.as_slice())?.as_str())?;
            }
            _ => told.says("no request")?,
        }
    }
    tell_deadline(before, after, told)
}

impl Desk {
    /// What the command wants.
    fn outs(&mut self, command: Command) -> Result<Vec<Out>, AllocError>
        requires early { self.old.now < 2 ^ 63 }
        requires ids { self.old.fetcher.next_id < 2 ^ 62 }
    {
        match command {
            Command::Fetch(fetch) => self.fetcher.fetch(self.alloc, fetch, self.now),
            Command::Target(fetch, target) => {
                self.fetcher
                    .fetch_targeted(self.alloc, fetch, target, self.now)
            }
            Command::Expire => self.fetcher.expire(self.alloc, self.now),
            Command::Block(member) => {
                self.fetcher.block(member)?;
                Ok(Vec::new(self.alloc))
            }
        }
    }

    /// Does the command at the time, and tells what it wants, and when the fetcher is to be called next if that changes.
    fn run(&mut self, command: Command, told: &mut Told) -> Result<(), AllocError> {
        if self.now >= 1 << 63 || !self.fetcher.has_room() {
            return told.says("not allowed: the time, or the numbers of requests, are at their end");
        }
        let before = self.fetcher.next_deadline();
        let outs = self.outs(command)?;
        let after = self.fetcher.next_deadline();
        tell(outs.as_slice(), before, after, told)
    }
}

impl Part for Desk {
    fn take(&mut self, words: &[&str], told: &mut Told) -> Result<(), AllocError> {
        let Some((time, words)) = timed(words, self.now) else {
            return told.says("not a command");
        };
        self.now = time;
        match command_of(words) {
            Some(command) => self.run(command, told),
            None => told.says("not a command"),
        }
    }
}
