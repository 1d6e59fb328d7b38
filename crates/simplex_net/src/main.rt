//! The program: runs the events that standard input says, and prints what was finalized: `simplex_net run < input.json`, or by
//! four threads `simplex_net par 4 < input.json`; or runs those that a number makes, and sums them up: `simplex_net gen 7 2000`.
//!
//! It hands the process to [`program`] and decides nothing: threads, words, standard input and standard output go in, and the
//! status is that of the exit. Of an exit by a fault or want of memory, for which standard output stays as it is, it says on
//! standard error which it was, and of an input that is not of the form, what is wrong with it.
#![tactic(auto)]

ghost use Rattle.std.specs.Prelude.{◌↔◌, IsSome};
ghost use Rattle.simplex_program.specs.Exit.{told};
ghost use Rattle.simplex_program.specs.Cause.{IsFault};

use simplex_diagnosis::{KeptSource, say_why};
use simplex_front::words_of;
use simplex_io::{ReaderSource, WriterSink};
use simplex_program::{Exit, program};
use std::alloc::AllocError;
use std::process::ExitCode;
use std::{io, mem};

/// What is left to do at the end of the process: a fault to say, the place of what is wrong with the input, and the status.
#[derive(Clone, Copy)]
struct Ending {
    fault: Option<&'static str>,
    place: Option<u64>,
    status: u8,
}

/// What is said of an exit that tells nothing on standard output.
fn fault(exit: &Exit) -> Option<&'static str>
    ensures { IsSome result ↔ IsFault (told exit.now) }
{
    match exit {
        Exit::ReadFault => Some("standard input could not be read"),
        Exit::WriteFault => Some("standard output could not be written"),
        Exit::Memory => Some("out of memory"),
        Exit::Done(_)
        | Exit::Refused { .. }
        | Exit::BadWords
        | Exit::BadInput { .. }
        | Exit::TooLong => None,
    }
}

/// The place at which the input is not of the form.
fn wrong_place(exit: &Exit) -> Option<u64> {
    match exit {
        Exit::BadInput { place } => Some(*place),
        _ => None,
    }
}

/// What an exit leaves to do. The process ends behind it, and its memory with it: a run's entries need not be let go one by one.
fn ending_of(exit: Exit) -> Ending {
    let ending = Ending {
        fault: fault(&exit),
        place: wrong_place(&exit),
        status: exit.status(),
    };
    mem::forget(exit);
    ending
}

/// Says the fault, if there was one. Where standard error fails too, the status alone tells it.
fn tell(rt: &impl Eprint, ending: &Ending) {
    if let Some(fault) = ending.fault {
        let _told = eprintln!(rt; "simplex_net: {fault}");
    }
}

fn main(rt: HostRuntime) -> ExitCode {
    let mut source = KeptSource::new(rt.alloc(), ReaderSource::new(rt.alloc(), rt.reader()));
    let ending = match words_of(&rt) {
        Err(AllocError) => ending_of(Exit::Memory),
        Ok(words) => {
            let mut sink = WriterSink::new(io::writer(&rt));
            ending_of(program(&rt, rt.alloc(), &words, &mut source, &mut sink))
        }
    };
    if let Some(place) = ending.place {
        say_why(&rt, "simplex_net", place, &source);
    }
    tell(&rt, &ending);
    ExitCode::from(ending.status)
}
