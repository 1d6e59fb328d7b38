//! The program: runs the events that standard input says, and writes the finalized log of each honest node:
//! `simplex_log_cli logs < input.json`.
//!
//! It hands the process to [`log_program`] and decides nothing. Of an exit by a fault or want of memory, for which standard output
//! stays as it is, it says on standard error which it was, and of an input that is not of the form, what is wrong with it.
#![tactic(auto)]

use simplex_diagnosis::{KeptSource, say_why};
use simplex_front::{Exit, say_fault, words_of};
use simplex_io::{ReaderSource, WriterSink};
use simplex_logs::log_program;
use std::alloc::AllocError;
use std::io;
use std::process::ExitCode;

fn main(rt: HostRuntime) -> ExitCode {
    let mut source = KeptSource::new(rt.alloc(), ReaderSource::new(rt.alloc(), rt.reader()));
    let exit = match words_of(&rt) {
        Err(AllocError) => Exit::Memory,
        Ok(words) => {
            let mut sink = WriterSink::new(io::writer(&rt));
            log_program(rt.alloc(), &words, &mut source, &mut sink).without_work()
        }
    };
    if let Exit::BadInput { place } = &exit {
        say_why(&rt, "simplex_log_cli", *place, &source);
    }
    say_fault(&rt, "simplex_log_cli", &exit);
    ExitCode::from(exit.status())
}
