//! The program: runs the epochs that standard input says, one after another, and writes the chain of each member that is honest in all of
//! them: `simplex_epochs_cli chain < input.json`.
//!
//! It hands the process to [`epochs_program`] and decides nothing. Of an exit by a fault or want of memory, for which standard output
//! stays as it is, it says on standard error which it was.
#![tactic(auto)]

use simplex_epochs::epochs_program;
use simplex_front::{Exit, say_fault, words_of};
use simplex_io::{ReaderSource, WriterSink};
use std::alloc::AllocError;
use std::io;
use std::process::ExitCode;

fn main(rt: HostRuntime) -> ExitCode {
    let exit = match words_of(&rt) {
        Err(AllocError) => Exit::Memory,
        Ok(words) => {
            let mut source = ReaderSource::new(rt.alloc(), rt.reader());
            let mut sink = WriterSink::new(io::writer(&rt));
            epochs_program(rt.alloc(), &words, &mut source, &mut sink).without_work()
        }
    };
    say_fault(&rt, "simplex_epochs_cli", &exit);
    ExitCode::from(exit.status())
}
