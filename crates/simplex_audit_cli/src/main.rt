//! The program: runs the events that standard input says, and writes the record of what came of them,
//! `simplex_audit_cli record < input.json`; or judges the record that it says, `simplex_audit_cli check < record.json`.
//!
//! It hands the process to [`audit_program`] and decides nothing. Of an exit by a fault or want of memory, for which standard output
//! stays as it is, it says on standard error which it was.
#![tactic(auto)]

use simplex_audits::audit_program;
use simplex_front::{Exit, say_fault, words_of};
use simplex_io::{ReaderSource, WriterSink};
use std::alloc::AllocError;
use std::io;
use std::process::ExitCode;

fn main(rt: HostRuntime) -> ExitCode {
    let exit = match words_of(&rt) {
        Err(AllocError) => Exit::Memory,
        Ok(words) => {
            let mut source = ReaderSource::new(rt.alloc(), rt.reader());
            let mut sink = WriterSink::new(io::writer(&rt));
            audit_program(rt.alloc(), &words, &mut source, &mut sink).without_work()
        }
    };
    say_fault(&rt, "simplex_audit_cli", &exit);
    ExitCode::from(exit.status())
}
