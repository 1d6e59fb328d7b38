//! What each command does: the programs of the libraries.
use crate::ending::{Ending, Outcome, of_run, of_work};
use crate::viewing::view;
use simplex_audits::audit_program;
use simplex_commands::Command;
use simplex_epochs::epochs_program;
use simplex_io::{Sink, Source};
use simplex_lab::lab_program;
use simplex_ledgers::ledger_program;
use simplex_logs::log_program;
use simplex_program::program;
use std::rt::Files;
use std::thread::Threads;

/// Does the command with the words and a source, and writes what it prints to the sink.
pub(crate) fn perform<R: Files + AllocGlobal + Threads + Sync, S: Source, K: Sink>(
    rt: &R,
    command: Command,
    words: &[String],
    source: &mut S,
    sink: &mut K,
) -> Ending {
    let alloc = rt.alloc();
    match command {
        Command::Run | Command::Par | Command::Gen => {
            of_run(program(rt, alloc, words, source, sink))
        }
        Command::Trace | Command::Script | Command::Simulate | Command::Shrink => {
            of_work(lab_program(alloc, words, source, sink))
        }
        Command::Logs => of_work(log_program(alloc, words, source, sink)),
        Command::Balances => of_work(ledger_program(alloc, words, source, sink)),
        Command::Chain => of_work(epochs_program(alloc, words, source, sink)),
        Command::Record | Command::Check => of_work(audit_program(alloc, words, source, sink)),
        Command::View => view(rt, words, source, sink),
        // These two are asked for by requests of their own.
        Command::Help | Command::Version => Ending::new(Ending::BAD_WORDS, Outcome::Told),
    }
}
