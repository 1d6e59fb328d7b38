//! The program: words and a source of bytes in, a text and an exit out.
//!
//! The word `run` reads a setup and its events as JSON, runs them, and writes what was finalized, or why the run
//! was refused. `par WORKERS` does the same, and steps at once what stands apart, by so many threads. `gen NUMBER STEPS`
//! runs the events that the number makes, and sums them up in one line.
//!
//! It may assume nothing: words, source and sink are any, also such as fail at any call. [`program`] owes of each exit
//! why it comes, and what is written, and of a whole run that it is safe.
#![tactic(auto)]

mod command;
mod exit;
mod front;
mod making;
mod text;

pub use command::{Command, MOST_STEPS, MOST_WORKERS};
pub use exit::Exit;
pub use front::program;
pub use simplex_io::LIMIT;
