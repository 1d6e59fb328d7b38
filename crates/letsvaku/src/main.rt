//! The program: `letsvaku COMMAND .. [FILE]` does what the command says with an input, from a file or from standard input.
//!
//! It decides nothing. [`request_of`] says what the words ask for, the programs of the libraries do it, and what they print is
//! printed; the status is theirs. On standard error it says what is wrong with the words or the input, and what standard output cannot
//! tell.
#![tactic(auto)]

mod doing;
mod ending;
mod saying;
mod viewing;

use crate::doing::perform;
use crate::ending::Ending;
use crate::saying::{say, say_unopened, say_wrong};
use simplex_commands::{Command, Request, VERSION, help_text, request_of};
use simplex_diagnosis::KeptSource;
use simplex_front::words_of;
use simplex_io::{ReaderSource, SinkError, WriterSink, write_text};
use std::alloc::AllocError;
use std::io::Read;
use std::process::ExitCode;
use std::rt::Files;
use std::thread::Threads;
use std::{fs, io};

// Prints what there is to say on the program itself.
fn print_text<R: Print + AllocGlobal>(rt: &R, text: &str) -> u8 {
    let mut sink = WriterSink::new(io::writer(rt));
    match write_text(&mut sink, text.as_bytes()) {
        Ok(()) => 0,
        Err(SinkError::Memory) => Ending::MEMORY.status,
        Err(SinkError::Failed) => Ending::WRITE_FAULT.status,
    }
}

// Does the command with what comes from a reader, which is a file if it has a name.
fn work<R: Files + Print + Eprint + AllocGlobal + Threads + Sync, I: Read + Drop>(
    rt: &R,
    command: Command,
    words: &[String],
    name: Option<&str>,
    reader: I,
) -> u8 {
    let alloc = rt.alloc();
    let mut source = KeptSource::new(alloc, ReaderSource::new(alloc, reader));
    let mut sink = WriterSink::new(io::writer(rt));
    let ending = perform(rt, command, words, &mut source, &mut sink);
    say(rt, command, name, ending, source.bytes());
    ending.status
}

// Does the command with the file whose name stands at this place of the words.
fn work_on_file<R: Files + Print + Eprint + AllocGlobal + Threads + Sync>(
    rt: &R,
    command: Command,
    words: Vec<String>,
    place: usize,
) -> u8 {
    let mut words = words;
    if place >= words.len() {
        return Ending::BAD_WORDS;
    }
    let name = words.remove(place);
    match fs::open(rt, name.as_str()) {
        Ok(file) => work(rt, command, &words, Some(name.as_str()), file),
        Err(error) => {
            say_unopened(rt, name.as_str(), &error);
            Ending::UNOPENED
        }
    }
}

fn main(rt: HostRuntime) -> ExitCode {
    let words = match words_of(&rt) {
        Ok(words) => words,
        Err(AllocError) => return ExitCode::from(Ending::MEMORY.status),
    };
    let status = match request_of(&words) {
        Request::Help(command) => print_text(&rt, help_text(command)),
        Request::Version => print_text(&rt, VERSION),
        Request::Perform {
            command,
            file: Some(place),
        } => work_on_file(&rt, command, words, place),
        Request::Perform {
            command,
            file: None,
        } => work(&rt, command, &words, None, rt.reader()),
        Request::Wrong(wrong) => {
            say_wrong(&rt, &words, wrong);
            Ending::BAD_WORDS
        }
    };
    ExitCode::from(status)
}
