//! What is said on standard error. Where that fails too, the status alone tells it.
use crate::ending::{Ending, Outcome};
use simplex_commands::{Command, Wrong, wrong_line};
use simplex_diagnosis::{Shape, explain_as};
use simplex_lab::script_fault;
use std::alloc::{AllocError, Global};
use std::io::Error;

/// Says what is wrong with the words.
pub(crate) fn say_wrong(rt: &(impl Eprint + AllocGlobal), words: &[String], wrong: Wrong) {
    if let Ok(line) = wrong_line(rt.alloc(), words, wrong) {
        let _said = eprintln!(rt; "letsvaku: {line}");
    }
}

/// Says why a file cannot be opened.
pub(crate) fn say_unopened(rt: &(impl Eprint + AllocGlobal), name: &str, error: &Error) {
    let _said = eprintln!(rt; "letsvaku: {name} cannot be opened: {error}");
}

// What the command's input is of.
fn shape_of(command: Command) -> Shape {
    match command {
        Command::Balances => Shape::Ledger,
        Command::Chain => Shape::Epochs,
        Command::Check => Shape::Record,
        _ => Shape::Run,
    }
}

fn is_blank(bytes: &[u8]) -> bool {
    bytes.iter().all(|byte| byte.is_ascii_whitespace())
}

// What is wrong with an input, or with a script.
fn fault_in(
    alloc: Global,
    command: Command,
    bytes: &[u8],
    place: u64,
) -> Result<Option<String>, AllocError> {
    match command {
        Command::Script if is_blank(bytes) => {
            Ok(Some(String::from_str(alloc, "the input is empty")?))
        }
        Command::Script => match script_fault(alloc, bytes) {
            Ok(Some(fault)) => Ok(Some(format!(in alloc; "{fault}")?)),
            _ => Ok(None),
        },
        _ => Ok(Some(explain_as(alloc, shape_of(command), bytes, place)?)),
    }
}

fn say_bad_input(
    rt: &(impl Eprint + AllocGlobal),
    command: Command,
    bytes: Option<&[u8]>,
    place: u64,
) {
    let Some(bytes) = bytes else {
        return;
    };
    if let Ok(Some(fault)) = fault_in(rt.alloc(), command, bytes, place) {
        let _said = eprintln!(rt; "letsvaku: {fault}");
    }
}

// Whether `trace` says more on a refused run of the same input.
fn is_traced(command: Command) -> bool {
    match command {
        Command::Run | Command::Par | Command::Logs | Command::Record | Command::View => true,
        _ => false,
    }
}

/// Says what standard output does not tell: a fault, what is wrong with the input, which is a file if it has a name, or how more is
/// found on a refused run.
pub(crate) fn say(
    rt: &(impl Eprint + AllocGlobal),
    command: Command,
    name: Option<&str>,
    ending: Ending,
    bytes: Option<&[u8]>,
) {
    match ending.outcome {
        Outcome::BadInput { place } => say_bad_input(rt, command, bytes, place),
        Outcome::ReadFault => {
            let name = name.unwrap_or("standard input");
            let _said = eprintln!(rt; "letsvaku: {name} could not be read");
        }
        Outcome::WriteFault => {
            let _said = eprintln!(rt; "letsvaku: standard output could not be written");
        }
        Outcome::Memory => {
            let _said = eprintln!(rt; "letsvaku: out of memory");
        }
        Outcome::NoPage => {
            let _said = eprintln!(rt;
                "letsvaku: the page's files, viewer/index.html and viewer/viewer.js or those in --page FOLDER, cannot be read"
            );
        }
        Outcome::Told => {
            if ending.status == Ending::REFUSED && is_traced(command) {
                let name = name.unwrap_or("FILE");
                let _said = eprintln!(rt;
                    "letsvaku: letsvaku trace {name} shows why, and what was open then"
                );
            }
        }
    }
}
