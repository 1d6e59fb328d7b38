//! What the `main` of a program does before and after: it takes the words of the process, and says a fault.
ghost use Rattle.std.specs.Prelude.{◌≡◌, ◌↔◌, map, IsSome, string_bytes};
ghost use Rattle.simplex_front.specs.Cause.{IsFault};
ghost use Rattle.simplex_front.specs.Words.{is_alone};

use crate::exit::Exit;
use std::alloc::AllocError;
use std::env;
use std::env::Env;
use std::io::ErrorKind;

/// The words behind the program's own name. Where one of them is no text there are none. An error is want of memory.
/// [words-without-text]
pub fn words_of(rt: &(impl Env + AllocGlobal)) -> Result<Vec<String>, AllocError> {
    let mut words = Vec::new(rt.alloc());
    let all = match env::args(rt) {
        Ok(all) => all,
        Err(error) if error.kind() == ErrorKind::InvalidData => return Ok(words),
        Err(_) => return Err(AllocError),
    };
    for word in all.skip(1) {
        words.push(word)?;
    }
    Ok(words)
}

/// Whether the words are this one alone.
pub fn is_word(words: &[String], word: &str) -> bool
    ensures { result ≡ is_alone word.now (map string_bytes words.now) }
{
    match words {
        [only] => only.as_str() == word,
        _ => false,
    }
}

/// What is said of an exit that tells nothing on standard output.
pub fn fault_of<D: Drop, R: Drop>(exit: &Exit<D, R>) -> Option<&'static str>
    ensures { IsSome result ↔ IsFault exit.now }
{
    match exit {
        Exit::ReadFault => Some("standard input could not be read"),
        Exit::WriteFault => Some("standard output could not be written"),
        Exit::Memory => Some("out of memory"),
        Exit::Done(_) | Exit::Refused(_) | Exit::BadWords | Exit::BadInput { .. } | Exit::TooLong =>
            None,
    }
}

/// Says the fault on standard error, if there was one, behind the program's name. Where that fails too, the status alone tells it.
/// [faults-on-standard-error]
pub fn say_fault<D: Drop, R: Drop>(rt: &impl Eprint, name: &str, exit: &Exit<D, R>) {
    if let Some(fault) = fault_of(exit) {
        let _said = eprintln!(rt; "{name}: {fault}");
    }
}
