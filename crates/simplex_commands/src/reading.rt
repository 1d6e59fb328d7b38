//! Words are read.
ghost use Rattle.std.specs.Prelude.{◌≡◌, ◌+◌, ◌<◌, ◌^◌, ◌∷◌, length, map, string_bytes};
ghost use Rattle.simplex_commands.specs.Commands.{flag_of};
ghost use Rattle.simplex_commands.specs.Requests as said;

use crate::command::{Command, command_of, needs_of, takes_file};
use crate::flag::{flag_of, takes_flag, value_of};
use crate::parameter::{Parameter, fits};
use crate::request::{Request, Wrong};

// Whether a word is to be an option.
fn is_dashed(word: &str) -> bool
    ensures { result ≡ said.is_dashed word.now }
{
    match word.as_bytes() {
        [b'-', ..] => true,
        _ => false,
    }
}

// Whether a word asks for help.
fn is_help(word: &str) -> bool
    ensures { result ≡ said.is_help word.now }
{
    word == "--help" || word == "-h"
}

// Whether one of the words asks for help.
fn asks_help(words: &[String]) -> bool
    ensures { result ≡ said.asks_help (map string_bytes words.now) }
{
    match words {
        [] => false,
        [word, after @ ..] => is_help(word.as_str()) || asks_help(after),
    }
}

// Whether one of the words asks for the version.
fn asks_version(words: &[String]) -> bool
    ensures { result ≡ said.asks_version (map string_bytes words.now) }
{
    match words {
        [] => false,
        [word, after @ ..] => word.as_str() == "--version" || asks_version(after),
    }
}

// Options in any order, and a file, from this place on.
#[cycle(words)]
fn rest_of(command: Command, place: usize, file: Option<usize>, words: &[String]) -> Request
    requires { place + length words.now < 2 ^ 64 }
    ensures { result ≡ said.rest_of command place file (map string_bytes words.now) }
{
    match words {
        [] => Request::Perform { command, file },
        [word, after @ ..] if is_dashed(word.as_str()) => option_of(
            command, place, word, file, after,
        ),
        [_, after @ ..] => file_of(command, place, file, after),
    }
}

// The word at this place is an option.
#[cycle(words)]
fn option_of(
    command: Command,
    place: usize,
    word: &String,
    file: Option<usize>,
    after: &[String],
) -> Request
    requires { place + length after.now + 1 < 2 ^ 64 }
    ensures { result ≡ said.option_of command place (flag_of (string_bytes word.now)) file
        (map string_bytes after.now) }
{
    let Some(flag) = flag_of(word.as_str()) else {
        return Request::Wrong(Wrong::UnknownOption { command, place });
    };
    if !takes_flag(command, flag) {
        return Request::Wrong(Wrong::UnknownOption { command, place });
    }
    match value_of(flag) {
        None => rest_of(command, place + 1, file, after),
        Some(wanted) => value_at(command, place + 1, wanted, file, after),
    }
}

// The word at this place, the first of these, is the value of an option.
#[cycle(words)]
fn value_at(
    command: Command,
    place: usize,
    wanted: Parameter,
    file: Option<usize>,
    words: &[String],
) -> Request
    requires { place + length words.now < 2 ^ 64 }
    ensures { result ≡ said.value_at command place wanted file (map string_bytes words.now) }
{
    match words {
        [] => Request::Wrong(Wrong::Missing { command, wanted }),
        [word, after @ ..] => {
            if fits(wanted, word.as_str()) {
                rest_of(command, place + 1, file, after)
            } else {
                Request::Wrong(Wrong::Unfit {
                    command,
                    place,
                    wanted,
                })
            }
        }
    }
}

// The word at this place is a file, or one too many.
#[cycle(words)]
fn file_of(command: Command, place: usize, file: Option<usize>, after: &[String]) -> Request
    requires { place + length after.now + 1 < 2 ^ 64 }
    ensures { result ≡ said.file_of command place file (map string_bytes after.now) }
{
    match file {
        Some(_) => Request::Wrong(Wrong::TooMany { command, place }),
        None => {
            if takes_file(command) {
                rest_of(command, place + 1, Some(place), after)
            } else {
                Request::Wrong(Wrong::TooMany { command, place })
            }
        }
    }
}

// What the command needs, and then the rest, from this place on.
#[cycle(needs)]
fn needed(command: Command, place: usize, needs: &[Parameter], words: &[String]) -> Request
    requires { place + length words.now < 2 ^ 64 }
    ensures { result ≡ said.needed command place needs.now (map string_bytes words.now) }
{
    match needs {
        [] => rest_of(command, place, None, words),
        [wanted, more @ ..] => needed_at(command, place, *wanted, more, words),
    }
}

// The word at this place, the first of these, is what the command needs first.
#[cycle(needs)]
fn needed_at(
    command: Command,
    place: usize,
    wanted: Parameter,
    more: &[Parameter],
    words: &[String],
) -> Request
    requires { place + length words.now < 2 ^ 64 }
    ensures { result ≡ said.needed command place (wanted ∷ more.now) (map string_bytes words.now) }
{
    match words {
        [] => Request::Wrong(Wrong::Missing { command, wanted }),
        [word, after @ ..] => {
            if fits(wanted, word.as_str()) {
                needed(command, place + 1, more, after)
            } else {
                Request::Wrong(Wrong::Unfit {
                    command,
                    place,
                    wanted,
                })
            }
        }
    }
}

// The command that help is asked for, if one is named.
fn topic_of(words: &[String]) -> Request
    ensures { result ≡ said.topic_of (map string_bytes words.now) }
{
    match words {
        [] => Request::Help(None),
        [word] => match command_of(word.as_str()) {
            Some(command) => Request::Help(Some(command)),
            None => Request::Wrong(Wrong::UnknownCommand { place: 1 }),
        },
        [_, _, ..] => Request::Wrong(Wrong::TooMany {
            command: Command::Help,
            place: 2,
        }),
    }
}

// Nothing stands behind the command's word.
fn version_of(words: &[String]) -> Request
    ensures { result ≡ said.version_of (map string_bytes words.now) }
{
    match words {
        [] => Request::Version,
        [_, ..] => Request::Wrong(Wrong::TooMany {
            command: Command::Version,
            place: 1,
        }),
    }
}

// What a command is asked for by the words behind its own.
fn command_with(command: Command, words: &[String]) -> Request
    ensures { result ≡ said.command_with command (map string_bytes words.now) }
{
    match command {
        Command::Help => topic_of(words),
        Command::Version => version_of(words),
        Command::Run
        | Command::Par
        | Command::Gen
        | Command::Trace
        | Command::Script
        | Command::Simulate
        | Command::Shrink
        | Command::Logs
        | Command::Balances
        | Command::Chain
        | Command::Record
        | Command::Check
        | Command::View => needed(command, 1, needs_of(command), words),
    }
}

/// What the words ask for.
pub fn request_of(words: &[String]) -> Request
    ensures { result ≡ said.request_of (map string_bytes words.now) }
{
    match words {
        [] => Request::Wrong(Wrong::NoCommand),
        [word, after @ ..] => {
            let command = command_of(word.as_str());
            if asks_help(words) {
                Request::Help(command)
            } else if asks_version(words) {
                Request::Version
            } else {
                match command {
                    Some(command) => command_with(command, after),
                    None => Request::Wrong(Wrong::UnknownCommand { place: 0 }),
                }
            }
        }
    }
}
