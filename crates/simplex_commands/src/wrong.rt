//! What is wrong with words, in a line for the person who typed them.
use crate::command::{COMMANDS, Command};
use crate::flag::{FLAGS, Flag, takes_flag};
use crate::help::form_of;
use crate::names::{Named, nearest};
use crate::parameter::Parameter;
use crate::request::Wrong;
use std::alloc::{AllocError, Global};

// The word at a place.
fn word_at(words: &[String], place: usize) -> &str {
    match words.get(place) {
        Some(word) => word.as_str(),
        None => "",
    }
}

// What a parameter is called.
fn parameter_name(parameter: Parameter) -> &'static str {
    match parameter {
        Parameter::Workers => "WORKERS",
        Parameter::Seed => "SEED",
        Parameter::Steps => "STEPS",
        Parameter::Chance => "P",
        Parameter::Line => "LINE",
        Parameter::Folder => "FOLDER",
    }
}

// What a parameter has to be.
fn wanted_words(parameter: Parameter) -> &'static str {
    match parameter {
        Parameter::Workers => "a number from 1 to 64, without a leading zero",
        Parameter::Seed => "a number from 0 to 18446744073709551615, without a leading zero",
        Parameter::Steps => "a number from 0 to 1048576, without a leading zero",
        Parameter::Chance => "a number from 0 to 100, without a leading zero",
        Parameter::Line => "what a line of a run says, in quotes",
        Parameter::Folder => "the name of a folder",
    }
}

// Which of these may have been meant.
fn meant<N: Named>(alloc: Global, word: &str, among: &[N]) -> Result<String, AllocError> {
    match nearest(alloc, word, among)? {
        Some(one) => {
            let name = one.name();
            format!(in alloc; ", did you mean {name}?")
        }
        None => Ok(String::new(alloc)),
    }
}

// The options that a command takes.
fn flags_of(alloc: Global, command: Command) -> Result<Vec<Flag>, AllocError> {
    let mut taken = Vec::new(alloc);
    for flag in &FLAGS {
        if takes_flag(command, *flag) {
            taken.push(*flag)?;
        }
    }
    Ok(taken)
}

fn unknown_command(alloc: Global, word: &str) -> Result<String, AllocError> {
    let meant = meant(alloc, word, &COMMANDS)?;
    format!(in alloc; "\"{word}\" is no command{meant} (letsvaku help lists them)")
}

fn unknown_option(alloc: Global, command: Command, word: &str) -> Result<String, AllocError> {
    let meant = meant(alloc, word, &flags_of(alloc, command)?)?;
    let form = form_of(command);
    format!(in alloc; "\"{word}\" is no option here{meant} (letsvaku {form})")
}

fn unfit(
    alloc: Global,
    command: Command,
    word: &str,
    parameter: Parameter,
) -> Result<String, AllocError> {
    let (name, wanted) = (parameter_name(parameter), wanted_words(parameter));
    let form = form_of(command);
    format!(in alloc; "{name} is \"{word}\", wanted {wanted} (letsvaku {form})")
}

fn missing(alloc: Global, command: Command, parameter: Parameter) -> Result<String, AllocError> {
    let (name, wanted) = (parameter_name(parameter), wanted_words(parameter));
    let form = form_of(command);
    format!(in alloc; "{name} is missing, wanted {wanted} (letsvaku {form})")
}

fn too_many(alloc: Global, command: Command, word: &str) -> Result<String, AllocError> {
    let form = form_of(command);
    format!(in alloc; "\"{word}\" is one word too many (letsvaku {form})")
}

/// The line on what is wrong with these words, without its end: it names the word, and has the form of the command.
pub fn wrong_line(alloc: Global, words: &[String], wrong: Wrong) -> Result<String, AllocError> {
    match wrong {
        Wrong::NoCommand => {
            String::from_str(alloc, "a command is missing (letsvaku help lists them)")
        }
        Wrong::UnknownCommand { place } => unknown_command(alloc, word_at(words, place)),
        Wrong::UnknownOption { command, place } => {
            unknown_option(alloc, command, word_at(words, place))
        }
        Wrong::Unfit {
            command,
            place,
            wanted,
        } => unfit(alloc, command, word_at(words, place), wanted),
        Wrong::Missing { command, wanted } => missing(alloc, command, wanted),
        Wrong::TooMany { command, place } => too_many(alloc, command, word_at(words, place)),
    }
}
