//! What words ask for.
use crate::command::Command;
use crate::parameter::Parameter;

/// What words ask for. Places count from 0, which is the command's word.
#[derive(Clone, Copy, Debug, PartialEq, Eq)]
pub enum Request {
    /// What there is to say on a command, or on all of them.
    Help(Option<Command>),
    /// The program's version.
    Version,
    /// The command is done with the words, but for the one at the place of the file, if a file is named.
    Perform {
        command: Command,
        file: Option<usize>,
    },
    /// Nothing is done.
    Wrong(Wrong),
}

/// What is wrong with words.
#[derive(Clone, Copy, Debug, PartialEq, Eq)]
pub enum Wrong {
    /// There is no word.
    NoCommand,
    /// The word at this place is no command.
    UnknownCommand {
        place: usize,
    },
    /// The word at this place is no option of the command.
    UnknownOption {
        command: Command,
        place: usize,
    },
    /// The word at this place is not what it has to be.
    Unfit {
        command: Command,
        place: usize,
        wanted: Parameter,
    },
    /// This is missing behind the last word.
    Missing {
        command: Command,
        wanted: Parameter,
    },
    /// The word at this place is one too many.
    TooMany {
        command: Command,
        place: usize,
    },
}
