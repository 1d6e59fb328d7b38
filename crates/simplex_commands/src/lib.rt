//! The words of a command line: which command they ask for, with which file, or what is wrong with them.
//!
//! [`request_of`] reads the words and decides nothing else. What is wrong is a value too: [`wrong_line`] says it in a line, which names
//! the word and has the form of the command, and for a word that is no command the one that is nearest ([`nearest`]).
#![tactic(auto)]

mod command;
mod flag;
mod help;
mod names;
mod parameter;
mod reading;
mod request;
mod wrong;

pub use command::{COMMANDS, Command, command_of, command_word, needs_of, takes_file};
pub use flag::{FLAGS, Flag, flag_of, flag_word, takes_flag, value_of};
pub use help::{VERSION, form_of, help_text};
pub use names::{MOST_EDITS, Named, nearest};
pub use parameter::{ALWAYS, MOST_STEPS, MOST_WORKERS, Parameter, fits};
pub use reading::request_of;
pub use request::{Request, Wrong};
pub use wrong::wrong_line;
