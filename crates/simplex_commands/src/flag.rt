//! The options, and which command takes them.
ghost use Rattle.std.specs.Prelude.{◌≡◌};
ghost use Rattle.simplex_commands.specs.Commands as said;

use crate::command::Command;
use crate::parameter::Parameter;

/// An option.
#[derive(Clone, Copy, Debug, PartialEq, Eq)]
pub enum Flag {
    /// Packets are lost.
    Drop,
    /// Packets are delivered twice.
    Repeat,
    /// Packets are delivered late.
    Delay,
    /// Nodes crash.
    Crash,
    /// The input with the events is written.
    Events,
    /// Where the files of the page are.
    Page,
}

/// All options.
pub const FLAGS: [Flag; 6] = [
    Flag::Drop,
    Flag::Repeat,
    Flag::Delay,
    Flag::Crash,
    Flag::Events,
    Flag::Page,
];

/// The word for an option.
pub fn flag_word(flag: Flag) -> &'static str
    ensures { result.now ≡ said.flag_word flag }
{
    match flag {
        Flag::Drop => "--drop",
        Flag::Repeat => "--repeat",
        Flag::Delay => "--delay",
        Flag::Crash => "--crash",
        Flag::Events => "--events",
        Flag::Page => "--page",
    }
}

/// The option that a word is, if there is one.
#[tactic(auto, unfolding(crate::specs::Commands::flag_of))]
pub fn flag_of(word: &str) -> Option<Flag>
    ensures { result ≡ said.flag_of word.now }
{
    match word {
        "--drop" => Some(Flag::Drop),
        "--repeat" => Some(Flag::Repeat),
        "--delay" => Some(Flag::Delay),
        "--crash" => Some(Flag::Crash),
        "--events" => Some(Flag::Events),
        "--page" => Some(Flag::Page),
        _ => None,
    }
}

// Whether a simulation takes the option.
fn is_of_simulation(flag: Flag) -> bool
    ensures { result ≡ said.is_of_simulation flag }
{
    match flag {
        Flag::Drop | Flag::Repeat | Flag::Delay | Flag::Crash | Flag::Events => true,
        Flag::Page => false,
    }
}

// Whether the option is for the events.
fn is_events(flag: Flag) -> bool
    ensures { result ≡ said.is_events flag }
{
    match flag {
        Flag::Events => true,
        Flag::Drop | Flag::Repeat | Flag::Delay | Flag::Crash | Flag::Page => false,
    }
}

// Whether the option is for the page.
fn is_page(flag: Flag) -> bool
    ensures { result ≡ said.is_page flag }
{
    match flag {
        Flag::Page => true,
        Flag::Drop | Flag::Repeat | Flag::Delay | Flag::Crash | Flag::Events => false,
    }
}

/// Whether the command takes the option.
#[tactic(auto, unfolding(crate::specs::Commands::takes_flag))]
pub fn takes_flag(command: Command, flag: Flag) -> bool
    ensures { result ≡ said.takes_flag command flag }
{
    match command {
        Command::Simulate => is_of_simulation(flag),
        Command::Script => is_events(flag),
        Command::View => is_page(flag),
        Command::Run
        | Command::Par
        | Command::Gen
        | Command::Trace
        | Command::Shrink
        | Command::Logs
        | Command::Balances
        | Command::Chain
        | Command::Record
        | Command::Check
        | Command::Help
        | Command::Version => false,
    }
}

/// What stands behind the option, if anything does.
#[tactic(auto, unfolding(crate::specs::Commands::value_of))]
pub fn value_of(flag: Flag) -> Option<Parameter>
    ensures { result ≡ said.value_of flag }
{
    match flag {
        Flag::Drop | Flag::Repeat | Flag::Delay | Flag::Crash => Some(Parameter::Chance),
        Flag::Events => None,
        Flag::Page => Some(Parameter::Folder),
    }
}
