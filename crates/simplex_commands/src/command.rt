//! The commands, and what each of them takes.
ghost use Rattle.std.specs.Prelude.{◌≡◌};
ghost use Rattle.simplex_commands.specs.Commands as said;

use crate::parameter::Parameter;

/// What is done.
#[derive(Clone, Copy, Debug, PartialEq, Eq)]
pub enum Command {
    /// The events of an input are run, one after another.
    Run,
    /// The same, with several threads.
    Par,
    /// The events that a number makes are run.
    Gen,
    /// A line on each event, also up to a refusal.
    Trace,
    /// A script is played.
    Script,
    /// Events are made for a setup.
    Simulate,
    /// Events are left out while a line is still made.
    Shrink,
    /// The finalized log of each honest node.
    Logs,
    /// The balances that blocks make of accounts.
    Balances,
    /// The chain of each member over several epochs.
    Chain,
    /// The record of a run.
    Record,
    /// The verdict on a record.
    Check,
    /// A page that shows a run.
    View,
    /// What there is to say on a command, or on all of them.
    Help,
    /// The program's version.
    Version,
}

/// All commands, in the order of the help.
pub const COMMANDS: [Command; 15] = [
    Command::Run,
    Command::Par,
    Command::Gen,
    Command::Trace,
    Command::Script,
    Command::Simulate,
    Command::Shrink,
    Command::Logs,
    Command::Balances,
    Command::Chain,
    Command::Record,
    Command::Check,
    Command::View,
    Command::Help,
    Command::Version,
];

/// The word for a command.
pub fn command_word(command: Command) -> &'static str
    ensures { result.now ≡ said.command_word command }
{
    match command {
        Command::Run => "run",
        Command::Par => "par",
        Command::Gen => "gen",
        Command::Trace => "trace",
        Command::Script => "script",
        Command::Simulate => "simulate",
        Command::Shrink => "shrink",
        Command::Logs => "logs",
        Command::Balances => "balances",
        Command::Chain => "chain",
        Command::Record => "record",
        Command::Check => "check",
        Command::View => "view",
        Command::Help => "help",
        Command::Version => "version",
    }
}

/// The command that a word asks for, if there is one.
#[tactic(auto, unfolding(crate::specs::Commands::command_of))]
pub fn command_of(word: &str) -> Option<Command>
    ensures { result ≡ said.command_of word.now }
{
    match word {
        "run" => Some(Command::Run),
        "par" => Some(Command::Par),
        "gen" => Some(Command::Gen),
        "trace" => Some(Command::Trace),
        "script" => Some(Command::Script),
        "simulate" => Some(Command::Simulate),
        "shrink" => Some(Command::Shrink),
        "logs" => Some(Command::Logs),
        "balances" => Some(Command::Balances),
        "chain" => Some(Command::Chain),
        "record" => Some(Command::Record),
        "check" => Some(Command::Check),
        "view" => Some(Command::View),
        "help" => Some(Command::Help),
        "version" => Some(Command::Version),
        _ => None,
    }
}

/// What has to stand behind the command's word, in this order.
pub fn needs_of(command: Command) -> &'static [Parameter]
    ensures { result.now ≡ said.needs_of command }
{
    match command {
        Command::Par => &[Parameter::Workers],
        Command::Gen | Command::Simulate => &[Parameter::Seed, Parameter::Steps],
        Command::Shrink => &[Parameter::Line],
        Command::Run
        | Command::Trace
        | Command::Script
        | Command::Logs
        | Command::Balances
        | Command::Chain
        | Command::Record
        | Command::Check
        | Command::View
        | Command::Help
        | Command::Version => &[],
    }
}

/// Whether the command reads an input, for which a file may be named.
#[tactic(auto, unfolding(crate::specs::Commands::takes_file))]
pub fn takes_file(command: Command) -> bool
    ensures { result ≡ said.takes_file command }
{
    match command {
        Command::Gen | Command::Help | Command::Version => false,
        Command::Run
        | Command::Par
        | Command::Trace
        | Command::Script
        | Command::Simulate
        | Command::Shrink
        | Command::Logs
        | Command::Balances
        | Command::Chain
        | Command::Record
        | Command::Check
        | Command::View => true,
    }
}
