//! What the words behind a command are.
ghost use Rattle.std.specs.Prelude.{◌≡◌};
ghost use Rattle.simplex_commands.specs.Commands as said;

use simplex_names::number_of;

/// How many threads step at once at most.
pub const MOST_WORKERS: u64 = 64;

/// How many events a number is asked for at most, and how many choices a simulation makes.
pub const MOST_STEPS: u64 = 1_048_576;

/// What is always, as a chance.
pub const ALWAYS: u64 = 100;

/// What a word has to be.
#[derive(Clone, Copy, Debug, PartialEq, Eq)]
pub enum Parameter {
    /// How many threads there are.
    Workers,
    /// What is drawn is drawn from it.
    Seed,
    /// How many events, or choices.
    Steps,
    /// So many of 100.
    Chance,
    /// What a line of a run says.
    Line,
    /// The name of a folder.
    Folder,
}

// Whether a word is a number, from the one up to the other.
fn is_within(least: u64, most: u64, word: &str) -> bool
    ensures { result ≡ said.is_within least most word.now }
{
    match number_of(word) {
        Some(number) => least <= number && number <= most,
        None => false,
    }
}

/// Whether a word is what it has to be.
#[tactic(auto, unfolding(crate::specs::Commands::fits))]
pub fn fits(parameter: Parameter, word: &str) -> bool
    ensures { result ≡ said.fits parameter word.now }
{
    match parameter {
        Parameter::Workers => is_within(1, MOST_WORKERS, word),
        Parameter::Seed => is_within(0, u64::MAX, word),
        Parameter::Steps => is_within(0, MOST_STEPS, word),
        Parameter::Chance => is_within(0, ALWAYS, word),
        Parameter::Line | Parameter::Folder => true,
    }
}
