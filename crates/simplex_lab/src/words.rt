//! The words that the program takes.
ghost use Rattle.std.specs.Prelude.{◌≡◌, ◌∷◌, ◌<◌, ◌≤◌, ◌^◌, ℕ, List, map, IfOk, string_bytes};
ghost use Rattle.simplex_lab.specs.Words as said;

use simplex_names::number_of;
use simplex_simulator::{Chances, Plan};
use simplex_types::{Bytes, Sequence};
use std::alloc::{AllocError, Global};

/// How many choices a simulation makes at most.
pub const MOST_STEPS: u64 = 1_048_576;

/// What is always.
pub const ALWAYS: u64 = 100;

/// Which run is simulated, and what is told of it.
#[derive(Clone, Copy, Debug, PartialEq, Eq)]
pub struct Order {
    /// How the events are made.
    pub plan: Plan,
    /// Whether the input that has the events is written, in place of what comes of them.
    pub shows_events: bool,
}

/// What the words ask for.
#[derive(Debug, PartialEq, Eq, Drop)]
pub enum Word {
    /// `trace`: a line on each event of the input.
    Trace,
    /// `simulate SEED STEPS OPTION ..`: events are made for the setup of the input.
    Simulate(Order),
    /// `shrink LINE`: events are left out while the run still makes the line.
    Shrink(Bytes),
    /// `script`, or `script --events`: a script with what came out, or the input that has its events.
    Script { shows_events: bool },
}

// The number that a word is, where it is no greater than this.
fn number_up_to(most: u64, word: &String) -> Option<u64>
    ensures { result ≡ said.number_up_to most (string_bytes word.now) }
{
    let number = number_of(word.as_str())?;
    if number <= most { Some(number) } else { None }
}

// The chances, with one of them set by its name.
fn with_chance(chances: &Chances, name: &str, chance: u64) -> Option<Chances>
    ensures { result ≡ said.with_chance chances.now name.now chance }
{
    let chances = *chances;
    match name {
        "--drop" => Some(Chances {
            drop: chance,
            ..chances
        }),
        "--repeat" => Some(Chances {
            repeat: chance,
            ..chances
        }),
        "--crash" => Some(Chances {
            crash: chance,
            ..chances
        }),
        "--delay" => Some(Chances {
            delay: chance,
            ..chances
        }),
        _ => None,
    }
}

// The order, with a chance that two words say.
fn with_option(order: &Order, name: &String, value: &String) -> Option<Order>
    ensures { result ≡ said.with_option order.now (string_bytes name.now) (string_bytes value.now) }
{
    let chance = number_up_to(ALWAYS, value)?;
    let chances = with_chance(&order.plan.chances, name.as_str(), chance)?;
    Some(Order {
        plan: Plan {
            seed: order.plan.seed,
            steps: order.plan.steps,
            chances,
        },
        shows_events: order.shows_events,
    })
}

fn showing(order: &Order) -> Order
    ensures { result ≡ said.showing order.now }
{
    Order {
        plan: order.plan,
        shows_events: true,
    }
}

// The order, with what these words say.
#[cycle(options)]
fn with_options(order: &Order, options: &[String]) -> Option<Order>
    ensures { result ≡ said.with_options order.now (map string_bytes options.now) }
{
    match options {
        [] => Some(*order),
        [name, after @ ..] if name.as_str() == "--events" => with_options(&showing(order), after),
        [name, after @ ..] => with_value(order, name, after),
    }
}

// The order, with the option of this name, whose value comes first, and what the other words say.
#[cycle(options)]
fn with_value(order: &Order, name: &String, after: &[String]) -> Option<Order>
    ensures { result ≡ said.with_value order.now (string_bytes name.now)
        (map string_bytes after.now) }
{
    match after {
        [] => None,
        [value, later @ ..] => with_options(&with_option(order, name, value)?, later),
    }
}

// A simulation of a seed and so many choices, in which nothing goes wrong.
fn order_of(seed: u64, steps: u64) -> Order
    ensures { result ≡ said.order_of seed steps }
{
    Order {
        plan: Plan {
            seed,
            steps,
            chances: Chances {
                drop: 0,
                repeat: 0,
                crash: 0,
                delay: 0,
            },
        },
        shows_events: false,
    }
}

// `SEED STEPS OPTION ..`.
fn simulation_of(words: &[String]) -> Option<Word>
    ensures { result ≡ said.simulation_of (map string_bytes words.now) }
{
    match words {
        [] => None,
        [seed, after @ ..] => simulation_from(number_of(seed.as_str())?, after),
    }
}

// `STEPS OPTION ..`.
fn simulation_from(seed: u64, words: &[String]) -> Option<Word>
    ensures { result ≡ said.simulation_from seed (map string_bytes words.now) }
{
    match words {
        [] => None,
        [steps, options @ ..] => {
            let steps = number_up_to(MOST_STEPS, steps)?;
            let order = with_options(&order_of(seed, steps), options)?;
            Some(Word::Simulate(order))
        }
    }
}

// The words, with a space between two of them.
fn joined(alloc: Global, first: &String, others: &[String]) -> Result<Vec<u8>, AllocError>
    ensures { IfOk result (λ line. line.items
        ≡ said.joined (string_bytes first.now) (map string_bytes others.now)) }
{
    let mut line = first.as_bytes().to_vec(alloc)?;
    let mut rest = others;
    while let [word, after @ ..] = rest {
        line.extend_from_slice(b" ")?;
        line.extend_from_slice(word.as_bytes())?;
        rest = after;
    }
    Ok(line)
}

// `LINE`: of one word or of more.
fn shrink_of(alloc: Global, words: &[String]) -> Result<Option<Word>, AllocError>
    ensures { IfOk result (λ word. word ≡ said.shrink_of (map string_bytes words.now)) }
{
    match words {
        [] => Ok(None),
        [first, others @ ..] => {
            let line = joined(alloc, first, others)?;
            Ok(Some(Word::Shrink(Sequence::from_vec(line))))
        }
    }
}

fn trace_of(words: &[String]) -> Option<Word>
    ensures { result ≡ said.trace_of (map string_bytes words.now) }
{
    if words.is_empty() {
        Some(Word::Trace)
    } else {
        None
    }
}

// `--events`, and nothing behind it.
fn shown_script(word: &String, after: &[String]) -> Option<Word>
    ensures { result ≡ said.script_of (string_bytes word.now ∷ map string_bytes after.now) }
{
    if word.as_str() == "--events" && after.is_empty() {
        Some(Word::Script { shows_events: true })
    } else {
        None
    }
}

// Nothing, or `--events`.
fn script_of(words: &[String]) -> Option<Word>
    ensures { result ≡ said.script_of (map string_bytes words.now) }
{
    match words {
        [] => Some(Word::Script {
            shows_events: false,
        }),
        [word, after @ ..] => shown_script(word, after),
    }
}

// What the first word asks for, with the others.
fn word_with(alloc: Global, word: &String, others: &[String]) -> Result<Option<Word>, AllocError>
    ensures { IfOk result (λ it. it
        ≡ said.asked_with (string_bytes word.now) (map string_bytes others.now)) }
{
    match word.as_str() {
        "trace" => Ok(trace_of(others)),
        "simulate" => Ok(simulation_of(others)),
        "shrink" => shrink_of(alloc, others),
        "script" => Ok(script_of(others)),
        _ => Ok(None),
    }
}

/// What the words ask for, if they are such as the program takes.
pub(crate) fn word_of(alloc: Global, words: &[String]) -> Result<Option<Word>, AllocError>
    ensures { IfOk result (λ word. word ≡ said.asked words.now) }
{
    match words {
        [] => Ok(None),
        [word, others @ ..] => word_with(alloc, word, others),
    }
}

/// Whether the first word is that for a script.
pub fn begins_script(words: &[String]) -> bool
    ensures { result ≡ said.begins_script (map string_bytes words.now) }
{
    match words {
        [] => false,
        [word, ..] => word.as_str() == "script",
    }
}
