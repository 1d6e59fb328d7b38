//! The words that the program takes.
ghost use Rattle.std.specs.Prelude.{◌≡◌, ◌<◌, ◌^◌, ◌∷◌, ℕ, [], IfOk, IfSome, IfNone, decimal, string_bytes};
ghost use Rattle.simplex_program.specs.Words.{Says, AreTaken};

use std::alloc::{AllocError, Global};

/// How many events a number is asked for at most.
pub const MOST_STEPS: u64 = 1_048_576;

/// How many workers step at once at most.
pub const MOST_WORKERS: u32 = 64;

/// What the words ask for.
#[derive(Clone, Copy, Debug, PartialEq, Eq)]
pub enum Command {
    /// `run`: the setup and the events that the source says.
    Run,
    /// `par WORKERS`: the same, by so many workers.
    Par { workers: u32 },
    /// `gen NUMBER STEPS`: the events that the number makes, so many of them.
    Gen { number: u64, steps: u64 },
}

/// What the words ask for, if they are such as the program takes.
pub(crate) fn command_of(alloc: Global, words: &[String]) -> Result<Option<Command>, AllocError>
    ensures some { IfOk result (λ it. IfSome it (Says words.now)) }
    ensures none { IfOk result (λ it. IfNone it (¬ AreTaken words.now)) }
{
    match words {
        [word] => Ok(run_of(word)),
        [word, workers] => workers_of(alloc, word, workers),
        [word, number, steps] => generation_of(alloc, word, number, steps),
        _ => Ok(None),
    }
}

// What one word asks for.
fn run_of(word: &String) -> Option<Command>
    ensures some { IfSome result (Says (word.now ∷ [])) }
    ensures none { IfNone result (¬ AreTaken (word.now ∷ [])) }
{
    if word.as_str() == "run" {
        Some(Command::Run)
    } else {
        None
    }
}

// What two words ask for.
fn workers_of(alloc: Global, word: &String, workers: &String) -> Result<Option<Command>, AllocError>
    ensures some { IfOk result (λ it. IfSome it (Says (word.now ∷ workers.now ∷ []))) }
    ensures none { IfOk result (λ it. IfNone it (¬ AreTaken (word.now ∷ workers.now ∷ []))) }
{
    if word.as_str() != "par" {
        return Ok(None);
    }
    let Some(workers) = number_in(alloc, workers)? else {
        return Ok(None);
    };
    if workers < 1 || workers > u64::from(MOST_WORKERS) {
        return Ok(None);
    }
    Ok(Some(Command::Par {
        workers: workers as u32,
    }))
}

// What three words ask for.
fn generation_of(
    alloc: Global,
    word: &String,
    number: &String,
    steps: &String,
) -> Result<Option<Command>, AllocError>
    ensures some { IfOk result (λ it. IfSome it (Says (word.now ∷ number.now ∷ steps.now ∷ []))) }
    ensures none { IfOk result
        (λ it. IfNone it (¬ AreTaken (word.now ∷ number.now ∷ steps.now ∷ []))) }
{
    if word.as_str() != "gen" {
        return Ok(None);
    }
    let Some(number) = number_in(alloc, number)? else {
        return Ok(None);
    };
    let Some(steps) = number_in(alloc, steps)? else {
        return Ok(None);
    };
    if steps > MOST_STEPS {
        return Ok(None);
    }
    Ok(Some(Command::Gen { number, steps }))
}

// The number that a word is. It is written as it would be printed.
fn number_in(alloc: Global, word: &String) -> Result<Option<u64>, AllocError>
    ensures some { IfOk result (λ it. IfSome it
        (λ number. string_bytes word.now ≡ decimal number)) }
    ensures none { IfOk result (λ it. IfNone it ((number : ℕ) → number < 2 ^ 64
        → string_bytes word.now ≡ decimal number → ⊥)) }
{
    let Ok(number) = word.as_str().parse::<u64>() else {
        return Ok(None);
    };
    let printed = format!(in alloc; "{number}")?;
    if printed.as_str() == word.as_str() {
        Ok(Some(number))
    } else {
        Ok(None)
    }
}
