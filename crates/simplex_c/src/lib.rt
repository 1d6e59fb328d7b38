//! The run of an input behind one call, for programs in C and in Rust: what `simplex_net run` writes of it, and its status.
#![tactic(auto)]

ghost use Rattle.std.specs.Prelude.{◌≡◌, ◌⊎◌, length};
ghost use Rattle.simplex_c.specs.Filled.{filled};
ghost use Rattle.simplex_c.specs.Told.{told_of};

mod answer;
mod filling;
#[cfg(test)]
mod tests;

use crate::answer::answer_to;
use crate::filling::fill;
use std::alloc::Global;

// The status where there is no memory.
const NO_MEMORY: u8 = 7;

/// Runs the setup and the events that the input says, in the form of docs/INPUT.md. The answer is the status of `simplex_net run`: 0 the
/// run is whole, 1 an event or the setup is refused, 3 the input is not of the form, 4 it is longer than that program reads, 7 there is
/// no memory for it. `size` gets the length of what that program writes, and `text` its first bytes, as many as there is room for. Where
/// there is no memory nothing is written, and `size` is 0.
#[unsafe(no_mangle)]
pub extern "C" fn simplex_run(alloc: Global, input: &[u8], text: &mut [u8], size: &mut usize) -> u8
    ensures answers { ((result ≡ (told_of input.now).status)
        × (size.new ≡ length (told_of input.now).text)
        × (text.new ≡ filled text.old (told_of input.now).text))
        ⊎ ((result ≡ 7) × (size.new ≡ 0) × (text.new ≡ text.old)) }
{
    match answer_to(alloc, input) {
        Ok(answer) => {
            let told = answer.text.as_bytes();
            fill(text, told);
            *size = told.len();
            answer.status
        }
        Err(_) => {
            *size = 0;
            NO_MEMORY
        }
    }
}
