//! Writes an input.
ghost use Rattle.std.specs.Prelude.{◌≡◌, ◌++◌, IfOk, OnOk, string_bytes};
ghost use Rattle.simplex_writer.specs.Inputs.{input_text};

use crate::list::push_list;
use crate::setup::setup_text;
use simplex_transcript::{Event, Setup};
use std::alloc::{AllocError, Global};

/// What stands between two events.
const BETWEEN: &str = ",\n";

/// The text of an input with this setup and these events, with the line's end behind it.
pub fn write_input(alloc: Global, setup: &Setup, events: &[Event]) -> Result<String, AllocError>
    ensures { IfOk result (λ text. string_bytes text ≡ input_text setup.now events.now) }
{
    let setup = setup_text(alloc, setup)?;
    let setup = setup.as_str();
    let mut text = format!(in alloc; "{{\"setup\":{setup},\n\"events\":")?;
    push_list(alloc, &mut text, BETWEEN, events)?;
    text.push_str("}\n")?;
    Ok(text)
}
