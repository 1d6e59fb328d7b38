//! What is said on the program itself.
ghost use Rattle.std.specs.Prelude.{◌≡◌, ◌⊎◌, option_map};
ghost use Rattle.simplex_io.specs.Io.{Adds, AddsPart, Rose};
ghost use Rattle.simplex_front.specs.Cause.{IsCut};
ghost use Rattle.simplex_front.specs.declared.exit.Exit.TheVariants as exits;
ghost use Rattle.simplex_lab.specs.About as about;
ghost use Rattle.simplex_lab.specs.declared.told.Told.TheVariants as tells;

use crate::reason::LabReason;
use crate::told::Told;
use simplex_front::{Exit, is_word};
use simplex_io::{Sink, SinkError, write_text};

const HELP: &str =
    "trace                      tells what each event of an input did; of a refused run also why, and what was open then
simulate SEED STEPS ..     makes events for a setup without events, and tells what they report
    SEED                   0 to 18446744073709551615: what is drawn is drawn from it
    STEPS                  0 to 1048576 choices, of which each makes one event or none
    --drop P               of 100 packets so many are lost: 0 to 100
    --repeat P             so many are delivered twice: 0 to 100
    --delay P              so many are delivered behind all that waits: 0 to 100
    --crash P              of 100 steps so many are crashes, after which the node starts again: 0 to 100
    --events               writes the input that was made, in place of what it reports
shrink LINE                leaves events out while the run still makes the line, and writes the input that is left
    LINE                   what a line of a run says behind its event, as 'node 0.0 stopped crash', or 'refused NoPacket'
script [--events]          reads a script in place of an input, and writes it with what each line came to below it
    --events               writes the input that has its events, in place of the script
--help                     this text
--version                  the program's version
An input, or a script, is read from standard input.
";

const VERSION: &str = "simplex_lab 1.0.0\n";

/// What is said where the words ask for words on the program alone.
pub(crate) fn about(words: &[String]) -> Option<&'static str>
    ensures { option_map (λ text. text.now) result ≡ about.said_on words.now }
{
    if is_word(words, "--help") {
        Some(HELP)
    } else if is_word(words, "--version") {
        Some(VERSION)
    } else {
        None
    }
}

/// Writes words on the program.
pub(crate) fn say<K: Sink>(text: &str, sink: &mut K) -> Exit<Told, LabReason>
    ensures whole { ((result ≡ exits.Done tells.Words) × Adds (K.written sink.old) text.now (K.written sink.new))
        ⊎ IsCut result }
    ensures part { AddsPart (K.written sink.old) text.now (K.written sink.new) }
    ensures fault { result ≡ exits.WriteFault
        → Rose (K.fault_count sink.old) (K.fault_count sink.new) }
{
    match write_text(sink, text.as_bytes()) {
        Ok(()) => Exit::Done(Told::Words),
        Err(SinkError::Memory) => Exit::Memory,
        Err(SinkError::Failed) => Exit::WriteFault,
    }
}
