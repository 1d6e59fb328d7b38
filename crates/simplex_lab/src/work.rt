//! The program: it takes its words and an input, and does what they ask for.
ghost use Rattle.std.specs.Prelude.{◌≡◌, ◌⊎◌, ℕ, List, IfOk, Ok};
ghost use Rattle.simplex_form.specs.Input.{input_of};
ghost use Rattle.simplex_io.specs.Io.{Adds, AddsPart, Rose};
ghost use Rattle.simplex_front.specs.Cause.{Cause, IsCut};
ghost use Rattle.simplex_front.specs.declared.exit.Exit.{Exit};
ghost use Rattle.simplex_front.specs.declared.exit.Exit.TheVariants as exits;
ghost use Rattle.simplex_lab.specs.declared.told.Told.{Told};
ghost use Rattle.simplex_lab.specs.declared.reason.LabReason.{LabReason};
ghost use Rattle.simplex_lab.specs.About.{SaidOr, said_on};
ghost use Rattle.simplex_lab.specs.Words.{asked, usage};
ghost use Rattle.simplex_lab.specs.declared.words.Word.TheVariants as asks;
ghost use Rattle.simplex_lab.specs.Says.{Answers, Does, Misreads, Refuses};

use crate::about::{about, say};
use crate::reason::LabReason;
use crate::scripting::scripted;
use crate::shrinking::shrunk;
use crate::simulating::simulated;
use crate::told::Told;
use crate::trace::trace;
use crate::words::{Order, Word, word_of};
use simplex_form::read_input;
use simplex_front::{Answer, Exit, Work, program};
use simplex_io::{Sink, Source};
use simplex_types::Bytes;
use std::alloc::{AllocError, Global};

const USAGE: &str =
    "usage: trace | simulate SEED STEPS [--drop P] [--repeat P] [--crash P] [--delay P] [--events] | shrink LINE | script [--events] | --help | --version\n";

/// Does what the words ask for with an input.
pub struct LabWork;

// What an input's run comes to, event by event.
fn on_trace(alloc: Global, bytes: &[u8]) -> Result<Answer<Told, LabReason>, AllocError>
    ensures { IfOk result (Answers asks.Trace bytes.now) }
{
    match read_input(alloc, bytes)? {
        Err(place) => Ok(Answer::BadInput { place }),
        Ok(input) => trace(alloc, &input),
    }
}

// What is made for an input without events.
fn on_simulation(
    alloc: Global,
    order: &Order,
    bytes: &[u8],
) -> Result<Answer<Told, LabReason>, AllocError>
    ensures { IfOk result (Answers (asks.Simulate order.now) bytes.now) }
{
    match read_input(alloc, bytes)? {
        Err(place) => Ok(Answer::BadInput { place }),
        Ok(input) => simulated(alloc, order, &input),
    }
}

// What is left of an input that still makes the line.
fn on_shrink(
    alloc: Global,
    line: &Bytes,
    bytes: &[u8],
) -> Result<Answer<Told, LabReason>, AllocError>
    ensures { IfOk result (Answers (asks.Shrink line.now) bytes.now) }
{
    match read_input(alloc, bytes)? {
        Err(place) => Ok(Answer::BadInput { place }),
        Ok(input) => shrunk(alloc, line.as_slice(), input),
    }
}

impl Work<Word, Told, LabReason> for LabWork {
    ghost asked = { λ work. asked };

    ghost usage_line = { λ work. usage };

    ghost does = { λ work. Does };

    ghost refuses = { λ work. Refuses };

    ghost misreads = { λ work. Misreads };

    fn ask(&self, alloc: Global, words: &[String]) -> Result<Option<Word>, AllocError> {
        word_of(alloc, words)
    }

    fn usage(&self) -> &str {
        USAGE
    }

    fn work(
        &self,
        alloc: Global,
        ask: Word,
        bytes: Vec<u8>,
    ) -> Result<Answer<Told, LabReason>, AllocError> {
        match ask {
            Word::Trace => on_trace(alloc, &bytes),
            Word::Simulate(order) => on_simulation(alloc, &order, &bytes),
            Word::Shrink(line) => on_shrink(alloc, &line, &bytes),
            Word::Script { shows_events } => scripted(alloc, shows_events, &bytes),
        }
    }
}

/// Takes the words, reads the source to its end, and does with the input what the words ask for. Where they ask for words on the
/// program alone, these are written, and nothing is read.
pub fn lab_program<S: Source, K: Sink>(
    alloc: Global,
    words: &[String],
    source: &mut S,
    sink: &mut K,
) -> Exit<Told, LabReason>
    // A write fault comes only where a count of faults rose.
    ensures write_fault { result ≡ exits.WriteFault
        → Rose (K.fault_count sink.old) (K.fault_count sink.new) }

    // What is written is the text of the exit, or where writing or memory failed the first part of the text of an exit that
    // had its cause. `Does`, `Refuses` and `Misreads` say what each word makes of the bytes.
    ensures part { (exit : Exit Told LabReason) × ((text : List ℕ)
        × (SaidOr (said_on words.now) (S.left source.old) (S.left source.new) exit text
        (Cause usage Does Refuses Misreads (asked words.now)
        (S.left source.old) (S.left source.new) (S.fault_count source.old)
        (S.fault_count source.new) exit text)
        × AddsPart (K.written sink.old) text (K.written sink.new)
        × (((result ≡ exit)
        × Adds (K.written sink.old) text (K.written sink.new)) ⊎ IsCut result))) }
{
    match about(words) {
        Some(text) => say(text, sink),
        None => program(alloc, &LabWork, words, source, sink),
    }
}
