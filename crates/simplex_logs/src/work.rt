//! The program that writes the logs of a run.
ghost use Rattle.std.specs.Prelude.{◌≡◌, ◌⊎◌, ℕ, List, IfOk};
ghost use Rattle.simplex_transcript.specs.declared.refusal.Refusal.{Refusal};
ghost use Rattle.simplex_text.specs.Refusals.{refusal_text};
ghost use Rattle.model_run.specs.Setting.{at_epoch_genesis};
ghost use Rattle.simplex_run.specs.WholeRuns.{WholeRunFrom};
ghost use Rattle.simplex_io.specs.Io.{Adds, AddsPart, Rose};
ghost use Rattle.simplex_front.specs.Answer.{IsAnswer};
ghost use Rattle.simplex_front.specs.Cause.{Cause, IsCut};
ghost use Rattle.simplex_front.specs.declared.exit.Exit.{Exit};
ghost use Rattle.simplex_front.specs.declared.exit.Exit.TheVariants as exits;
ghost use Rattle.simplex_logs.specs.declared.work.LogsDone.{LogsDone};
ghost use Rattle.simplex_logs.specs.Says.{AreLogged, IsMisread, IsRefused, LogsSay, RefusalSays, asks_for_logs, usage};

use crate::node_logs::{NodeLog, logs};
use crate::text::lines;
use law_log::logs_of_a_whole_run;
use simplex_form::{Input, read_input};
use simplex_front::{Answer, Exit, Work, is_word, program};
use simplex_io::{Sink, Source};
use simplex_run::{Transcript, run_network};
use simplex_text::refusal_text;
use simplex_transcript::{Refusal, RunError};
use simplex_types::Sequence;
use std::alloc::{AllocError, Global};

const USAGE: &str = "usage: logs\n";

/// What comes of a whole run.
#[derive(Drop)]
pub struct LogsDone {
    /// The run.
    pub transcript: Transcript,
    /// The log of each honest member's node, in rising order.
    pub logs: Sequence<NodeLog>,
}

/// Runs the events of an input, and tells the log of each honest node.
pub struct LogWork;

// The logs of a whole run of the input, and their lines.
#[tactic(auto, using(crate::proofs::Logged::made_logged, crate::proofs::Logged::is_transcript))]
fn tell(
    alloc: Global,
    input: &Input,
    transcript: Transcript,
) -> Result<Answer<LogsDone, Refusal>, AllocError>
    requires { WholeRunFrom (at_epoch_genesis input.now.setup) input.now.events transcript }
    ensures { IfOk result (IsAnswer (AreLogged input.now) (λ refusal text. ⊥) (λ place. ⊥)) }
{
    logs_of_a_whole_run();
    let logs = logs(alloc, &input.setup, transcript.entries.as_slice())?;
    let text = lines(alloc, logs.as_slice())?;
    Ok(Answer::Done {
        done: LogsDone { transcript, logs },
        text,
    })
}

// The line on a refusal, which is not want of memory.
fn refuse(alloc: Global, refusal: Refusal) -> Result<Answer<LogsDone, Refusal>, AllocError>
    ensures { IfOk result (IsAnswer (λ done text. ⊥)
        (λ reason text. (reason ≡ refusal) × (text ≡ refusal_text refusal)) (λ place. ⊥)) }
{
    let text = refusal_text(alloc, &refusal)?;
    Ok(Answer::Refused {
        reason: refusal,
        text,
    })
}

// What the run of an input comes to.
#[tactic(auto, using(crate::proofs::Logged::made_whole, crate::proofs::Logged::told_as, crate::proofs::Logged::refused_as))]
fn answer(alloc: Global, input: &Input) -> Result<Answer<LogsDone, Refusal>, AllocError>
    ensures { IfOk result (IsAnswer (AreLogged input.now) (IsRefused input.now) (λ place. ⊥)) }
{
    match run_network(alloc, &input.setup, input.events.as_slice()) {
        Ok(transcript) => tell(alloc, input, transcript),
        Err(refusal) => {
            if matches!(refusal.error, RunError::Memory) {
                return Err(AllocError);
            }
            refuse(alloc, refusal)
        }
    }
}

impl Work<(), LogsDone, Refusal> for LogWork {
    ghost asked = { λ work. asks_for_logs };

    ghost usage_line = { λ work. usage };

    ghost does = { λ work ask. LogsSay };

    ghost refuses = { λ work ask. RefusalSays };

    ghost misreads = { λ work ask. IsMisread };

    fn ask(&self, alloc: Global, words: &[String]) -> Result<Option<()>, AllocError> {
        let _alloc = alloc;
        Ok(if is_word(words, "logs") {
            Some(())
        } else {
            None
        })
    }

    fn usage(&self) -> &str {
        USAGE
    }

    fn work(
        &self,
        alloc: Global,
        ask: (),
        bytes: Vec<u8>,
    ) -> Result<Answer<LogsDone, Refusal>, AllocError> {
        let () = ask;
        match read_input(alloc, &bytes)? {
            Err(place) => Ok(Answer::BadInput { place }),
            Ok(input) => answer(alloc, &input),
        }
    }
}

/// Where the words are `logs` alone, reads the source to its end, runs the events that it says, and writes the logs of the honest
/// nodes, line by line.
pub fn log_program<S: Source, K: Sink>(
    alloc: Global,
    words: &[String],
    source: &mut S,
    sink: &mut K,
) -> Exit<LogsDone, Refusal>
    // A write fault comes only where a count of faults rose.
    ensures write_fault { result ≡ exits.WriteFault
        → Rose (K.fault_count sink.old) (K.fault_count sink.new) }

    // What is written is the text of the exit, or where writing or memory failed the first part of the text of an exit that
    // had its cause. Of a whole run these are the lines of what each honest node reported, and of the logs of any two nodes
    // at any two points one begins the other.
    ensures part { (exit : Exit LogsDone Refusal) × ((text : List ℕ)
        × (Cause usage (λ ask. LogsSay) (λ ask. RefusalSays)
        (λ ask. IsMisread) (asks_for_logs words.now)
        (S.left source.old) (S.left source.new) (S.fault_count source.old)
        (S.fault_count source.new) exit text
        × AddsPart (K.written sink.old) text (K.written sink.new)
        × (((result ≡ exit)
        × Adds (K.written sink.old) text (K.written sink.new)) ⊎ IsCut result))) }
{
    program(alloc, &LogWork, words, source, sink)
}
