//! The program that writes the chains of epochs.
ghost use Rattle.std.specs.Prelude.{◌≡◌, ◌⊎◌, ◌<◌, ℕ, List, Ok, Err, IfOk, false};
ghost use Rattle.simplex_io.specs.Io.{Adds, AddsPart, Rose};
ghost use Rattle.simplex_front.specs.Answer.{IsAnswer};
ghost use Rattle.simplex_front.specs.Cause.{Cause, IsCut};
ghost use Rattle.simplex_front.specs.declared.exit.Exit.{Exit};
ghost use Rattle.simplex_front.specs.declared.exit.Exit.TheVariants as exits;
ghost use Rattle.model_epochs.specs.Epochs.{Epochs};
ghost use Rattle.simplex_epochs.specs.declared.reason.ChainReason.{ChainReason};
ghost use Rattle.simplex_epochs.specs.declared.work.ChainDone.{ChainDone};
ghost use Rattle.simplex_epochs.specs.Runs.{AreEpochRuns, inputs_of, is_memory, rans_of};
ghost use Rattle.simplex_epochs.specs.Says.{AreChained, ChainSays, IsMisread, IsRefused, ReasonSays, asks_for_chains, usage};

use crate::epoch::EpochRun;
use crate::form::{ChainInput, read_chain_input};
use crate::reason::{ChainReason, reason_of, reason_text};
use crate::run::run_epochs;
use crate::text::chain_lines;
use law_epochs::{chains_of_whole_runs, epochs_are_linked};
use model_epochs::EpochError;
use simplex_front::{Answer, Exit, Work, is_word, program};
use simplex_io::{Sink, Source};
use simplex_types::Sequence;
use std::alloc::{AllocError, Global};

const USAGE: &str = "usage: chain\n";

/// What comes of epochs.
#[derive(Drop)]
pub struct ChainDone {
    /// The run of each epoch.
    pub runs: Sequence<EpochRun>,
}

/// Runs the epochs of an input, and tells the chain of each member that exists and is honest in each of them.
pub struct ChainWork;

// The lines on the runs of the epochs of the input.
#[tactic(auto, using(crate::proofs::Chained::made_chained))]
fn tell(
    alloc: Global,
    input: &ChainInput,
    runs: Sequence<EpochRun>,
) -> Result<Answer<ChainDone, ChainReason>, AllocError>
    requires height { 0 < input.now.height }
    requires ran { Epochs input.now.height (inputs_of input.now.epochs) ≡ Ok (rans_of runs) }
    requires whole { AreEpochRuns input.now.height input.now.epochs runs }
    ensures { IfOk result (IsAnswer (AreChained input.now) (IsRefused input.now) (λ place. ⊥)) }
{
    epochs_are_linked();
    chains_of_whole_runs();
    let text = chain_lines(
        alloc,
        runs.as_slice(),
        input.epochs.as_slice(),
        input.height,
    )?;
    Ok(Answer::Done {
        done: ChainDone { runs },
        text,
    })
}

// The line on an error, which is not want of memory.
#[tactic(auto, using(crate::proofs::Chained::told_reason))]
fn refuse(
    alloc: Global,
    input: &ChainInput,
    error: EpochError,
) -> Result<Answer<ChainDone, ChainReason>, AllocError>
    requires { is_memory error ≡ false
        → Epochs input.now.height (inputs_of input.now.epochs) ≡ Err error }
    ensures { IfOk result (IsAnswer (AreChained input.now) (IsRefused input.now) (λ place. ⊥)) }
{
    let _input = input;
    let Some(reason) = reason_of(error) else {
        return Err(AllocError);
    };
    let text = reason_text(alloc, &reason)?;
    Ok(Answer::Refused { reason, text })
}

// What the runs of an input come to.
fn answer(alloc: Global, input: &ChainInput) -> Result<Answer<ChainDone, ChainReason>, AllocError>
    requires { 0 < input.now.height }
    ensures { IfOk result (IsAnswer (AreChained input.now) (IsRefused input.now) (λ place. ⊥)) }
{
    match run_epochs(alloc, input.height, input.epochs.as_slice()) {
        Ok(runs) => tell(alloc, input, runs),
        Err(error) => refuse(alloc, input, error),
    }
}

impl Work<(), ChainDone, ChainReason> for ChainWork {
    ghost asked = { λ work. asks_for_chains };

    ghost usage_line = { λ work. usage };

    ghost does = { λ work ask. ChainSays };

    ghost refuses = { λ work ask. ReasonSays };

    ghost misreads = { λ work ask. IsMisread };

    fn ask(&self, alloc: Global, words: &[String]) -> Result<Option<()>, AllocError> {
        let _alloc = alloc;
        Ok(if is_word(words, "chain") {
            Some(())
        } else {
            None
        })
    }

    fn usage(&self) -> &str {
        USAGE
    }

    fn work(
        &self,
        alloc: Global,
        ask: (),
        bytes: Vec<u8>,
    ) -> Result<Answer<ChainDone, ChainReason>, AllocError> {
        let () = ask;
        match read_chain_input(alloc, &bytes)? {
            Err(place) => Ok(Answer::BadInput { place }),
            Ok(input) => answer(alloc, &input),
        }
    }
}

/// Where the words are `chain` alone, reads the source to its end, runs the epochs that it says, and writes the genesis digest of each
/// but the first and the chain of each member that is honest in all, line by line.
pub fn epochs_program<S: Source, K: Sink>(
    alloc: Global,
    words: &[String],
    source: &mut S,
    sink: &mut K,
) -> Exit<ChainDone, ChainReason>
    // A write fault comes only where a count of faults rose.
    ensures write_fault { result ≡ exits.WriteFault
        → Rose (K.fault_count sink.old) (K.fault_count sink.new) }

    // What is written is the text of the exit, or where writing or memory failed the first part of the text of an exit that
    // had its cause. Of whole epochs these are their genesis digests and the chains of their members; each epoch's run is
    // safe, its requests on view 0 name its genesis digest, and of any two chains one begins the other.
    ensures part { (exit : Exit ChainDone ChainReason) × ((text : List ℕ)
        × (Cause usage (λ ask. ChainSays) (λ ask. ReasonSays)
        (λ ask. IsMisread) (asks_for_chains words.now)
        (S.left source.old) (S.left source.new) (S.fault_count source.old)
        (S.fault_count source.new) exit text
        × AddsPart (K.written sink.old) text (K.written sink.new)
        × (((result ≡ exit)
        × Adds (K.written sink.old) text (K.written sink.new)) ⊎ IsCut result))) }
{
    program(alloc, &ChainWork, words, source, sink)
}
