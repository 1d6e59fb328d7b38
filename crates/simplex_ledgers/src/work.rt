//! The program that writes the balances of a run.
ghost use Rattle.std.specs.Prelude.{◌≡◌, ◌⊎◌, ℕ, List, Ok, Err, None, IfOk};
ghost use Rattle.simplex_transcript.specs.declared.event.Event.{Event};
ghost use Rattle.model_run.specs.Setting.{at_epoch_genesis};
ghost use Rattle.law_ledger.specs.Faults.{ledger_fault};
ghost use Rattle.law_ledger.specs.Lines.{lines_of};
ghost use Rattle.law_ledger.specs.Whole.{IsLedgerOf};
ghost use Rattle.simplex_run.specs.WholeRuns.{WholeRunFrom};
ghost use Rattle.simplex_io.specs.Io.{Adds, AddsPart, Rose};
ghost use Rattle.simplex_front.specs.Answer.{IsAnswer};
ghost use Rattle.simplex_front.specs.Cause.{Cause, IsCut};
ghost use Rattle.simplex_front.specs.declared.exit.Exit.{Exit};
ghost use Rattle.simplex_front.specs.declared.exit.Exit.TheVariants as exits;
ghost use Rattle.simplex_ledgers.specs.declared.end.LedgerEnd.{LedgerEnd};
ghost use Rattle.simplex_ledgers.specs.declared.work.LedgerDone.{LedgerDone};
ghost use Rattle.simplex_ledgers.specs.End.{end_text};
ghost use Rattle.simplex_ledgers.specs.Says.{AreBalanced, BalancesSay, EndSays, IsEnded, IsMisread, IsTold, asks_for_balances, usage};

use crate::end::{LedgerEnd, end_text};
use crate::form::{LedgerInput, read_ledger_input};
use crate::judging::judge;
use crate::text::lines;
use law_ledger::ledger_of_a_whole_run;
use simplex_front::{Answer, Exit, Work, is_word, program};
use simplex_io::{Sink, Source};
use simplex_ledger::{Blocks, LedgerError};
use simplex_logs::{NodeLog, logs};
use simplex_run::{Transcript, run_network};
use simplex_transcript::{Event, RunError, Setup};
use simplex_types::{Bytes, Sequence};
use std::alloc::{AllocError, Global};

const USAGE: &str = "usage: balances\n";

/// What comes of a whole run with a ledger.
#[derive(Drop)]
pub struct LedgerDone {
    /// The run.
    pub transcript: Transcript,
    /// The log of each honest member's node, in rising order.
    pub logs: Sequence<NodeLog>,
}

/// Runs the events of an input, and tells the balances of each honest node.
pub struct LedgerWork;

// The logs of a whole run that has a ledger, and the lines of its balances.
fn tell(
    alloc: Global,
    setup: &Setup,
    accounts: &[u64],
    blocks: &Blocks,
    transcript: Transcript,
) -> Result<Answer<LedgerDone, LedgerEnd>, AllocError>
    requires { (events : List Event) × WholeRunFrom (at_epoch_genesis setup.now) events transcript
        × (ledger_fault setup.now transcript.entries events accounts.now blocks.now ≡ None) }
    ensures { IfOk result (IsAnswer (IsTold setup.now accounts.now blocks.now transcript)
        (λ reason text. ⊥) (λ place. ⊥)) }
{
    ledger_of_a_whole_run();
    let logs = logs(alloc, setup, transcript.entries.as_slice())?;
    let text = lines(alloc, blocks, accounts, logs.as_slice())?;
    Ok(Answer::Done {
        done: LedgerDone { transcript, logs },
        text,
    })
}

// The line on an end that is the program's own.
fn end(alloc: Global, reason: LedgerEnd) -> Result<Answer<LedgerDone, LedgerEnd>, AllocError>
    ensures { IfOk result (IsAnswer (λ done text. ⊥) (λ end text. (end ≡ reason)
        × (text ≡ end_text reason)) (λ place. ⊥)) }
{
    let text = end_text(alloc, &reason)?;
    Ok(Answer::Refused { reason, text })
}

// What a whole run comes to.
#[tactic(auto, using(crate::proofs::Balanced::balanced_as, crate::proofs::Balanced::bad_as))]
fn conclude(
    alloc: Global,
    setup: &Setup,
    events: &[Event],
    accounts: &[u64],
    blocks: Sequence<Bytes>,
    transcript: Transcript,
) -> Result<Answer<LedgerDone, LedgerEnd>, AllocError>
    requires { WholeRunFrom (at_epoch_genesis setup.now) events.now transcript }
    ensures { IfOk result (IsAnswer (AreBalanced (record { setup = setup.now; events = events.now; accounts = accounts.now; blocks = blocks }))
        (IsEnded (record {
          setup = setup.now;
          events = events.now;
          accounts = accounts.now;
          blocks = blocks;
        })) (λ place. ⊥)) }
{
    let entries = transcript.entries.as_slice();
    match judge(alloc, setup, events, entries, accounts, blocks) {
        Ok(blocks) => tell(alloc, setup, accounts, &blocks, transcript),
        Err(LedgerError::Memory) => Err(AllocError),
        Err(error) => end(alloc, LedgerEnd::BadLedger(error)),
    }
}

// What the run of an input comes to.
#[tactic(auto, using(simplex_logs::proofs::Logged::made_whole, crate::proofs::Balanced::refused_as))]
fn answer(alloc: Global, input: LedgerInput) -> Result<Answer<LedgerDone, LedgerEnd>, AllocError>
    ensures { IfOk result (IsAnswer (AreBalanced input) (IsEnded input) (λ place. ⊥)) }
{
    let LedgerInput {
        setup,
        events,
        accounts,
        blocks,
    } = input;
    match run_network(alloc, &setup, events.as_slice()) {
        Ok(transcript) => {
            let accounts = accounts.as_slice();
            conclude(
                alloc,
                &setup,
                events.as_slice(),
                accounts,
                blocks,
                transcript,
            )
        }
        Err(refusal) => {
            if matches!(refusal.error, RunError::Memory) {
                return Err(AllocError);
            }
            end(alloc, LedgerEnd::Run(refusal))
        }
    }
}

impl Work<(), LedgerDone, LedgerEnd> for LedgerWork {
    ghost asked = { λ work. asks_for_balances };

    ghost usage_line = { λ work. usage };

    ghost does = { λ work ask. BalancesSay };

    ghost refuses = { λ work ask. EndSays };

    ghost misreads = { λ work ask. IsMisread };

    fn ask(&self, alloc: Global, words: &[String]) -> Result<Option<()>, AllocError> {
        let _alloc = alloc;
        Ok(if is_word(words, "balances") {
            Some(())
        } else {
            None
        })
    }

    fn usage(&self) -> &str {
        USAGE
    }

    fn work(
        &self,
        alloc: Global,
        ask: (),
        bytes: Vec<u8>,
    ) -> Result<Answer<LedgerDone, LedgerEnd>, AllocError> {
        let () = ask;
        match read_ledger_input(alloc, &bytes)? {
            Err(place) => Ok(Answer::BadInput { place }),
            Ok(input) => answer(alloc, input),
        }
    }
}

/// Where the words are `balances` alone, reads the source to its end, runs the events that it says, and writes the balances of the
/// honest nodes, line by line.
pub fn ledger_program<S: Source, K: Sink>(
    alloc: Global,
    words: &[String],
    source: &mut S,
    sink: &mut K,
) -> Exit<LedgerDone, LedgerEnd>
    // A write fault comes only where a count of faults rose.
    ensures write_fault { result ≡ exits.WriteFault
        → Rose (K.fault_count sink.old) (K.fault_count sink.new) }

    // What is written is the text of the exit, or where writing or memory failed the first part of the text of an exit that
    // had its cause. Of a whole run these are the lines of each honest node: the height of its log, and the balances that its
    // blocks make of the accounts, none of which is missing. Equal heights have equal balances, and every total is that of
    // the accounts. Where the run is whole and has no ledger, it is the line on the first of the accounts, the blocks and the
    // answers that is wrong.
    ensures part { (exit : Exit LedgerDone LedgerEnd) × ((text : List ℕ)
        × (Cause usage (λ ask. BalancesSay) (λ ask. EndSays)
        (λ ask. IsMisread) (asks_for_balances words.now)
        (S.left source.old) (S.left source.new) (S.fault_count source.old)
        (S.fault_count source.new) exit text
        × AddsPart (K.written sink.old) text (K.written sink.new)
        × (((result ≡ exit)
        × Adds (K.written sink.old) text (K.written sink.new)) ⊎ IsCut result))) }
{
    program(alloc, &LedgerWork, words, source, sink)
}
