//! The program: words and a source in, a text and an exit out.
ghost use Rattle.std.specs.Prelude.{◌≡◌, ◌⊎◌, ℕ, List, [], Ok, Err, IfOk, IfSome, Option, String};
ghost use Rattle.std.specs.declared.alloc.Global.{Global};
ghost use Rattle.simplex_transcript.specs.declared.event.Event.{Event};
ghost use Rattle.simplex_transcript.specs.declared.refusal.RunError.{RunError};
ghost use Rattle.simplex_form.specs.declared.input.Input.{Input};
ghost use Rattle.simplex_form.specs.Input.{input_of};
ghost use Rattle.simplex_text.specs.Lines.{PrintedRun};
ghost use Rattle.simplex_io.specs.Io.{Adds, AddsPart, TakesAll, TakesOver, TakesWithin, Rose};
ghost use Rattle.model_run.specs.Run.{Run};
ghost use Rattle.simplex_run.specs.declared.run.Transcript.{Transcript};
ghost use Rattle.simplex_program.specs.declared.exit.Exit.{Exit};
ghost use Rattle.simplex_program.specs.Exit as endings;
ghost use Rattle.simplex_program.specs.Exit.{Ending, told, text_of};
ghost use Rattle.simplex_program.specs.declared.command.Command.TheVariants as commands;
ghost use Rattle.simplex_program.specs.declared.text.Telling.{Telling};
ghost use Rattle.simplex_program.specs.declared.text.Telling.TheVariants as tellings;
ghost use Rattle.simplex_program.specs.Words.{Says, AreTaken, AsksForRun};
ghost use Rattle.simplex_program.specs.Whole.{WholeRun, SaysWhole, OnDone};
ghost use Rattle.simplex_program.specs.Cause.{ending_of_run, ending_of, ending_for, events_of, Cause, IsCut, IsFault};
ghost use Rattle.simplex_generator.specs.Setup.{setup_of};
ghost use Rattle.simplex_generator.specs.Summary.{summary};
ghost use Rattle.simplex_generator.specs.Generated.{generated};

use crate::command::{Command, command_of};
use crate::exit::Exit;
use crate::making::{Making, Workers};
use crate::text::{Telling, text};
use simplex_form::{Input, read_input};
use simplex_generator::gen_run;
use simplex_io::{InputEnd, LIMIT, Sink, SinkError, Source, read_bytes, write_text};
use simplex_transcript::{Event, RunError, Setup};
use simplex_types::Sequence;
use std::alloc::{AllocError, Global};
use std::thread::Threads;

/// An exit before its text is written, the events that it tells of, and how it tells of a whole run.
#[derive(Drop)]
struct Decision {
    exit: Exit,
    events: Sequence<Event>,
    telling: Telling,
}

// An exit that tells of no events.
fn at_once(alloc: Global, exit: Exit) -> Decision
    ensures exit { result.exit ≡ exit }
    ensures events { result.events ≡ [] }
    ensures telling { result.telling ≡ tellings.Lines }
{
    Decision {
        exit,
        events: Sequence::new(alloc),
        telling: Telling::Lines,
    }
}

// The exit of a run that is made in this way.
#[tactic(auto, using(crate::proofs::Causes::made_whole))]
fn run_events<R: Threads + Sync>(
    rt: &R,
    alloc: Global,
    making: Making,
    setup: &Setup,
    events: Sequence<Event>,
    telling: Telling,
) -> Result<Decision, AllocError>
    ensures exit { IfOk result (λ decision. ending_of_run (Run setup.now events)
        ≡ told decision.exit) }
    ensures events { IfOk result (λ decision. decision.events ≡ events) }
    ensures telling { IfOk result (λ decision. decision.telling ≡ telling) }
    ensures whole { IfOk result (λ decision. OnDone decision.exit (WholeRun setup.now events)) }
{
    match making.run(rt, alloc, setup, events.as_slice()) {
        Ok(transcript) => Ok(Decision {
            exit: Exit::Done(transcript),
            events,
            telling,
        }),
        Err(refusal) => {
            if matches!(refusal.error, RunError::Memory) {
                return Err(AllocError);
            }
            Ok(Decision {
                exit: Exit::Refused {
                    error: refusal.error,
                    event: refusal.event,
                },
                events,
                telling,
            })
        }
    }
}

// The exit that an input leads to. The bytes are let go before the run.
#[tactic(auto, using(crate::proofs::Causes::says_whole))]
fn answer<R: Threads + Sync>(
    rt: &R,
    alloc: Global,
    making: Making,
    bytes: Vec<u8>,
) -> Result<Decision, AllocError>
    ensures exit { IfOk result (λ decision. ending_of bytes.items ≡ told decision.exit) }
    ensures events { IfOk result (λ decision. events_of bytes.items ≡ decision.events) }
    ensures telling { IfOk result (λ decision. decision.telling ≡ tellings.Lines) }
    ensures whole { IfOk result (λ decision. OnDone decision.exit (SaysWhole bytes.items)) }
{
    let read = read_input(alloc, &bytes)?;
    drop(bytes);
    match read {
        Err(place) => Ok(at_once(alloc, Exit::BadInput { place })),
        Ok(Input { setup, events }) => {
            let decision = run_events(rt, alloc, making, &setup, events, Telling::Lines)?;
            Ok(decision)
        }
    }
}

// The exit that the source leads to.
#[tactic(auto, using(crate::proofs::Causes::reads))]
fn answer_source<S: Source, R: Threads + Sync>(
    rt: &R,
    alloc: Global,
    making: Making,
    source: &mut S,
) -> Decision
    ensures cause { (words : List (String Global)) → AsksForRun words
        → Cause words (S.left source.old) (S.left source.new)
        (S.fault_count source.old)
        (S.fault_count source.new) result.telling result.events (told result.exit) }
    ensures telling { result.telling ≡ tellings.Lines }
    ensures whole { (transcript : Transcript) → result.exit ≡ Exit.Done transcript
        → (bytes : List ℕ) × TakesAll (S.left source.old) bytes (S.left source.new)
        × (SaysWhole bytes transcript × (events_of bytes ≡ result.events)) }
{
    match read_bytes(alloc, source) {
        Err(InputEnd::TooLong) => at_once(alloc, Exit::TooLong),
        Err(InputEnd::ReadFault) => at_once(alloc, Exit::ReadFault),
        Err(InputEnd::Memory) => at_once(alloc, Exit::Memory),
        Ok(bytes) => match answer(rt, alloc, making, bytes) {
            Ok(decision) => decision,
            Err(AllocError) => at_once(alloc, Exit::Memory),
        },
    }
}

// The exit of the run of so many events that a number makes.
fn answer_number<R: Threads + Sync>(
    rt: &R,
    alloc: Global,
    number: u64,
    steps: u64,
) -> Result<Decision, AllocError>
    ensures exit { IfOk result (λ decision. ending_of_run (Run (setup_of number) (generated number steps))
        ≡ told decision.exit) }
    ensures events { IfOk result (λ decision. decision.events ≡ generated number steps) }
    ensures telling { IfOk result (λ decision. decision.telling ≡ tellings.Summary) }
    ensures whole { IfOk result (λ decision.
        OnDone decision.exit (WholeRun (setup_of number) (generated number steps))) }
{
    let (setup, events) = gen_run(alloc, number, steps)?;
    let events = Sequence::from_vec(events);
    let decision = run_events(
        rt,
        alloc,
        Making::OneByOne,
        &setup,
        events,
        Telling::Summary,
    )?;
    Ok(decision)
}

// The exit of a number, where there is memory for it.
#[tactic(auto, using(crate::proofs::Causes::generates, crate::proofs::Causes::wants_memory))]
fn generate<R: Threads + Sync>(rt: &R, alloc: Global, number: u64, steps: u64) -> Decision
    ensures cause { (words : List (String Global)) (left : Option (List ℕ)) (faults : ℕ)
        → Says words (commands.Gen number steps)
        → Cause words left left faults faults result.telling result.events (told result.exit) }
    ensures whole { (transcript : Transcript) → result.exit ≡ Exit.Done transcript
        → (result.telling ≡ tellings.Summary) × (result.events ≡ generated number steps)
        × WholeRun (setup_of number) (generated number steps) transcript }
{
    match answer_number(rt, alloc, number, steps) {
        Ok(decision) => decision,
        Err(AllocError) => at_once(alloc, Exit::Memory),
    }
}

// The exit, before its text is written.
#[tactic(auto, using(crate::proofs::Commands::not_both, crate::proofs::Causes::as_asked))]
fn decide<S: Source, R: Threads + Sync>(
    rt: &R,
    alloc: Global,
    words: &[String],
    source: &mut S,
) -> Decision
    ensures cause { Cause words.now (S.left source.old) (S.left source.new)
        (S.fault_count source.old)
        (S.fault_count source.new) result.telling result.events (told result.exit) }
    ensures whole { (transcript : Transcript) → AsksForRun words.now → result.exit ≡ Exit.Done transcript
        → (result.telling ≡ tellings.Lines)
        × ((bytes : List ℕ) × TakesAll (S.left source.old) bytes (S.left source.new)
        × (SaysWhole bytes transcript × (events_of bytes ≡ result.events))) }
    ensures generated { (number steps : ℕ) (transcript : Transcript) → Says words.now (commands.Gen number steps)
        → result.exit ≡ Exit.Done transcript
        → (result.telling ≡ tellings.Summary) × (result.events ≡ generated number steps)
        × WholeRun (setup_of number) (generated number steps) transcript }
{
    match command_of(alloc, words) {
        Err(AllocError) => at_once(alloc, Exit::Memory),
        Ok(None) => at_once(alloc, Exit::BadWords),
        Ok(Some(Command::Run)) => answer_source(rt, alloc, Making::OneByOne, source),
        Ok(Some(Command::Par { workers: count })) => {
            let making = Making::AtOnce(Workers { count });
            answer_source(rt, alloc, making, source)
        }
        Ok(Some(Command::Gen { number, steps })) => generate(rt, alloc, number, steps),
    }
}

// Writes the text of an exit.
fn tell<K: Sink>(alloc: Global, decision: Decision, sink: &mut K) -> Exit
    requires { told decision.exit ≡ endings.WriteFault → ⊥ }
    ensures whole { ((result ≡ decision.exit)
        × Adds (K.written sink.old) (text_of decision.telling decision.events (told decision.exit))
        (K.written sink.new))
        ⊎ IsCut (told result) }
    ensures part { AddsPart (K.written sink.old) (text_of decision.telling decision.events (told decision.exit))
        (K.written sink.new) }
    ensures fault { told result ≡ endings.WriteFault
        → Rose (K.fault_count sink.old) (K.fault_count sink.new) }
{
    let Ok(text) = text(
        alloc,
        decision.telling,
        &decision.exit,
        decision.events.as_slice(),
    ) else {
        return Exit::Memory;
    };
    match write_text(sink, text.as_bytes()) {
        Ok(()) => decision.exit,
        Err(SinkError::Memory) => Exit::Memory,
        Err(SinkError::Failed) => Exit::WriteFault,
    }
}

/// Does what the words ask for: `run` reads the source to its end, runs the events that it says, and writes the text of the
/// exit; `par WORKERS` does the same, by threads that the handle starts; `gen NUMBER STEPS` reads nothing, runs the events
/// that the number makes, and writes the line that sums them up.
pub fn program<S: Source, K: Sink, R: Threads + Sync>(
    rt: &R,
    alloc: Global,
    words: &[String],
    source: &mut S,
    sink: &mut K,
) -> Exit
    // The words are wrong, and then nothing is read.
    ensures bad_words { told result ≡ endings.BadWords → ¬ AreTaken words.now }
    ensures words { ¬ AreTaken words.now
        → (S.left source.new ≡ S.left source.old)
        × ((told result ≡ endings.BadWords) ⊎ IsCut (told result)) }

    // More bytes than the limit were taken exactly where the input is too long, unless its text could not be written.
    ensures too_long { told result ≡ endings.TooLong
        → TakesOver LIMIT (S.left source.old) (S.left source.new) }
    ensures within { TakesWithin LIMIT (S.left source.old) (S.left source.new)
        ⊎ (told result ≡ endings.TooLong) ⊎ IsCut (told result) }

    // The whole source was read, and is not of the form: this is the first place.
    ensures bad_input { (place : ℕ) → told result ≡ endings.BadInput place
        → (bytes : List ℕ) × TakesAll (S.left source.old) bytes (S.left source.new)
        × (input_of bytes ≡ Err place) }

    // It says a setup and events of which the run is this refusal.
    ensures refused { (error : RunError) (event : ℕ) → AsksForRun words.now → told result ≡ endings.Refused error event
        → (bytes : List ℕ) × TakesAll (S.left source.old) bytes (S.left source.new)
        × ((input : Input) × (input_of bytes ≡ Ok input)
        × (Run input.setup input.events ≡ Err (record { error = error; event = event }))) }

    // It says a setup and events of which the run has these entries, one for each event, and this network, and what is
    // printed of them was written. The run is safe: each certificate is backed, no two of them conflict, each vote was
    // stored first, and the votes are those that the rules give.
    ensures done { (transcript : Transcript) → AsksForRun words.now → result ≡ Exit.Done transcript
        → (bytes : List ℕ) × TakesAll (S.left source.old) bytes (S.left source.new)
        × ((says : SaysWhole bytes transcript)
        × Adds (K.written sink.old) (PrintedRun says.input.events transcript.entries)
        (K.written sink.new)) }

    // For events that a number makes nothing is read. The exit is that of their run, unless writing or memory failed.
    ensures generates { (number steps : ℕ) → Says words.now (commands.Gen number steps)
        → (S.left source.new ≡ S.left source.old)
        × ((told result ≡ ending_of_run
        (Run (setup_of number) (generated number steps))) ⊎ IsCut (told result)) }

    // Their run is whole and safe in the same way, and the line that sums it up was written.
    ensures summed { (number steps : ℕ) (transcript : Transcript) → Says words.now (commands.Gen number steps)
        → result ≡ Exit.Done transcript
        → WholeRun (setup_of number) (generated number steps) transcript
        × Adds (K.written sink.old) (summary (generated number steps) transcript.entries)
        (K.written sink.new) }

    // A fault comes only where a count of faults rose.
    ensures read_fault { told result ≡ endings.ReadFault
        → Rose (S.fault_count source.old) (S.fault_count source.new) }
    ensures write_fault { told result ≡ endings.WriteFault
        → Rose (K.fault_count sink.old) (K.fault_count sink.new) }

    // A source that tells its bytes is answered by the exit that they lead to, unless reading, writing or memory failed.
    ensures answer { AsksForRun words.now
        → IfSome (S.left source.old)
        (λ bytes. (told result ≡ ending_for bytes) ⊎ IsFault (told result)) }

    // What is written is the text of the exit, or where writing or memory failed the first part of the text of an
    // ending that had its cause.
    ensures part { (telling : Telling) × ((events : List Event) × ((ending : Ending)
        × Cause words.now (S.left source.old) (S.left source.new)
        (S.fault_count source.old) (S.fault_count source.new) telling events ending
        × AddsPart (K.written sink.old) (text_of telling events ending) (K.written sink.new)
        × (((told result ≡ ending)
        × Adds (K.written sink.old) (text_of telling events ending) (K.written sink.new))
        ⊎ IsCut (told result)))) }
{
    let decision = decide(rt, alloc, words, source);
    tell(alloc, decision, sink)
}
