//! Tells a run line by line.
ghost use Rattle.std.specs.Prelude.{◌≡◌, Err, IfOk, option_map, string_bytes};
ghost use Rattle.model_run.specs.Setting.{at_epoch_genesis};
ghost use Rattle.model_run.specs.Run.{Run};
ghost use Rattle.simplex_run.specs.WholeRuns.{WholeRunFrom};
ghost use Rattle.simplex_generator.specs.Unanswered.{node_in};
ghost use Rattle.simplex_lab.specs.Prefix.{earlier, entries_of};
ghost use Rattle.simplex_lab.specs.declared.words.Word.TheVariants as asks;
ghost use Rattle.simplex_lab.specs.Says as says;
ghost use Rattle.simplex_lab.specs.Says.{AnswersOn, TellsOpenIf, TellsRefusal, lines_if, node_at};

use crate::opening::open_lines;
use crate::prefix::{events_before, whole_run};
use crate::reason::LabReason;
use crate::reasons::reason_line;
use crate::told::Told;
use simplex_form::Input;
use simplex_front::Answer;
use simplex_run::{Transcript, run_network};
use simplex_text::refusal_text;
use simplex_trace::{deed_line, lines};
use simplex_transcript::{Event, Node, Refusal, RunError};
use std::alloc::{AllocError, Global};

// The lines of a whole run of the input.
fn tell(
    alloc: Global,
    input: &Input,
    transcript: Transcript,
) -> Result<Answer<Told, LabReason>, AllocError>
    requires { WholeRunFrom (at_epoch_genesis input.now.setup) input.now.events transcript }
    ensures { IfOk result (AnswersOn asks.Trace input.now) }
{
    let text = lines(
        alloc,
        input.events.as_slice(),
        transcript.entries.as_slice(),
    )?;
    Ok(Answer::Done {
        done: Told::Run(transcript),
        text,
    })
}

// The node of an event, where it has one of its own.
fn node_of(event: &Event) -> Option<Node>
    ensures { result ≡ node_in event.now }
{
    match event {
        Event::Start { node, .. } => Some(*node),
        Event::Deliver { node, .. } => Some(*node),
        Event::Step { node, .. } => Some(*node),
        Event::Answer { node, .. } => Some(*node),
        Event::Crash { node } => Some(*node),
        Event::Tick { .. } => None,
        Event::Inject { .. } => None,
    }
}

// The node of the event of this number, which is counted from 1.
fn node_at(events: &[Event], number: u64) -> Option<Node>
    ensures { result ≡ node_at events.now number }
{
    let place = number.checked_sub(1)?;
    node_of(events.get(place as usize)?)
}

// The line on the event of this number, which is counted from 1, if there is one.
fn deed_if(alloc: Global, events: &[Event], number: u64) -> Result<String, AllocError>
    ensures { IfOk result (λ text. string_bytes text ≡ says.deed_if events.now number) }
{
    let Some(place) = number.checked_sub(1) else {
        return Ok(String::new(alloc));
    };
    match events.get(place as usize) {
        None => Ok(String::new(alloc)),
        Some(event) => deed_line(alloc, number, event),
    }
}

// Whether an event is refused since its node does not exist.
fn is_no_node(error: &RunError) -> bool
    ensures { result ≡ says.is_no_node error.now }
{
    matches!(error, RunError::NoMember)
}

// The node of the event that is refused, if there is such a node.
fn refused_node(input: &Input, refusal: &Refusal) -> Option<Node>
    ensures { result ≡ says.refused_node input.now refusal.now }
{
    if is_no_node(&refusal.error) {
        return None;
    }
    node_at(input.events.as_slice(), refusal.event)
}

// The lines of a run, if there is one.
fn lines_if(
    alloc: Global,
    events: &[Event],
    whole: Option<&Transcript>,
) -> Result<String, AllocError>
    ensures { IfOk result (λ text. string_bytes text
        ≡ lines_if events.now (option_map (λ it. it.now.entries) whole.entry)) }
{
    match whole {
        None => Ok(String::new(alloc)),
        Some(transcript) => lines(alloc, events, transcript.entries.as_slice()),
    }
}

// What a run leaves open for a node, if there are both.
fn open_if(
    alloc: Global,
    events: &[Event],
    whole: Option<&Transcript>,
    node: Option<Node>,
) -> Result<String, AllocError>
    ensures { IfOk result (λ text. TellsOpenIf events.now
        (option_map (λ it. it.now.entries) whole.entry) node (string_bytes text)) }
{
    match whole {
        None => Ok(String::new(alloc)),
        Some(transcript) => match node {
            None => Ok(String::new(alloc)),
            Some(node) => open_lines(alloc, events, transcript, node),
        },
    }
}

// The same, where this is the run of the events before, if it is whole.
#[tactic(auto, using(crate::proofs::Saying::tells_refusal))]
fn refused_behind(
    alloc: Global,
    input: &Input,
    refusal: &Refusal,
    whole: Option<&Transcript>,
) -> Result<String, AllocError>
    requires { option_map (λ it. it.now.entries) whole
        ≡ entries_of input.now.setup (earlier input.now refusal.now) }
    ensures { IfOk result (λ text. TellsRefusal input.now refusal.now (string_bytes text)) }
{
    let events = events_before(input.events.as_slice(), refusal.event);
    let node = refused_node(input, refusal);
    let open = open_if(alloc, events, whole, node)?;
    let mut text = lines_if(alloc, events, whole)?;
    text.push_str(deed_if(alloc, input.events.as_slice(), refusal.event)?.as_str())?;
    text.push_str(refusal_text(alloc, refusal)?.as_str())?;
    text.push_str(reason_line(alloc, &refusal.error)?.as_str())?;
    text.push_str(open.as_str())?;
    Ok(text)
}

// The lines on the events before, on the one that is refused and why, and on what was open then.
fn refused_text(alloc: Global, input: &Input, refusal: &Refusal) -> Result<String, AllocError>
    ensures { IfOk result (λ text. TellsRefusal input.now refusal.now (string_bytes text)) }
{
    let events = events_before(input.events.as_slice(), refusal.event);
    let whole = whole_run(alloc, &input.setup, events)?;
    refused_behind(alloc, input, refusal, whole.as_ref())
}

// What the trace of a refused run comes to.
fn refuse(
    alloc: Global,
    input: &Input,
    refusal: Refusal,
) -> Result<Answer<Told, LabReason>, AllocError>
    requires { Run input.now.setup input.now.events ≡ Err refusal }
    ensures { IfOk result (AnswersOn asks.Trace input.now) }
{
    let text = refused_text(alloc, input, &refusal)?;
    Ok(Answer::Refused {
        reason: LabReason::Refused(refusal),
        text,
    })
}

/// What the trace of an input comes to.
#[tactic(auto, using(crate::proofs::Traced::made_whole))]
pub(crate) fn trace(alloc: Global, input: &Input) -> Result<Answer<Told, LabReason>, AllocError>
    ensures { IfOk result (AnswersOn asks.Trace input.now) }
{
    match run_network(alloc, &input.setup, input.events.as_slice()) {
        Ok(transcript) => tell(alloc, input, transcript),
        Err(refusal) => {
            if matches!(refusal.error, RunError::Memory) {
                return Err(AllocError);
            }
            refuse(alloc, input, refusal)
        }
    }
}
