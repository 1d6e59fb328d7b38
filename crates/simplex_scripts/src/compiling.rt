//! The events of a script.
ghost use Rattle.std.specs.Prelude.{◌≡◌, [], IfOk};
ghost use Rattle.model_run.specs.Setting.{Setting, at_epoch_genesis};
ghost use Rattle.simplex_network.specs.Answer.{IsRefused, setup_refusal};
ghost use Rattle.simplex_script.specs.declared.script.Script as scripts;
ghost use Rattle.simplex_scripts.specs.Playing as playing;
ghost use Rattle.simplex_scripts.specs.Stands.{Comes, Plays};

use crate::came::Came;
use crate::play::Play;
use simplex_script::{BadLine, Placed, Script};
use simplex_transcript::{Event, RunError};
use simplex_types::Sequence;
use std::alloc::{AllocError, Global};

/// The events of a script.
#[derive(Debug, PartialEq, Eq, Drop)]
pub struct Compiled {
    /// The events, in order.
    pub events: Sequence<Event>,
    /// Of each event the number of the line that it stands for.
    pub lines: Sequence<u64>,
}

fn nothing(alloc: Global) -> Compiled
    ensures events { result.events ≡ [] }
    ensures lines { result.lines ≡ [] }
{
    Compiled {
        events: Sequence::new(alloc),
        lines: Sequence::new(alloc),
    }
}

fn made(play: Play) -> Compiled
    ensures events { result.events ≡ play.events }
    ensures lines { result.lines ≡ play.lines }
{
    let (events, lines) = play.into_parts();
    Compiled { events, lines }
}

// What was made, and behind it what was refused; or the line that is bad.
#[tactic(auto, using(crate::proofs::Whole::whole_on, crate::proofs::Whole::whole_refused, crate::proofs::Whole::whole_bad))]
fn compiled_of(play: Play, came: Came) -> Result<Result<Compiled, BadLine>, AllocError>
    ensures { IfOk result (λ it. (setting : Setting) (played : playing.Played) → Comes play setting came played
        → it ≡ playing.compiled_of played) }
{
    let mut all = made(play);
    match came {
        Came::On => Ok(Ok(all)),
        Came::Refused { line, event } => {
            all.events.push(event)?;
            all.lines.push(line)?;
            Ok(Ok(all))
        }
        Came::Bad(bad) => Ok(Err(bad)),
    }
}

// What the commands come to.
fn played(mut play: Play, commands: &[Placed]) -> Result<Result<Compiled, BadLine>, AllocError>
    ensures { IfOk result (λ it. (setting : Setting) → Plays play setting playing.opening
        → it ≡ playing.compiled_of (playing.all_obeyed setting commands.now playing.opening)) }
{
    let came = play.obey_all(commands)?;
    compiled_of(play, came)
}

// Of a setup that is refused there are no events.
#[tactic(auto, using(crate::proofs::Whole::comes_refused))]
fn unmade(alloc: Global, error: RunError) -> Result<Result<Compiled, BadLine>, AllocError>
    ensures { IfOk result (λ it. (script : scripts.Script) → IsRefused (setup_refusal script.setup) error
        → it ≡ playing.compiled script) }
{
    match error {
        RunError::Memory => Err(AllocError),
        _ => Ok(Ok(nothing(alloc))),
    }
}

/// The events that a script stands for, or its first line that names what is not there. The last event may be one that the network
/// refuses; of a setup that is refused there is none.
pub fn compile(alloc: Global, script: &Script) -> Result<Result<Compiled, BadLine>, AllocError>
    ensures { IfOk result (λ it. it ≡ playing.compiled script.now) }
{
    match Play::new(alloc, &script.setup) {
        Ok(play) => played(play, script.commands.as_slice()),
        Err(error) => unmade(alloc, error),
    }
}
