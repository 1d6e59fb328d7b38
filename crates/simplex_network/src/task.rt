//! A step that a host makes outside its network.
#![tactic(auto)]

ghost use Rattle.std.specs.Prelude.{◌≡◌, ◌<◌, ◌^◌, ℕ, true, false};
ghost use Rattle.simplex_network.specs.Stages.{is_done, is_failed_at};

use crate::host::Host;
use crate::inputs::run_error;
use simplex_engine::{Input, Polled};
use simplex_messages::{StepOut, Stop};
use simplex_transcript::{RunError, Took};
use std::alloc::Global;
use std::mem;

/// What a step of an engine is given: its input, where it stops, and what is taken from outside.
#[derive(Drop)]
pub(crate) struct Given {
    pub(crate) input: Input,
    pub(crate) stop: Stop,
    pub(crate) outside: Option<Took>,
}

/// What a step gave.
#[derive(Drop)]
pub(crate) struct Made {
    pub(crate) polled: Polled,
    pub(crate) out: StepOut,
    pub(crate) outside: Option<Took>,
}

/// How far a step is: what it is given, what it gave, or why it is refused.
#[derive(Drop)]
pub(crate) enum Stage {
    Given(Given),
    Made(Made),
    Refused(RunError),
}

/// A host that its network has lent for one step.
#[derive(Drop)]
pub struct Task {
    pub(crate) alloc: Global,
    pub(crate) now: u64,
    pub(crate) host: Host,
    pub(crate) stage: Stage,
    ghost early: { now < 2 ^ 63 },
    ghost whole: { is_failed_at stage ≡ false },
}

impl Task {
    ghost use Rattle.simplex_transcript.specs.declared.setup.Setup.{Setup};
    ghost use Rattle.model_run.specs.Life.{Life};
    ghost use Rattle.simplex_network.specs.Parts.{Lives};
    ghost use Rattle.simplex_network.specs.Stands.{HostStands};
    ghost use Rattle.simplex_network.specs.Lending.{CameTo, IsDone, Makes, Steps};

    /// Makes the step. What was refused, or is made, stays as it is.
    pub fn step(&mut self)
        ensures done { IsDone self.new }
        ensures steps { Steps self.old self.new }
        ensures makes { Makes self.old self.new }
    {
        let stage = mem::replace(&mut self.stage, Stage::Refused(RunError::Memory));
        match stage {
            Stage::Given(given) => {
                let came = self.make(given);
                self.stage = came;
            }
            Stage::Made(made) => self.stage = Stage::Made(made),
            Stage::Refused(error) => self.stage = Stage::Refused(error),
        }
    }

    // What comes of what the step is given.
    fn make(&mut self, given: Given) -> Stage
        ensures done { is_done result ≡ true }
        ensures came { (setup : Setup) (member : ℕ) (life : Life) → HostStands setup member self.old.host (Lives life)
            → CameTo setup member life given self.old.now self.new.host result }
        ensures now { self.new.now ≡ self.old.now }
        ensures whole { is_failed_at result ≡ false }
    {
        let Given {
            input,
            stop,
            outside,
        } = given;
        let mut out = StepOut::new(self.alloc);
        match self.host.poll(self.alloc, input, self.now, &stop, &mut out) {
            Ok(polled) => Stage::Made(Made {
                polled,
                out,
                outside,
            }),
            Err(error) => Stage::Refused(run_error(error)),
        }
    }
}
