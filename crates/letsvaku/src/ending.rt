//! How a command ended.
use simplex_front::{Exit, Reason};
use simplex_program::Exit as RunExit;
use std::mem;

/// What standard output does not tell of how a command ended.
#[derive(Clone, Copy, Debug, PartialEq, Eq)]
pub(crate) enum Outcome {
    /// It tells all there is.
    Told,
    /// The input is not of the form at this place.
    BadInput { place: u64 },
    /// The input could not be read.
    ReadFault,
    /// The output could not be written.
    WriteFault,
    /// Out of memory.
    Memory,
    /// The files of the page could not be read.
    NoPage,
}

/// How a command ended: the status of the process, and what is left to say.
#[derive(Clone, Copy, Debug, PartialEq, Eq)]
pub(crate) struct Ending {
    pub(crate) status: u8,
    pub(crate) outcome: Outcome,
}

impl Ending {
    /// The status where the run is refused.
    pub(crate) const REFUSED: u8 = 1;
    /// The status where the words are wrong.
    pub(crate) const BAD_WORDS: u8 = 2;
    /// The status where the input is not of the form.
    pub(crate) const BAD_INPUT: u8 = 3;
    /// The status where the input is too long.
    pub(crate) const TOO_LONG: u8 = 4;
    /// The status where the file cannot be opened.
    pub(crate) const UNOPENED: u8 = 20;

    pub(crate) const READ_FAULT: Ending = Ending {
        status: 5,
        outcome: Outcome::ReadFault,
    };

    pub(crate) const WRITE_FAULT: Ending = Ending {
        status: 6,
        outcome: Outcome::WriteFault,
    };

    pub(crate) const MEMORY: Ending = Ending {
        status: 7,
        outcome: Outcome::Memory,
    };

    pub(crate) const NO_PAGE: Ending = Ending {
        status: 21,
        outcome: Outcome::NoPage,
    };

    pub(crate) fn new(status: u8, outcome: Outcome) -> Ending {
        Ending { status, outcome }
    }
}

fn outcome_of_run(exit: &RunExit) -> Outcome {
    match exit {
        RunExit::BadInput { place } => Outcome::BadInput { place: *place },
        RunExit::ReadFault => Outcome::ReadFault,
        RunExit::WriteFault => Outcome::WriteFault,
        RunExit::Memory => Outcome::Memory,
        RunExit::Done(_) | RunExit::Refused { .. } | RunExit::BadWords | RunExit::TooLong => {
            Outcome::Told
        }
    }
}

/// The ending of a run. The process ends after it, and its memory with it: a run's entries need not be let go one by one.
pub(crate) fn of_run(exit: RunExit) -> Ending {
    let ending = Ending::new(exit.status(), outcome_of_run(&exit));
    mem::forget(exit);
    ending
}

fn outcome_of<D: Drop, R: Reason>(exit: &Exit<D, R>) -> Outcome {
    match exit {
        Exit::BadInput { place } => Outcome::BadInput { place: *place },
        Exit::ReadFault => Outcome::ReadFault,
        Exit::WriteFault => Outcome::WriteFault,
        Exit::Memory => Outcome::Memory,
        Exit::Done(_) | Exit::Refused(_) | Exit::BadWords | Exit::TooLong => Outcome::Told,
    }
}

/// The ending of any other work, whose memory is not let go either.
pub(crate) fn of_work<D: Drop, R: Reason>(exit: Exit<D, R>) -> Ending {
    let ending = Ending::new(exit.status(), outcome_of(&exit));
    mem::forget(exit);
    ending
}
