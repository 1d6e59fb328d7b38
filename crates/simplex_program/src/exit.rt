//! How the program ends.
ghost use Rattle.std.specs.Prelude.{◌≡◌};
ghost use Rattle.simplex_program.specs.Exit.{told, status_of};

use simplex_run::Transcript;
use simplex_transcript::RunError;

/// How the program ends.
#[derive(Drop)]
pub enum Exit {
    /// The run is whole, and what is told of it was written.
    Done(Transcript),
    /// The event of this number, counted from 1, was refused; 0 is the setup.
    Refused { error: RunError, event: u64 },
    /// The words are none that the program takes.
    BadWords,
    /// The input is not of the form: 0 it is no JSON, 1 the whole or its setup, 1 + k the event k.
    BadInput { place: u64 },
    /// The input has more bytes than `LIMIT`.
    TooLong,
    /// The input could not be read.
    ReadFault,
    /// The text could not be written.
    WriteFault,
    /// Want of memory.
    Memory,
}

impl Exit {
    /// The status with which the process ends.
    pub fn status(&self) -> u8
        ensures { result ≡ status_of (told self.now) }
    {
        match self {
            Exit::Done(_) => 0,
            Exit::Refused { .. } => 1,
            Exit::BadWords => 2,
            Exit::BadInput { .. } => 3,
            Exit::TooLong => 4,
            Exit::ReadFault => 5,
            Exit::WriteFault => 6,
            Exit::Memory => 7,
        }
    }
}
