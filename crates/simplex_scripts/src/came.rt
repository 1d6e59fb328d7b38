//! What came of the commands of a script.
use simplex_script::BadLine;
use simplex_transcript::Event;

/// What came of events, or of commands.
#[derive(Drop)]
pub(crate) enum Came {
    /// All of them were made.
    On,
    /// The network refuses an event of this line.
    Refused { line: u64, event: Event },
    /// A line names what is not there.
    Bad(BadLine),
}
