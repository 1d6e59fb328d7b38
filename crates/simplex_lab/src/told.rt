//! What whole work made.
use simplex_run::Transcript;
use simplex_transcript::Event;
use simplex_types::Sequence;

/// What whole work made.
#[derive(Drop)]
pub enum Told {
    /// A run.
    Run(Transcript),
    /// The events that are left.
    Shrunk(Sequence<Event>),
    /// Nothing but words on the program.
    Words,
}
