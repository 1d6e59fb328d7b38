//! What follows from the definition of an audit.
//!
//! - What votes rest on: of all that a member knows the certificates, verdicts, own votes and proposals.
//! - A step of a voter is read from what it took: which votes were due, and what its journal then holds.
//! - A record is found sound exactly where none of the seven faults is in it, and then no two certificates of it conflict.
//! - Of a run its record keeps what is read: the clock, packets, requests, floors, forgeries and journals.
//! - So the record of a run whose values keep to their types is found sound.
//!
//! Each law is the contract of a function below, and is about the definitions alone.
#![tactic(auto)]

mod records;
mod runs;
mod sound;
mod votes;
mod whole;

pub use records::{
    journals_are_read, records_of_runs_agree, records_tell_the_same, starts_are_read,
    steps_are_followed,
};
pub use runs::{
    answers_are_pending, engines_are_tracked, entries_fit_their_events, events_are_allowed,
    runs_are_read, takings_are_read, votes_of_runs_are_due, votes_of_runs_are_stored,
};
pub use sound::{conflicts_are_tested, sound_records_hold};
pub use votes::{steps_are_read, votes_are_due_alike, votes_rest_on_few_facts};
pub use whole::records_of_runs_are_sound;
