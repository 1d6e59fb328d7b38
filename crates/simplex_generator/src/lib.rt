//! The run that a number makes: its setup, the generator of its events, and the line that sums it up.
//!
//! The [`Undelivered`] packets and the open [`Requests`] of a run are kept up to date by the entry of its last event alone, so
//! that no event looks at all events before it. A [`Drawing`] keeps both and the random words, and chooses what comes next;
//! which nodes run and what holds something it is told. [`gen_run`] steps a network as it draws, since what is drawn next
//! depends on what the events before it made. It owes the setup and the list of the definition, in time that grows in line
//! with how many events there are.
#![tactic(auto)]

mod choice;
mod drawing;
mod event_samples;
mod generator;
mod held;
mod nodes;
mod run;
mod setup;
mod source;
mod summary_samples;
mod sums;
mod unanswered;
mod undelivered;
mod words;

pub use choice::Choice;
pub use drawing::{Drawing, step_at};
pub use event_samples::events_come_out;
pub use nodes::{ENGINE_NODES, NODES};
pub use run::gen_run;
pub use setup::setup_of;
pub use source::{Held, SOURCES};
pub use summary_samples::sums_come_out;
pub use sums::summary;
pub use unanswered::{Requests, Unanswered};
pub use undelivered::{Parcel, Undelivered};
pub use words::{draw, random_of};
