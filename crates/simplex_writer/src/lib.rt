//! Writes an input: the JSON text of a setup and its events, of the form that is read.
//!
//! Members stand in the order of their tables, without spaces; a list of events has one of them a line, so that a long input can be
//! read and edited.
#![tactic(auto)]

mod answers;
mod events;
mod input;
mod list;
mod names;
mod setup;
mod values;

pub use input::write_input;
