//! Compiles a script to the events of a run, and rewrites it with what came out.
//!
//! [`compile`] steps a network as it goes from command to command, since which packet and which request a command means depends on
//! what was made before it: the oldest packet that was not delivered, the requests that are open. It gives the events, each with the
//! line of its command; an event that the network refuses is the last. [`rewritten`] is the text of the script, with what each event
//! came to below the line of its command.
#![tactic(auto)]

mod came;
mod coming;
mod compiling;
mod nodes;
mod play;
mod rewriting;

pub use compiling::{Compiled, compile};
pub use play::MOST_EVENTS;
pub use rewriting::rewritten;
