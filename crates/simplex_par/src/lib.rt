//! Runs of a network whose members are stepped at once, by several workers.
//!
//! Events that stand apart are dealt to workers, of which each has a thread of its own. What a run answers is what the run
//! one by one answers, whatever the threads do.
#![tactic(auto)]

mod group;
mod lanes;
mod run;

pub use run::run_network_par;
pub use simplex_mailbox::{Gate, OpenGate};
