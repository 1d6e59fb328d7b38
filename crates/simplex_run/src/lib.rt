//! Whole runs: a network is given all events, one by one, and answers a transcript.
//!
//! It may assume nothing of a setup and of events. It owes that the entries, or the first refusal, are those of the definition
//! of runs, and that the run is safe, whatever its members are.
#![tactic(auto)]

mod run;

pub use run::{Transcript, run_network, run_network_from};
