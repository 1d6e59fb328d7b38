//! The ledger of a run: which answers are bad, why there is no ledger, its lines, and that no block of a log is missing.
#![tactic(auto)]

mod laws;
mod samples;

pub use laws::{ledger_of_a_whole_run, no_block_is_missing};
pub use samples::answers_come_out;
