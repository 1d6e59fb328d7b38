//! The finalized logs of a run: for each honest member's node the log of what it reported, their lines, and the program that writes
//! these of an input.
#![tactic(auto)]

mod node_logs;
mod telling;
mod text;
mod work;

pub use node_logs::{NodeLog, logs};
pub use text::lines;
pub use work::{LogWork, LogsDone, log_program};
