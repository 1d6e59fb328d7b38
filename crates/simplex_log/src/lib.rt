//! The finalized log of what is reported: it grows as certificates come, in any order.
#![tactic(auto)]

mod finalized_log;
mod finals;
mod kept;
mod links;

pub use finalized_log::FinalizedLog;
pub use model_log::{LogEntry, LogError};
