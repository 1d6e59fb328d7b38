//! The finalized log, as definitions: the links that certificates give, their walks, and the log.
//!
//! Each definition is a function of the list of activities that were reported, in order. Here are the definitions, the
//! values that they answer, laws on any such list, and samples that compute.
#![tactic(auto)]

mod entry;
mod laws;
mod samples;

pub use entry::{LogEntry, LogError};
pub use laws::{
    a_link_moves_ends, consistent_links_do_not_clash, consistent_logs_are_fronts,
    log_changes_with_its_tip,
};
pub use samples::{clashes_come_out, logs_come_out};
