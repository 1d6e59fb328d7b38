//! The finalized log of what is reported, the logs of a run's honest members, and the program that writes these.
pub use simplex_log::{FinalizedLog, LogEntry, LogError};
pub use simplex_logs::{LogWork, LogsDone, NodeLog, lines, log_program, logs};
