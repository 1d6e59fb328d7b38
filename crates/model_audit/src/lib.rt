//! An audit, as definitions: the record of a run, what is read of a record, the seven faults, and the verdict.
//!
//! A record has no engine. What a node knows is read from it: the certificates that were added, the own votes that were
//! appended, and what was taken. By that the rules say which votes were due, and what a journal held.
#![tactic(auto)]

mod record;
mod samples;

pub use record::{AuditCall, AuditEntry, AuditFault, AuditTook, Verdict};
pub use samples::{faults_come_out, records_come_out};
