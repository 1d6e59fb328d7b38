//! Records of runs: the program that makes one, and judges one.
#![tactic(auto)]

mod checking;
mod recording;
mod work;

pub use recording::RecordDone;
pub use work::{AuditDone, AuditTask, AuditWork, audit_program};
