//! The record of a run, which an audit judges without an engine, as its entries tell it.
pub use model_audit::{AuditCall, AuditEntry, AuditFault, AuditTook, Verdict};
pub use simplex_audit::record_of;
