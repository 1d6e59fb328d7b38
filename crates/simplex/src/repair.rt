//! What a resolver knows of the certificates that its member lacks, and what it is told to do about them.
pub use model_rules::Effect;
pub use simplex_repair::RepairState;
