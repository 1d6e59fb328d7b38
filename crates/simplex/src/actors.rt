//! The three actors of a member, and what a step of each gives.
pub mod batcher;
pub mod resolver;
pub mod voter;

pub use model_rules::{Asked, ProposalState};
pub use simplex_messages::{Call, Handed, Outcome, StepOut, Stop};
