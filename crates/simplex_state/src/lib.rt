//! What one member of a consensus group knows: its views, votes, deadline, requests and certificates.
#![tactic(auto)]

mod ancestry;
mod best;
mod certificates;
mod certifying;
mod config;
mod deadline;
mod floor;
mod giving_up;
mod held;
mod missing;
mod progress;
mod proposals;
mod ranges;
mod replaying;
mod requests;
mod rounds;
mod sending;
mod settings;
mod state;
mod verdicts;
mod verification;
mod views;
mod votes;

pub use config::StateConfig;
pub use model_rules::{CertificateFetch, ProposalRequest, Verify};
pub use ranges::Ranges;
pub use state::State;
