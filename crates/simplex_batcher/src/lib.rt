//! The batcher: it collects votes into certificates, and tells the voter.
//!
//! An [`Actor`] takes packets of votes and certificates and the voter's mail, one a step. It keeps a round for
//! each view that it still cares for, checks no vote before a quorum could come of it, and hands on only what
//! verifies.
#![tactic(auto)]

mod activity;
mod actor;
mod batcher;
mod certificates;
mod config;
mod forwarding;
mod hints;
mod kept;
mod making;
mod marks;
mod others;
mod rounds;
mod seen;
mod steps;
mod updates;
mod votes;
mod work;
mod working;

pub use actor::Actor;
pub use config::Config;
