//! The resolver: it asks peers for the certificates that this member lacks, and answers theirs.
//!
//! An [`Actor`] takes the voter's mail, its handler's messages, packets and its timer, one a step. It judges each
//! answer before it tells the fetcher, hands on only what verifies, and keeps an ask open for each nullification
//! that is missing.
#![tactic(auto)]

mod actor;
mod config;
mod fetching;
mod judging;
mod laws;
mod minding;
mod repairing;
mod resolver;
mod sends;
mod steps;
mod work;

pub use actor::Actor;
pub use config::Config;
pub use laws::{each_gap_has_an_open_ask, new_gaps_are_asked_for};
