//! The voter: an actor whose steps are those of the rules.
//!
//! A step is planned whole, and then performed up to where it stops.
#![tactic(auto)]

mod acting;
mod actor;
mod answering;
mod config;
mod holding;
mod kind;
mod numbers;
mod performing;
mod planner;
mod posting;
mod publishing;
mod records;
mod request;
mod requests;
mod starting;
mod stepping;
mod telling;
mod voter;
mod waiting;

pub use actor::Actor;
pub use config::Config;
pub use kind::AskKind;
