//! Scripted rounds for twins, two engines under one key.
//!
//! A twin is a member with two halves, each an engine of its own. A [`Scenario`] scripts the first terms of a run:
//! who leads, and which members talk with each half. Behind its last round every member talks with both halves, and
//! leaders are elected as without a script. [`Scenario::all`] goes over every scenario of a size.
//!
//! After "Twins: BFT Systems Made Robust" (arXiv:2004.10617), with sets of members that may overlap, as in the
//! scenarios of commonware-consensus.
#![tactic(auto)]

mod elector;
mod error;
mod laws;
mod masks;
mod round;
mod samples;
mod scenario;
mod scenarios;
mod views;

pub use elector::{Elector, ElectorState};
pub use error::TwinsError;
pub use laws::every_good_scenario_is_given;
pub use round::RoundScenario;
pub use samples::{cuts_come_out, every_round_comes_out, faults_come_out, scripts_come_out};
pub use scenario::{Partitions, Scenario};
pub use scenarios::Scenarios;
pub use views::{view_partitions, view_route};
