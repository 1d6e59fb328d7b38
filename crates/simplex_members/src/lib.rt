//! What a setup makes of its members, of whatever kind: the configuration of an engine, or a faulty member without one;
//! and which item of a setup breaks its limit.
#![tactic(auto)]

mod config;
mod electors;
mod faulty_member;
mod schemes;
mod scripts;
mod setups;

pub use config::{NodeConfig, NodeScheme, config_of};
pub use electors::NodeElector;
pub use faulty_member::FaultyMember;
pub use schemes::has_engine;
pub use setups::{are_few, first_bad};
