//! The judge of a record of a run: which fault it has, at which event, or that it has none. No engine is run.
#![tactic(auto)]

mod follower;
mod followers;
mod judge;
mod sending;
mod verdict;

pub use judge::Judge;
pub use verdict::audit;
