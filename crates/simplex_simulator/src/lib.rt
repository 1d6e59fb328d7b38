//! Makes the events of a run by itself: whatever an event gives rise to is done in its turn, and where nothing is left, time goes by.
//!
//! A [`Plan`] has the seed of all that is drawn, how many choices are made, and what goes wrong, in percent. [`simulate`] makes one
//! choice after another: the next job is one of the few oldest, so that members go on side by side and none waits for ever. A step
//! is made where its source holds something, a packet is delivered, and what was asked is answered: a payload of random bytes, and
//! yes to all else. An event that the network refuses is none of the run. A choice costs no more as the run grows.
#![tactic(auto)]

mod jobs;
mod luck;
mod plan;
mod simulation;
mod whole;

pub use plan::{Chances, Plan};
pub use whole::simulate;
