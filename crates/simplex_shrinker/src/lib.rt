//! Leaves events out of a list while something stays so of what is left.
//!
//! What is to stay is a [`Probe`]. [`shrink`] leaves out long stretches first, then shorter ones, then single events, the last ones
//! first, until none can be left out alone. An event names packets and requests by the numbers of earlier events: what is left keeps
//! its names, under the new numbers, and an event whose packet or request is gone is left out with it.
#![tactic(auto)]

mod leaving;
mod probe;
mod without;

pub use leaving::shrink;
pub use probe::Probe;
