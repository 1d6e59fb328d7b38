//! A reporter that records what it is told.
#![tactic(auto)]

mod at_view;
mod casts;
mod certificates;
mod evidence;
mod faults;
mod finalized;
mod record;
mod reporter;
mod seen;
mod unlocked;
mod votes;

pub use reporter::{Config, Reporter};
