//! An audit: records of runs, made and judged.
#![tactic(auto)]

mod recording;

pub use recording::record_of;
