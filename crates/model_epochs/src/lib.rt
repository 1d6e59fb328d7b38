//! One network per epoch, as definitions: the runs of the epochs, each from the payload that closed the one before, and each
//! member's chain through them.
#![tactic(auto)]

mod chain;
mod samples;

pub use chain::{ChainEntry, EpochError};
pub use samples::{chains_come_out, epochs_come_out};
