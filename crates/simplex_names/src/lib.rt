//! The words by which texts call what has a name: the sources of a step, channels and kinds of members, both ways, and numbers.
//!
//! Inputs, scripts, records and what is told of a run have them in common, so that a word means the same in each.
#![tactic(auto)]

mod channels;
mod kinds;
mod numbers;
mod sources;

pub use channels::{channel_of, channel_word};
pub use kinds::named_kind_of;
pub use numbers::number_of;
pub use sources::{source_of, source_word};
