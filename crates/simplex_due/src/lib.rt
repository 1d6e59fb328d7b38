//! Which votes are due from a voter in a step, by what its node knows, and what the node knows behind the step.
//!
//! Of a step the certificates that it added are given, and what it took: the clock at a deadline, a message, or an
//! answer with the request that it is for. What is known afterwards is what the rules make of that, but for own
//! votes, which are known once they are appended.
#![tactic(auto)]

mod due;
mod lessons;
mod reading;
mod steps;

pub use due::Due;
pub use steps::{at_deadline, on_answer, on_certificate, on_proposal, on_timeout};
