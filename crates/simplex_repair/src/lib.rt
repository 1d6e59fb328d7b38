//! What one member holds for others, and which nullifications it lacks.
//!
//! A repair state is given certificates and verdicts. It answers what is settled, what it can hand to one
//! who asks for a view, and what follows from each call: asks that are settled, a floor that rose, and the
//! views whose nullification is to be asked for from now on.
#![tactic(auto)]

mod covers;
mod effects;
mod gaps;
mod laws;
mod notes;
mod repair;
mod taken;

pub use laws::gaps_are_what_is_lacking;
pub use repair::RepairState;
