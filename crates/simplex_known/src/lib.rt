//! What one node knows since its start, as far as votes rest on it: kept by view, and looked up as the rules do.
//!
//! A [`Known`] stands for a list of facts, the newest first, whichever they are: also for those of a record that
//! somebody made up. Each look-up is logarithmic, and a fact that comes again takes no more room.
#![tactic(auto)]

mod ancestry;
mod covers;
mod known;
mod learning;
mod proposals;
mod replaying;
mod rounds;
mod rules;
mod slots;
mod votes;

pub use known::Known;
pub use rules::Rules;
