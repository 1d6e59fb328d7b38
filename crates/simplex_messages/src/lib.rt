//! What the actors hand each other, what becomes of it where a mailbox is full, and what a step of one of
//! them gives.
//!
//! For a message for which there is no room its type's policy decides. A finalization or an update has a place
//! before all others, and drops what it makes needless; of messages that are about the same, one waits.
#![tactic(auto)]

mod alike;
pub mod batcher;
mod by_view;
mod call;
mod handed;
mod laws;
mod posting;
pub mod resolver;
mod samples;
mod step;
pub mod voter;

pub use batcher::BatcherInput;
pub use call::Call;
pub use handed::Handed;
pub use laws::{finality_rules, none_waits_twice, replayed_survives, update_rules};
pub use posting::post_to_voter;
pub use resolver::ResolverInput;
pub use samples::{
    batcher_mail_comes_out, handler_mail_comes_out, resolver_mail_comes_out, voter_mail_comes_out,
};
pub use step::{Outcome, StepOut, Stop};
pub use voter::VoterInput;
