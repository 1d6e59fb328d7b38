//! What a step of each actor does, as definitions, and what an engine takes.
//!
//! Every definition is a function of what the actor was given since its start. No code of an actor is here:
//! the actors' contracts, the engine's and those of whole runs all speak of these words.
#![tactic(auto)]

mod resolving;
mod samples;

pub use resolving::{
    nullifications_answer_for_their_term, resolver_answers, resolver_asks,
    resolver_passes_over_the_blocked,
};
pub use samples::one_member_alone;
