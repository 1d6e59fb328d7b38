//! What faulty members send, as definitions.
//!
//! Each of the seven kinds hears votes or certificates, and answers with votes of its own key that break the rules.
//! What it answers is one function of what it heard; random words are named by their places. A scheme can also be
//! wrapped so that it signs badly, or recovers no certificate. Here are the definitions, the values that they answer,
//! and samples that compute. The members that answer so are in `simplex_mocks`.
#![tactic(auto)]

mod behavior;
mod samples;
mod sent;

pub use behavior::Behavior;
pub use samples::{
    bits_are_turned, certificates_are_answered, votes_are_answered, words_come_out,
    wrapped_schemes_fail,
};
pub use sent::Sent;
