//! One member's rules, as definitions: what it knows, and from that its views, slots, votes, deadline,
//! requests and repairs.
//!
//! What a member knows since its start is one list of facts, the newest first; every rule is a function of
//! this list. Here are the definitions, the values that they answer, laws, and samples that compute. The
//! state that answers by them is `simplex_state`.
#![tactic(auto)]

mod effect;
mod laws;
mod request;
mod samples;

pub use effect::Effect;
pub use laws::votes_are_sound;
pub use request::{Asked, CertificateFetch, ProposalRequest, ProposalState, Verify};
pub use samples::{
    ancestry_comes_out, deadlines_come_out, effects_come_out, gaps_come_out, gate_comes_out,
    handoff_comes_out, own_votes_come_out, path_comes_out, replay_comes_out, terms_come_out,
    window_comes_out,
};
