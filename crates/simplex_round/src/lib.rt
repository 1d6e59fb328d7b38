//! One view's votes: which are accepted, what they are evidence of, and the certificates that they make.
#![tactic(auto)]

mod accused;
mod assembly;
mod ballot;
mod ballots;
mod batch;
mod evidence;
mod findings;
mod laws;
mod round;
mod samples;
mod verifier;
mod votes;

pub use batch::{Batch, RoundOut};
pub use laws::{accepted_votes_are_their_senders, evidence_names_its_signer};
pub use round::Round;
pub use samples::{certificates_come_out, proposals_come_out, votes_come_out};
pub use verifier::Verifier;
pub use votes::is_same_subject;
