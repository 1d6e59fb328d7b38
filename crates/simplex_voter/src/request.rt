//! Open requests to the application, each with the answer that came.
use model_rules::ProposalState;
use simplex_types::{Answer, Context, View};

/// An answer that no step has taken yet.
#[derive(Clone, Copy, Debug, PartialEq, Eq)]
pub(crate) struct Arrival {
    // how many answers came before it
    pub(crate) place: u64,
    pub(crate) answer: Answer,
}

/// The pending proposal.
#[derive(Clone, Copy, Debug, PartialEq, Eq)]
pub(crate) struct PendingProposal {
    pub(crate) number: u64,
    pub(crate) context: Context,
    pub(crate) state: ProposalState,
    // the answer that came, also after a step took it
    pub(crate) arrival: Option<Arrival>,
    // whether an answer waits for a step
    pub(crate) is_answered: bool,
}

/// An open Verify or Certify.
#[derive(Clone, Copy, Debug, PartialEq, Eq)]
pub(crate) struct OpenRequest {
    pub(crate) number: u64,
    pub(crate) view: View,
    pub(crate) arrival: Option<Arrival>,
}
