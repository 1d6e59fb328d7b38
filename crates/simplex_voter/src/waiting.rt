//! Which open requests have no answer yet.
ghost use Rattle.std.specs.Prelude.{◌≡◌, None, Some};
ghost use Rattle.std.specs.Option.{is_none, option_map, option_and_then};
ghost use Rattle.simplex_voter.specs.Arrivals.{if_waiting, pending_prepare, pending_propose, first_waiting};
ghost use Rattle.simplex_voter.specs.Stands.{Says};
ghost use Rattle.simplex_voter.specs.Unanswered.{unanswered};

use crate::kind::AskKind;
use crate::planner::Planner;
use crate::request::{Arrival, OpenRequest, PendingProposal};
use model_rules::ProposalState;
use simplex_types::Scheme;
use simplex_types::elector::Elector;

impl<S: Scheme + Drop, L: Elector + Drop> Planner<S, L> {
    /// The number of the oldest open request of this kind that has no answer.
    #[tactic(auto, unfolding(crate::specs::Unanswered::unanswered))]
    pub(crate) fn unanswered(&self, kind: AskKind) -> Option<u64>
        ensures { Says self.now (λ made s. unanswered s kind) result }
    {
        match kind {
            AskKind::Prepare => waiting_prepare(&self.proposal),
            AskKind::Propose => waiting_propose(&self.proposal),
            AskKind::Verify => waiting_verify(&self.verify),
            AskKind::Certify => waiting_certify(&self.certify),
        }
    }
}

// The number, where no answer came.
fn if_waiting(number: u64, arrival: &Option<Arrival>) -> Option<u64>
    ensures { result ≡ if_waiting number arrival.now }
{
    if arrival.is_none() {
        Some(number)
    } else {
        None
    }
}

// The open Prepare that waits for its answer.
fn waiting_prepare(proposal: &Option<PendingProposal>) -> Option<u64>
    ensures { result ≡ option_and_then pending_prepare proposal.now }
{
    let Some(pending) = proposal else {
        return None;
    };
    match pending.state {
        ProposalState::Preparing => if_waiting(pending.number, &pending.arrival),
        _ => None,
    }
}

// The open Propose that waits for its answer.
fn waiting_propose(proposal: &Option<PendingProposal>) -> Option<u64>
    ensures { result ≡ option_and_then pending_propose proposal.now }
{
    let Some(pending) = proposal else {
        return None;
    };
    match pending.state {
        ProposalState::Proposing => if_waiting(pending.number, &pending.arrival),
        _ => None,
    }
}

// The open Verify that waits for its answer.
fn waiting_verify(verify: &Option<OpenRequest>) -> Option<u64>
    ensures { result ≡ option_and_then (λ r. if_waiting r.number r.arrival) verify.now }
{
    let Some(request) = verify else {
        return None;
    };
    if_waiting(request.number, &request.arrival)
}

// The first open Certify that waits for its answer: they stand in the order in which they were opened.
#[tactic(auto, unfolding(crate::specs::Arrivals::first_waiting))]
fn waiting_certify(certify: &[OpenRequest]) -> Option<u64>
    ensures { result ≡ first_waiting certify.now }
{
    for request in certify {
        if request.arrival.is_none() {
            return Some(request.number);
        }
    }
    None
}
