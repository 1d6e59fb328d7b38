//! What the sources of a step hold.
ghost use Rattle.std.specs.Prelude.{◌≡◌, false, None, Some};
ghost use Rattle.std.specs.Option.{is_some, option_map, option_and_then};
ghost use Rattle.simplex_messages.specs.declared.voter.VoterInput.TheVariants as inputs;
ghost use Rattle.model_steps.specs.Voter.{acted};
ghost use Rattle.simplex_voter.specs.Actor.{next_answer};
ghost use Rattle.simplex_voter.specs.Arrivals.{answer_kept, with_number};
ghost use Rattle.simplex_voter.specs.Stands.{Says};

use crate::planner::Planner;
use crate::request::{Arrival, OpenRequest, PendingProposal};
use crate::stepping::first_answered;
use model_rules::ProposalState;
use simplex_messages::VoterInput;
use simplex_types::elector::Elector;
use simplex_types::{Answer, Scheme};

impl<S: Scheme + Drop, L: Elector + Drop> Planner<S, L> {
    // Whether an answer to the pending proposal came, or its payload is held and its parent certified.
    fn holds_proposal(&self, now: u64) -> bool
        ensures { Says self.now (λ made s. is_some (acted made now s inputs.Propose)) result }
    {
        let Some(pending) = &self.proposal else {
            return false;
        };
        match pending.state {
            ProposalState::Preparing => pending.arrival.is_some(),
            ProposalState::Proposing => pending.arrival.is_some(),
            ProposalState::Held(_) => self.state.parent_certified(pending.context.parent),
            ProposalState::Waiting => false,
            ProposalState::Closed => false,
        }
    }

    // Whether the answer to the open Verify came.
    fn holds_verify(&self, now: u64) -> bool
        ensures { Says self.now (λ made s. is_some (acted made now s inputs.Verify)) result }
    {
        match &self.verify {
            None => false,
            Some(request) => request.arrival.is_some(),
        }
    }

    // Whether the answer to an open Certify came.
    fn holds_certify(&self, now: u64) -> bool
        ensures { Says self.now (λ made s. is_some (acted made now s inputs.Certify)) result }
    {
        kept_answer(&first_answered(&self.certify)).is_some()
    }

    /// Whether the source holds anything.
    #[tactic(auto, unfolding(model_steps::specs::Voter::acted))]
    pub(crate) fn holds(&self, input: &VoterInput, now: u64) -> bool
        ensures { Says self.now (λ made s. is_some (acted made now s input.now)) result }
    {
        match input {
            VoterInput::Mail(_) => true,
            VoterInput::Timer => self.is_due(now),
            VoterInput::Propose => self.holds_proposal(now),
            VoterInput::Verify => self.holds_verify(now),
            VoterInput::Certify => self.holds_certify(now),
        }
    }

    /// The answer that a step with this source would take, and its request.
    pub(crate) fn next_answer(&self, input: &VoterInput) -> Option<(u64, Answer)>
        ensures { Says self.now (λ made s. next_answer s input.now) result }
    {
        match input {
            VoterInput::Propose => pending_answer(&self.proposal),
            VoterInput::Verify => kept_answer(&self.verify),
            VoterInput::Certify => kept_answer(&first_answered(&self.certify)),
            VoterInput::Mail(_) => None,
            VoterInput::Timer => None,
        }
    }
}

// The answer that came, with its request.
fn numbered(number: u64, arrival: &Option<Arrival>) -> Option<(u64, Answer)>
    ensures { result ≡ option_map (λ a. with_number number a.answer) arrival.now }
{
    match arrival {
        None => None,
        Some(arrival) => Some((number, arrival.answer)),
    }
}

// The answer that came to the pending proposal, if there is one, with its number.
fn pending_answer(proposal: &Option<PendingProposal>) -> Option<(u64, Answer)>
    ensures { result ≡ option_and_then (λ p. option_map
        (λ a. with_number p.number a.answer) p.arrival) proposal.now }
{
    match proposal {
        None => None,
        Some(pending) => numbered(pending.number, &pending.arrival),
    }
}

// The answer that came to the request, if there is one, with its number.
fn kept_answer(request: &Option<OpenRequest>) -> Option<(u64, Answer)>
    ensures { result ≡ answer_kept request.now }
{
    match request {
        None => None,
        Some(request) => numbered(request.number, &request.arrival),
    }
}
