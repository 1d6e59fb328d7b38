//! A step of the voter, planned whole.
ghost use Rattle.std.specs.Prelude.{◌≡◌, ◌<◌, ◌^◌, nat_le, true, None, Some, IfOk};
ghost use Rattle.model_rules.specs.Deadline.{deadline_of};
ghost use Rattle.simplex_messages.specs.declared.voter.VoterInput.TheVariants as inputs;
ghost use Rattle.model_steps.specs.Voter.{acted, answer_to, act_on_proposal, take_proposal};
ghost use Rattle.model_steps.specs.Desk.{begun};
ghost use Rattle.model_rules.specs.Pending.{is_open};
ghost use Rattle.std.specs.Option.{option_map};
ghost use Rattle.simplex_voter.specs.Arrivals.{is_before, least_of, pending_of};
ghost use Rattle.simplex_voter.specs.Stands.{Acts, Knows, Plans, due_at, take_held_payload};

use crate::planner::Planner;
use crate::request::{OpenRequest, PendingProposal};
use model_rules::ProposalState;
use simplex_messages::VoterInput;
use simplex_types::elector::Elector;
use simplex_types::{Digest, Scheme, View};
use std::alloc::AllocError;

// The view that acting touched, if any.
type Touched = Option<View>;

impl<S: Scheme + Drop, L: Elector + Drop> Planner<S, L> {
    /// When the step of the timer is due.
    #[tactic(auto, unfolding(crate::specs::Stands::doing_of, crate::specs::Stands::due_at))]
    pub(crate) fn next_deadline(&self) -> u64
        ensures { Knows self.now (λ made known. due_at made known) result }
    {
        let (deadline, _) = self.state.next_timeout();
        deadline
    }

    /// Whether the clock has reached the deadline.
    #[tactic(auto, unfolding(crate::specs::Stands::doing_of))]
    pub(crate) fn is_due(&self, now: u64) -> bool
        ensures { Knows self.now (λ made known. nat_le (deadline_of made known).0 now) result }
    {
        let deadline = self.state.next_timeout();
        deadline.0 <= now
    }

    // The deadline, where the clock has reached it.
    fn take_deadline(&mut self, now: u64) -> Result<Option<Touched>, AllocError>
        requires clock { now < 2 ^ 63 }
        ensures { IfOk result (Acts self.old self.new (λ made s. acted made now s inputs.Timer)) }
    {
        if !self.is_due(now) {
            return Ok(None);
        }
        let view = self.state.current_view();
        self.act_on_deadline(now)?;
        Ok(Some(Some(view)))
    }

    // The answer to the pending proposal request, which is open.
    fn take_answer(
        &mut self,
        pending: &PendingProposal,
        now: u64,
    ) -> Result<Option<Touched>, AllocError>
        requires clock { now < 2 ^ 63 }
        requires own { self.old.proposal ≡ Some pending.now }
        requires opened { is_open pending.now.state ≡ true }
        ensures { IfOk result (Acts self.old self.new
            (λ made s. option_map
            (λ answer. act_on_proposal made now (pending_of pending.now) answer
            (begun s.desk)) (answer_to s.answers pending.now.number))) }
    {
        match &pending.arrival {
            None => Ok(None),
            Some(arrival) => {
                let touched = self.act_on_proposal(pending, &arrival.answer, now)?;
                Ok(Some(touched))
            }
        }
    }

    // A held payload whose parent is certified.
    fn take_held(
        &mut self,
        pending: &PendingProposal,
        payload: &Digest,
    ) -> Result<Option<Touched>, AllocError>
        ensures { IfOk result (Acts self.old self.new
            (λ made s. take_held_payload made s (pending_of pending.now) payload.now)) }
    {
        if !self.state.parent_certified(pending.context.parent) {
            return Ok(None);
        }
        let touched = self.propose(pending, payload)?;
        Ok(Some(touched))
    }

    // What the pending proposal waits for.
    fn take_pending(
        &mut self,
        pending: &PendingProposal,
        now: u64,
    ) -> Result<Option<Touched>, AllocError>
        requires clock { now < 2 ^ 63 }
        requires own { self.old.proposal ≡ Some pending.now }
        ensures { IfOk result (Acts self.old self.new
            (λ made s. take_proposal made now s (pending_of pending.now) pending.now.state)) }
    {
        match &pending.state {
            ProposalState::Preparing => {
                let touched = self.take_answer(pending, now)?;
                Ok(touched)
            }
            ProposalState::Proposing => {
                let touched = self.take_answer(pending, now)?;
                Ok(touched)
            }
            ProposalState::Held(payload) => {
                let touched = self.take_held(pending, payload)?;
                Ok(touched)
            }
            ProposalState::Waiting => Ok(None),
            ProposalState::Closed => Ok(None),
        }
    }

    // The answer to the pending proposal request, or a held payload whose parent is certified.
    fn take_proposal(&mut self, now: u64) -> Result<Option<Touched>, AllocError>
        requires clock { now < 2 ^ 63 }
        ensures { IfOk result (Acts self.old self.new (λ made s. acted made now s inputs.Propose)) }
    {
        match self.proposal {
            None => Ok(None),
            Some(pending) => {
                let touched = self.take_pending(&pending, now)?;
                Ok(touched)
            }
        }
    }

    // The answer of the open Verify.
    fn take_verify(&mut self, now: u64) -> Result<Option<Touched>, AllocError>
        requires clock { now < 2 ^ 63 }
        ensures { IfOk result (Acts self.old self.new (λ made s. acted made now s inputs.Verify)) }
    {
        match self.verify {
            None => Ok(None),
            Some(request) => match &request.arrival {
                None => Ok(None),
                Some(arrival) => {
                    self.act_on_verify(&request, &arrival.answer, now)?;
                    Ok(Some(Some(request.view)))
                }
            },
        }
    }

    // The open Certify that was answered first, and its answer.
    fn take_certify(&mut self, now: u64) -> Result<Option<Touched>, AllocError>
        requires clock { now < 2 ^ 63 }
        ensures { IfOk result (Acts self.old self.new (λ made s. acted made now s inputs.Certify)) }
    {
        match first_answered(&self.certify) {
            None => Ok(None),
            Some(request) => match &request.arrival {
                None => Ok(None),
                Some(arrival) => {
                    let touched = self.act_on_certify(&request, &arrival.answer, now)?;
                    Ok(Some(touched))
                }
            },
        }
    }

    // What its source holds is taken; none where that is nothing. [early-end-skips-the-end]
    fn act(&mut self, input: VoterInput, now: u64) -> Result<Option<Touched>, AllocError>
        requires clock { now < 2 ^ 63 }
        ensures { IfOk result (Acts self.old self.new (λ made s. acted made now s input)) }
    {
        match input {
            VoterInput::Mail(message) => {
                let touched = self.act_on_mail(message, now)?;
                Ok(Some(touched))
            }
            VoterInput::Timer => {
                let touched = self.take_deadline(now)?;
                Ok(touched)
            }
            VoterInput::Propose => {
                let touched = self.take_proposal(now)?;
                Ok(touched)
            }
            VoterInput::Verify => {
                let touched = self.take_verify(now)?;
                Ok(touched)
            }
            VoterInput::Certify => {
                let touched = self.take_certify(now)?;
                Ok(touched)
            }
        }
    }

    /// All that a step does, before any stop. Whether its source held anything.
    pub(crate) fn plan(&mut self, input: VoterInput, now: u64) -> Result<bool, AllocError>
        requires clock { now < 2 ^ 63 }
        ensures { IfOk result (Plans self.old self.new now input) }
    {
        let before = self.state.current_view();
        let found = self.act(input, now)?;
        match found {
            None => Ok(false),
            Some(touched) => {
                self.finish(now, before, touched)?;
                Ok(true)
            }
        }
    }
}

// The one that was answered first.
#[tactic(auto, unfolding(crate::specs::Arrivals::least_of))]
pub(crate) fn first_answered(certify: &[OpenRequest]) -> Option<OpenRequest>
    ensures { result ≡ least_of None certify.now }
{
    let mut first: Option<OpenRequest> = None;
    for request in certify {
        if comes_first(request, &first) {
            first = Some(*request);
        }
    }
    first
}

// Whether the request was answered, and before the other one.
fn comes_first(request: &OpenRequest, other: &Option<OpenRequest>) -> bool
    ensures { result ≡ is_before request.now other.now }
{
    match (&request.arrival, other) {
        (None, _) => false,
        (Some(_), None) => true,
        (Some(arrival), Some(other)) => match &other.arrival {
            None => true,
            Some(earlier) => arrival.place < earlier.place,
        },
    }
}
