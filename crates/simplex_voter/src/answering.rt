//! Answers of the application come to the open requests, and wait for a step.
ghost use Rattle.std.specs.Prelude.{◌≡◌, ◌+◌, ◌==◌, ◌||◌, nat_lt, if◌then◌else◌, false, true, Some, map};
ghost use Rattle.std.specs.Option.{option_map, option_map_or};
ghost use Rattle.std.specs.List.{list_any};
ghost use Rattle.simplex_messages.specs.declared.voter.VoterInput.TheVariants as inputs;
ghost use Rattle.model_steps.specs.Voter.{fits_proposal, fits_verdict, takes_answer, answered};
ghost use Rattle.simplex_voter.specs.Arrivals.{mark_pending, mark_request, pending_takes, request_takes, takes_in, taken_answer};
ghost use Rattle.simplex_voter.specs.Stands.{Becomes, Says};

use crate::planner::Planner;
use crate::request::{Arrival, OpenRequest, PendingProposal};
use model_rules::ProposalState;
use simplex_types::elector::Elector;
use simplex_types::{Answer, Scheme};

impl<S: Scheme + Drop, L: Elector + Drop> Planner<S, L> {
    // Whether the request is open, unanswered, and of the answer's kind.
    #[tactic(auto, unfolding(crate::specs::Arrivals::takes_in))]
    fn takes(&self, request: u64, answer: &Answer) -> bool
        ensures { result ≡ takes_in request answer.now self.now.proposal self.now.verify self.now.certify.items }
    {
        proposal_takes(&self.proposal, request, answer)
            || fits_verdict(answer) && self.judgement_takes(request)
    }

    // Whether a Verify or Certify of this number waits for its answer.
    fn judgement_takes(&self, request: u64) -> bool
        ensures { result ≡ (option_map_or (request_takes request) self.now.verify false
            || list_any (request_takes request) self.now.certify.items) }
    {
        verify_takes(&self.verify, request) || certify_takes(&self.certify, request)
    }

    // The answer came to the request of this number.
    fn keep_answer(&mut self, request: u64, answer: Answer)
        requires takes { takes_in request answer self.old.proposal self.old.verify self.old.certify.items ≡ true }
        ensures { Becomes self.old self.new (taken_answer request answer) }
    {
        let arrival = Arrival {
            place: self.arrivals,
            answer,
        };
        let arrivals = counted(self.arrivals, self.opened);
        mark_proposal(&mut self.proposal, request, &arrival);
        mark_verify(&mut self.verify, request, &arrival);
        mark_certify(&mut self.certify, request, &arrival);
        self.arrivals = arrivals;
    }

    /// Takes the answer, if it is one to an open request that waits for such a one.
    pub(crate) fn answer(&mut self, request: u64, answer: Answer) -> bool
        ensures stands { Becomes self.old self.new (answered request answer) }
        ensures answer { Says self.old (λ made s. takes_answer s request answer) result }
    {
        if self.takes(request, &answer) {
            self.keep_answer(request, answer);
            return true;
        }
        false
    }
}

// One answer more; there are never more than requests.
fn counted(arrivals: u64, opened: u64) -> u64
    ensures { result ≡ (if nat_lt arrivals opened then arrivals + 1 else arrivals) }
{
    if arrivals < opened {
        return arrivals + 1;
    }
    arrivals
}

// Whether the answer is one to a proposal request that stands so.
fn fits_proposal(state: &ProposalState, answer: &Answer) -> bool
    ensures { result ≡ fits_proposal state.now answer.now }
{
    match (state, answer) {
        (ProposalState::Preparing, Answer::Handoff(_) | Answer::Closed) => true,
        (ProposalState::Proposing, Answer::Payload(_) | Answer::Closed) => true,
        _ => false,
    }
}

// Whether the answer is one to a Verify or Certify.
fn fits_verdict(answer: &Answer) -> bool
    ensures { result ≡ fits_verdict answer.now }
{
    match answer {
        Answer::Verdict(_) | Answer::Closed => true,
        _ => false,
    }
}

// Whether the pending proposal's request has this number, and waits for such an answer.
fn proposal_takes(proposal: &Option<PendingProposal>, number: u64, answer: &Answer) -> bool
    ensures { result ≡ option_map_or (pending_takes number answer.now) proposal.now false }
{
    let Some(pending) = proposal else {
        return false;
    };
    pending.number == number && pending.arrival.is_none() && fits_proposal(&pending.state, answer)
}

// Whether the request has this number, and waits for its answer.
fn request_takes(request: &OpenRequest, number: u64) -> bool
    ensures { result ≡ request_takes number request.now }
{
    request.number == number && request.arrival.is_none()
}

// Whether the Verify has this number, and waits for its answer.
fn verify_takes(verify: &Option<OpenRequest>, number: u64) -> bool
    ensures { result ≡ option_map_or (request_takes number) verify.now false }
{
    let Some(request) = verify else {
        return false;
    };
    request_takes(request, number)
}

// Whether a Certify has this number, and waits for its answer.
fn certify_takes(certify: &[OpenRequest], number: u64) -> bool
    ensures { result ≡ list_any (request_takes number) certify.now }
{
    certify.iter().any(|request| request_takes(request, number))
}

// The answer came to the pending proposal, if its request has this number.
fn mark_proposal(proposal: &mut Option<PendingProposal>, number: u64, arrival: &Arrival)
    ensures { proposal.new ≡ option_map (mark_pending number arrival.now) proposal.old }
{
    if let Some(pending) = proposal {
        if pending.number == number {
            pending.arrival = Some(*arrival);
            pending.is_answered = true;
        }
    }
}

// The answer came to the request, if it has this number.
fn mark_request(request: &mut OpenRequest, number: u64, arrival: &Arrival)
    ensures { request.new ≡ mark_request number arrival.now request.old }
{
    if request.number == number {
        request.arrival = Some(*arrival);
    }
}

// The answer came to the Verify, if it has this number.
fn mark_verify(verify: &mut Option<OpenRequest>, number: u64, arrival: &Arrival)
    ensures { verify.new ≡ option_map (mark_request number arrival.now) verify.old }
{
    if let Some(request) = verify {
        mark_request(request, number, arrival);
    }
}

// The answer came to the Certify of this number.
fn mark_certify(certify: &mut Vec<OpenRequest>, number: u64, arrival: &Arrival)
    ensures { certify.new.items ≡ map (mark_request number arrival.now) certify.old.items }
{
    for request in certify.iter_mut() {
        mark_request(request, number, arrival);
    }
}
