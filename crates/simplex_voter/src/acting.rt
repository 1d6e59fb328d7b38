//! What a step does with what its source holds. Each call gives the view that it touches; none ends the step there.
ghost use Rattle.std.specs.Prelude.{◌≡◌, ◌==◌, ◌++◌, ◌∷◌, [], ◌<◌, ◌^◌, not, filter, if◌then◌else◌, OnOk, IfOk, true, false, Some, None};
ghost use Rattle.model_rules.specs.Calls.{SetProposal, replay_answer};
ghost use Rattle.model_rules.specs.Slot.{records_proposal};
ghost use Rattle.model_rules.specs.Pending.{is_open};
ghost use Rattle.model_steps.specs.Desk.{tell};
ghost use Rattle.model_steps.specs.Voter.{act_on_deadline, settle_proposal, proposal_stands, propose, stage, give_up, act_on_proposal, act_on_verify, settle_certify, take_verdict, act_on_certify, record_of, adds, adding, act_on_certificate, act_on_mail};
ghost use Rattle.simplex_voter.specs.Arrivals.{pending_of, opened_of};
ghost use Rattle.simplex_voter.specs.Stands.{Does, Knows, Finds, on_desk, recorded, with_nullify, act_on_handoff};

use crate::planner::Planner;
use crate::request::{OpenRequest, PendingProposal};
use model_rules::ProposalState;
use simplex_messages::{Call, Handed, resolver, voter};
use simplex_types::elector::Elector;
use simplex_types::{
    Answer, Artifact, Certificate, Digest, Handoff, Keep, Notarization, Nullify, Participant, Plan,
    Proposal, Scheme, TimeoutReason, View,
};
use std::alloc::AllocError;

#[tactic(auto, unfolding(crate::specs::Stands::doing_of))]
impl<S: Scheme + Drop, L: Elector + Drop> Planner<S, L> {
    // The nullify is published at the end of the step: the first is appended now, a repeat takes the certificate along.
    fn keep_nullify(
        &mut self,
        vote: &Option<(bool, Nullify)>,
        best: Option<Certificate>,
    ) -> Result<(), AllocError>
        ensures { OnOk result (Does self.old self.new (λ made. with_nullify vote.now best)) }
    {
        match vote {
            None => {}
            Some((true, nullify)) => self.nullify = Some((*nullify, best)),
            Some((false, nullify)) => {
                self.append(Artifact::Nullify(*nullify))?;
                self.nullify = Some((*nullify, None));
            }
        }
        Ok(())
    }

    /// The own nullify of the current view: the first time it is appended; a repeat takes the best certificate along.
    #[tactic(auto, unfolding(crate::specs::Stands::doing_of, model_steps::specs::Voter::act_on_deadline, model_rules::specs::Calls::construct_nullify_answer))]
    pub(crate) fn act_on_deadline(&mut self, now: u64) -> Result<(), AllocError>
        requires clock { now < 2 ^ 63 }
        ensures { OnOk result (Does self.old self.new (λ made. act_on_deadline made now)) }
    {
        let best = self.state.get_best_certificate()?;
        let view = self.state.current_view();
        let vote = self.construct_nullify(view, TimeoutReason::LeaderTimeout, now);
        self.keep_nullify(&vote, best)?;
        Ok(())
    }

    // The pending proposal is done with.
    fn settle_proposal(&mut self)
        ensures { Does self.old self.new (λ made. settle_proposal) }
    {
        self.proposal = None;
    }

    // The pending proposal stands so from now on.
    fn proposal_stands(&mut self, pending: &PendingProposal, state: ProposalState)
        requires own { self.old.proposal ≡ Some pending.now }
        requires closed { is_open state ≡ false }
        ensures { Does self.old self.new (λ made. proposal_stands (pending_of pending.now) state) }
    {
        self.proposal = Some(PendingProposal {
            number: pending.number,
            context: pending.context,
            state,
            arrival: pending.arrival,
            is_answered: false,
        });
    }

    /// The application's payload is recorded and relayed, where its view is still free for it.
    #[tactic(auto, unfolding(crate::specs::Stands::doing_of, model_steps::specs::Voter::propose))]
    pub(crate) fn propose(
        &mut self,
        pending: &PendingProposal,
        payload: &Digest,
    ) -> Result<Option<View>, AllocError>
        ensures stands { OnOk result (Does self.old self.new
            (λ made doing. (propose made (pending_of pending.now) payload.now doing).0)) }
        ensures view { IfOk result (Finds self.old
            (λ made doing. (propose made (pending_of pending.now) payload.now doing).1)) }
    {
        let is_recorded = self.proposed(&pending.context, *payload)?;
        self.settle_proposal();
        if !is_recorded {
            return Ok(None);
        }
        let round = pending.context.round;
        self.make(Call::Relay {
            payload: *payload,
            plan: Plan::Propose { round },
        })?;
        Ok(Some(pending.context.round.view))
    }

    // A payload for the next term waits until its parent is certified.
    #[tactic(auto, unfolding(crate::specs::Stands::doing_of, model_steps::specs::Voter::stage))]
    fn stage(
        &mut self,
        pending: &PendingProposal,
        payload: &Digest,
    ) -> Result<Option<View>, AllocError>
        requires own { self.old.proposal ≡ Some pending.now }
        ensures stands { OnOk result (Does self.old self.new
            (λ made doing. (stage made (pending_of pending.now) payload.now doing).0)) }
        ensures view { IfOk result (Finds self.old
            (λ made doing. (stage made (pending_of pending.now) payload.now doing).1)) }
    {
        if self.state.parent_certified(pending.context.parent) {
            let view = self.propose(pending, payload)?;
            return Ok(view);
        }
        self.proposal_stands(pending, ProposalState::Held(*payload));
        let round = pending.context.round;
        self.make(Call::Relay {
            payload: *payload,
            plan: Plan::Prepare { round },
        })?;
        Ok(None)
    }

    // No payload comes: the view of an ordinary request fails, that of a handoff once its parent is certified.
    #[tactic(auto, unfolding(crate::specs::Stands::doing_of, model_steps::specs::Voter::give_up))]
    fn give_up(&mut self, pending: &PendingProposal, now: u64) -> Result<(), AllocError>
        requires clock { now < 2 ^ 63 }
        requires own { self.old.proposal ≡ Some pending.now }
        ensures { OnOk result (Does self.old self.new
            (λ made doing. (give_up made now (pending_of pending.now) pending.now.state doing).0)) }
    {
        match pending.state {
            ProposalState::Preparing => self.proposal_stands(pending, ProposalState::Closed),
            _ => {
                self.trigger_timeout(
                    pending.context.round.view,
                    TimeoutReason::MissingProposal,
                    now,
                )?;
                self.proposal = None;
            }
        }
        Ok(())
    }

    // The application's decision on a proposal for the next term.
    #[tactic(auto, unfolding(model_steps::specs::Voter::act_on_proposal))]
    fn act_on_handoff(
        &mut self,
        pending: &PendingProposal,
        decision: &Handoff<Digest>,
    ) -> Result<Option<View>, AllocError>
        requires own { self.old.proposal ≡ Some pending.now }
        ensures stands { OnOk result (Does self.old self.new
            (λ made doing. (act_on_handoff made (pending_of pending.now) decision.now doing).0)) }
        ensures view { IfOk result (Finds self.old
            (λ made doing. (act_on_handoff made (pending_of pending.now) decision.now doing).1)) }
    {
        match decision {
            Handoff::Wait => {
                self.proposal_stands(pending, ProposalState::Waiting);
                Ok(None)
            }
            Handoff::Stage(payload) => {
                let view = self.stage(pending, payload)?;
                Ok(view)
            }
            Handoff::Vote(payload) => {
                let view = self.propose(pending, payload)?;
                Ok(view)
            }
        }
    }

    /// The answer to the pending proposal request.
    #[tactic(auto, unfolding(model_steps::specs::Voter::act_on_proposal, model_steps::specs::Voter::give_up))]
    pub(crate) fn act_on_proposal(
        &mut self,
        pending: &PendingProposal,
        answer: &Answer,
        now: u64,
    ) -> Result<Option<View>, AllocError>
        requires clock { now < 2 ^ 63 }
        requires own { self.old.proposal ≡ Some pending.now }
        ensures stands { OnOk result (Does self.old self.new
            (λ made doing. (act_on_proposal made now
            (pending_of pending.now) answer.now doing).0)) }
        ensures view { IfOk result (Finds self.old
            (λ made doing. (act_on_proposal made now
            (pending_of pending.now) answer.now doing).1)) }
    {
        match answer {
            Answer::Payload(payload) => {
                let view = self.propose(pending, payload)?;
                Ok(view)
            }
            Answer::Handoff(decision) => {
                let view = self.act_on_handoff(pending, decision)?;
                Ok(view)
            }
            Answer::Verdict(_) => Ok(None),
            Answer::Closed => {
                self.give_up(pending, now)?;
                Ok(None)
            }
        }
    }

    /// The application's judgement of the proposal that it was given to verify.
    #[tactic(auto, unfolding(crate::specs::Stands::doing_of, model_steps::specs::Voter::act_on_verify))]
    pub(crate) fn act_on_verify(
        &mut self,
        request: &OpenRequest,
        answer: &Answer,
        now: u64,
    ) -> Result<(), AllocError>
        requires clock { now < 2 ^ 63 }
        ensures { OnOk result (Does self.old self.new
            (λ made doing. (act_on_verify made now (opened_of request.now) answer.now doing).0)) }
    {
        self.settle_verify();
        match answer {
            Answer::Verdict(true) => {
                self.verified(request.view)?;
                Ok(())
            }
            Answer::Verdict(false) => {
                self.verification_failed(request.view, TimeoutReason::InvalidProposal, now)?;
                Ok(())
            }
            _ => {
                self.verification_failed(request.view, TimeoutReason::IgnoredProposal, now)?;
                Ok(())
            }
        }
    }

    // The open Verify is done with.
    fn settle_verify(&mut self)
        ensures { Does self.old self.new (λ made. on_desk (λ desk. record desk { verify = None })) }
    {
        self.verify = None;
    }

    // The request of this number is no longer open.
    fn settle_certify(&mut self, number: u64)
        ensures { Does self.old self.new (λ made. settle_certify number) }
    {
        keep_others(&mut self.certify, number);
    }

    // A verdict that is taken is appended.
    fn take_verdict(
        &mut self,
        view: View,
        good: bool,
        taken: Option<Notarization>,
    ) -> Result<Option<View>, AllocError>
        ensures stands { OnOk result (Does self.old self.new
            (λ made doing. (take_verdict made view good taken doing).0)) }
        ensures view { IfOk result (Finds self.old
            (λ made doing. (take_verdict made view good taken doing).1)) }
    {
        let Some(notarization) = taken else {
            return Ok(None);
        };
        let round = notarization.round();
        self.append(Artifact::Certification(round, good))?;
        self.verdict = Some((notarization, good));
        Ok(Some(view))
    }

    /// The application's verdict on a notarized proposal.
    #[tactic(auto, unfolding(model_steps::specs::Voter::act_on_certify))]
    pub(crate) fn act_on_certify(
        &mut self,
        request: &OpenRequest,
        answer: &Answer,
        now: u64,
    ) -> Result<Option<View>, AllocError>
        requires clock { now < 2 ^ 63 }
        ensures stands { OnOk result (Does self.old self.new
            (λ made doing. (act_on_certify made now (opened_of request.now) answer.now doing).0)) }
        ensures view { IfOk result (Finds self.old
            (λ made doing. (act_on_certify made now (opened_of request.now) answer.now doing).1)) }
    {
        self.settle_certify(request.number);
        let Answer::Verdict(good) = answer else {
            return Ok(Some(request.view));
        };
        let taken = self.certified(request.view, *good, now)?;
        let view = self.take_verdict(request.view, *good, taken)?;
        Ok(view)
    }

    // The state adds the certificate. The answer tells whether it did, and whom the certificate contradicts.
    #[tactic(auto, unfolding(model_rules::specs::Calls::add_notarization_answer, model_rules::specs::Calls::add_finalization_answer))]
    fn add_certificate(
        &mut self,
        certificate: &Certificate,
        now: u64,
    ) -> Result<(bool, Option<Participant>), AllocError>
        requires clock { now < 2 ^ 63 }
        ensures stands { OnOk result (Does self.old self.new
            (λ made. tell made (adding certificate.now now))) }
        ensures added { IfOk result (λ it. Knows self.old
            (λ made known. adds made known certificate.now) it.0) }
        ensures leader { IfOk result (λ it. it.0 ≡ true
            → Knows self.old (λ made known. replay_answer made known
            (record_of certificate.now)) it.1) }
    {
        match certificate {
            Certificate::Notarization(notarization) => {
                let answer = self.add_notarization(notarization.keep(self.alloc)?, now)?;
                Ok(answer)
            }
            Certificate::Nullification(nullification) => {
                let is_added = self.add_nullification(nullification.keep(self.alloc)?, now)?;
                Ok((is_added, None))
            }
            Certificate::Finalization(finalization) => {
                let answer = self.add_finalization(finalization.keep(self.alloc)?, now)?;
                Ok(answer)
            }
        }
    }

    // The certificate became known.
    fn list_added(&mut self, certificate: Certificate) -> Result<(), AllocError>
        ensures { OnOk result (Does self.old self.new
            (λ made doing. record doing { added = doing.added ++ certificate ∷ [] })) }
    {
        self.out.added.push(certificate)?;
        Ok(())
    }

    // A certificate that was added is appended, its view's leader blocked, and the resolver told.
    fn record_certificate(
        &mut self,
        certificate: Certificate,
        leader: Option<Participant>,
    ) -> Result<(), AllocError>
        ensures { OnOk result (Does self.old self.new (λ made. recorded certificate leader)) }
    {
        let added = certificate.keep(self.alloc)?;
        self.list_added(added)?;
        let kept = certificate.keep(self.alloc)?;
        let record = record_for(kept);
        self.append(record)?;
        self.block(leader)?;
        self.hand(Handed::Resolver(resolver::MailboxMessage::Updated { certificate }))?;
        Ok(())
    }

    // A certificate that verifies.
    #[tactic(auto, unfolding(crate::specs::Stands::doing_of, model_steps::specs::Voter::act_on_certificate))]
    fn act_on_certificate(
        &mut self,
        certificate: Certificate,
        now: u64,
    ) -> Result<Option<View>, AllocError>
        requires clock { now < 2 ^ 63 }
        ensures stands { OnOk result (Does self.old self.new
            (λ made doing. (act_on_certificate made now certificate doing).0)) }
        ensures view { IfOk result (Finds self.old
            (λ made doing. (act_on_certificate made now certificate doing).1)) }
    {
        let view = certificate.view();
        let is_admitted = self.state.admits_certificate(view);
        let (is_added, leader) = self.add_certificate(&certificate, now)?;
        if !is_admitted {
            return Ok(None);
        }
        if is_added {
            self.record_certificate(certificate, leader)?;
        }
        Ok(Some(view))
    }

    // The leader's proposal.
    fn act_on_leader(&mut self, proposal: &Proposal) -> Result<Option<View>, AllocError>
        ensures stands { OnOk result (Does self.old self.new
            (λ made. tell made (SetProposal proposal.now.round.view proposal.now))) }
        ensures view { IfOk result (Finds self.old
            (λ made doing. if records_proposal made doing.desk.known proposal.now then Some proposal.now.round.view else None)) }
    {
        if self.set_proposal(proposal)? {
            return Ok(Some(proposal.round.view));
        }
        Ok(None)
    }

    /// A message.
    #[tactic(auto, unfolding(model_steps::specs::Voter::act_on_mail))]
    pub(crate) fn act_on_mail(
        &mut self,
        message: voter::Message,
        now: u64,
    ) -> Result<Option<View>, AllocError>
        requires clock { now < 2 ^ 63 }
        ensures stands { OnOk result (Does self.old self.new
            (λ made doing. (act_on_mail made now message doing).0)) }
        ensures view { IfOk result (Finds self.old
            (λ made doing. (act_on_mail made now message doing).1)) }
    {
        match message {
            voter::Message::Proposal { proposal } => {
                let view = self.act_on_leader(&proposal)?;
                Ok(view)
            }
            voter::Message::Timeout { round, reason } => {
                self.trigger_timeout(round.view, reason, now)?;
                Ok(Some(round.view))
            }
            voter::Message::Verified { certificate } => {
                let view = self.act_on_certificate(certificate, now)?;
                Ok(view)
            }
        }
    }
}

// The requests of other numbers stay open.
fn keep_others(certify: &mut Vec<OpenRequest>, number: u64)
    ensures { certify.new.items ≡ filter (λ r. not (r.number == number)) certify.old.items }
{
    certify.retain(|request| request.number != number);
}

// The journal's record of the certificate.
fn record_for(certificate: Certificate) -> Artifact
    ensures { result ≡ record_of certificate }
{
    match certificate {
        Certificate::Notarization(it) => Artifact::Notarization(it),
        Certificate::Nullification(it) => Artifact::Nullification(it),
        Certificate::Finalization(it) => Artifact::Finalization(it),
    }
}
