//! What the planner's state is told.
ghost use Rattle.std.specs.Prelude.{◌≡◌, ℕ, List, IfOk, OnOk, ◌<◌, ◌^◌};
ghost use Rattle.simplex_values.specs.declared.answer.Answer.{Answer};
ghost use Rattle.model_rules.specs.Known.{Made};
ghost use Rattle.model_rules.specs.Calls.{SetFloor, Replay, SetProposal, Proposed, Verified, VerificationFailed, Certified, AddNotarization, AddNullification, AddFinalization, TriggerTimeout, ConstructNotarize, ConstructNullify, ConstructFinalize, BroadcastNotarization, BroadcastNullification, BroadcastFinalization, TryPropose, TryVerify, CertifyCandidates, Prune, certified_answer, add_notarization_answer, adds_nullification, add_finalization_answer, construct_nullify_answer, unsent_notarization, unsent_nullification, unsent_finalization, prune_answer, replay_answer};
ghost use Rattle.model_rules.specs.Views.{current_of};
ghost use Rattle.model_rules.specs.Slot.{records_proposal, records_answer};
ghost use Rattle.model_rules.specs.Votes.{notarize_at, finalize_at};
ghost use Rattle.model_rules.specs.Requests.{proposal_request, verify_request, certify_requests, parent_fetches};
ghost use Rattle.model_steps.specs.Desk.{Doing, tell};
ghost use Rattle.simplex_state.specs.Stands.{Answers};
ghost use Rattle.simplex_voter.specs.Stands.{Does, Knows, Restores, Stands, IsWhole};

use crate::planner::Planner;
use model_rules::{CertificateFetch, ProposalRequest, Verify};
use simplex_types::elector::Elector;
use simplex_types::{
    Artifact, Context, Digest, Finalization, Finalize, Floor, Notarization, Notarize,
    Nullification, Nullify, Participant, Proposal, Scheme, TimeoutReason, View,
};
use std::alloc::AllocError;

#[tactic(auto, unfolding(crate::specs::Stands::doing_of, model_rules::specs::Calls::known_of))]
impl<S: Scheme + Drop, L: Elector + Drop> Planner<S, L> {
    pub(crate) fn set_proposal(&mut self, proposal: &Proposal) -> Result<bool, AllocError>
        ensures stands { OnOk result (Does self.old self.new
            (λ made. tell made (SetProposal proposal.now.round.view proposal.now))) }
        ensures answer { IfOk result (Knows self.old
            (λ made known. records_proposal made known proposal.now)) }
    {
        let is_recorded = self.state.set_proposal(proposal.round.view, proposal)?;
        Ok(is_recorded)
    }

    pub(crate) fn proposed(
        &mut self,
        context: &Context,
        payload: Digest,
    ) -> Result<bool, AllocError>
        ensures stands { OnOk result (Does self.old self.new
            (λ made. tell made (Proposed context.now payload))) }
        ensures answer { IfOk result (Knows self.old
            (λ made known. records_answer made known context.now.round.view)) }
    {
        let is_recorded = self.state.proposed(context, payload)?;
        Ok(is_recorded)
    }

    pub(crate) fn certified(
        &mut self,
        view: View,
        good: bool,
        now: u64,
    ) -> Result<Option<Notarization>, AllocError>
        requires clock { now < 2 ^ 63 }
        ensures stands { OnOk result (Does self.old self.new
            (λ made. tell made (Certified view good now))) }
        ensures answer { IfOk result (Knows self.old (λ made known. certified_answer known view)) }
    {
        let taken = self.state.certified(view, good, now)?;
        Ok(taken)
    }

    pub(crate) fn add_notarization(
        &mut self,
        notarization: Notarization,
        now: u64,
    ) -> Result<(bool, Option<Participant>), AllocError>
        requires clock { now < 2 ^ 63 }
        ensures stands { OnOk result (Does self.old self.new
            (λ made. tell made (AddNotarization notarization now))) }
        ensures answer { IfOk result (Knows self.old
            (λ made known. add_notarization_answer made known notarization)) }
    {
        let answer = self.state.add_notarization(notarization, now)?;
        Ok(answer)
    }

    pub(crate) fn add_nullification(
        &mut self,
        nullification: Nullification,
        now: u64,
    ) -> Result<bool, AllocError>
        requires clock { now < 2 ^ 63 }
        ensures stands { OnOk result (Does self.old self.new
            (λ made. tell made (AddNullification nullification now))) }
        ensures answer { IfOk result (Knows self.old
            (λ made known. adds_nullification made known nullification)) }
    {
        let is_added = self.state.add_nullification(nullification, now)?;
        Ok(is_added)
    }

    pub(crate) fn add_finalization(
        &mut self,
        finalization: Finalization,
        now: u64,
    ) -> Result<(bool, Option<Participant>), AllocError>
        requires clock { now < 2 ^ 63 }
        ensures stands { OnOk result (Does self.old self.new
            (λ made. tell made (AddFinalization finalization now))) }
        ensures answer { IfOk result (Knows self.old
            (λ made known. add_finalization_answer made known finalization)) }
    {
        let answer = self.state.add_finalization(finalization, now)?;
        Ok(answer)
    }

    pub(crate) fn trigger_timeout(
        &mut self,
        view: View,
        reason: TimeoutReason,
        now: u64,
    ) -> Result<(), AllocError>
        requires clock { now < 2 ^ 63 }
        ensures { OnOk result (Does self.old self.new
            (λ made. tell made (TriggerTimeout view reason now))) }
    {
        self.state.trigger_timeout(view, reason, now)?;
        Ok(())
    }

    pub(crate) fn verified(&mut self, view: View) -> Result<(), AllocError>
        ensures { OnOk result (Does self.old self.new (λ made. tell made (Verified view))) }
    {
        self.state.verified(view)?;
        Ok(())
    }

    pub(crate) fn verification_failed(
        &mut self,
        view: View,
        reason: TimeoutReason,
        now: u64,
    ) -> Result<(), AllocError>
        requires clock { now < 2 ^ 63 }
        ensures { OnOk result (Does self.old self.new
            (λ made. tell made (VerificationFailed view reason now))) }
    {
        self.state.verification_failed(view, reason, now)?;
        Ok(())
    }

    pub(crate) fn construct_notarize(&mut self, view: View) -> Result<Option<Notarize>, AllocError>
        ensures stands { OnOk result (Does self.old self.new
            (λ made. tell made (ConstructNotarize view))) }
        ensures answer { IfOk result (Knows self.old (λ made known. notarize_at made known view)) }
    {
        let vote = self.state.construct_notarize(view)?;
        Ok(vote)
    }

    // The member gives its current view up. The answer tells the view, and whether the nullify is a repeat.
    pub(crate) fn construct_nullify(
        &mut self,
        view: View,
        reason: TimeoutReason,
        now: u64,
    ) -> Option<(bool, Nullify)>
        requires clock { now < 2 ^ 63 }
        requires current { Answers self.old.state (λ made known. current_of made known) view }
        ensures stands { Does self.old self.new
            (λ made. tell made (ConstructNullify view reason now)) }
        ensures answer { Knows self.old
            (λ made known. construct_nullify_answer made known view) result }
    {
        self.state.construct_nullify(view, reason, now)
    }

    pub(crate) fn construct_finalize(&mut self, view: View) -> Result<Option<Finalize>, AllocError>
        ensures stands { OnOk result (Does self.old self.new
            (λ made. tell made (ConstructFinalize view))) }
        ensures answer { IfOk result (Knows self.old (λ made known. finalize_at made known view)) }
    {
        let vote = self.state.construct_finalize(view)?;
        Ok(vote)
    }

    pub(crate) fn broadcast_notarization(
        &mut self,
        view: View,
    ) -> Result<Option<Notarization>, AllocError>
        ensures stands { OnOk result (Does self.old self.new
            (λ made. tell made (BroadcastNotarization view))) }
        ensures answer { IfOk result (Knows self.old
            (λ made known. unsent_notarization known view)) }
    {
        let unsent = self.state.broadcast_notarization(view)?;
        Ok(unsent)
    }

    pub(crate) fn broadcast_nullification(
        &mut self,
        view: View,
    ) -> Result<Option<Nullification>, AllocError>
        ensures stands { OnOk result (Does self.old self.new
            (λ made. tell made (BroadcastNullification view))) }
        ensures answer { IfOk result (Knows self.old
            (λ made known. unsent_nullification known view)) }
    {
        let unsent = self.state.broadcast_nullification(view)?;
        Ok(unsent)
    }

    pub(crate) fn broadcast_finalization(
        &mut self,
        view: View,
    ) -> Result<Option<Finalization>, AllocError>
        ensures stands { OnOk result (Does self.old self.new
            (λ made. tell made (BroadcastFinalization view))) }
        ensures answer { IfOk result (Knows self.old
            (λ made known. unsent_finalization known view)) }
    {
        let unsent = self.state.broadcast_finalization(view)?;
        Ok(unsent)
    }

    pub(crate) fn try_propose(&mut self) -> Result<Option<ProposalRequest>, AllocError>
        ensures stands { OnOk result (Does self.old self.new (λ made. tell made TryPropose)) }
        ensures answer { IfOk result (Knows self.old (λ made known. proposal_request made known)) }
        ensures same { self.new.proposal ≡ self.old.proposal }
    {
        let request = self.state.try_propose()?;
        Ok(request)
    }

    pub(crate) fn try_verify(&mut self) -> Result<Verify, AllocError>
        ensures stands { OnOk result (Does self.old self.new (λ made. tell made TryVerify)) }
        ensures answer { IfOk result (Knows self.old (λ made known. verify_request made known)) }
        ensures same { self.new.verify ≡ self.old.verify }
    {
        let request = self.state.try_verify()?;
        Ok(request)
    }

    pub(crate) fn certify_candidates(
        &mut self,
    ) -> Result<(Vec<Proposal>, Vec<CertificateFetch>), AllocError>
        ensures stands { OnOk result (Does self.old self.new
            (λ made. tell made CertifyCandidates)) }
        ensures requests { IfOk result (λ found. Knows self.old
            (λ made known. certify_requests known) found.0.items) }
        ensures fetches { IfOk result (λ found. Knows self.old
            (λ made known. parent_fetches known) found.1.items) }
    {
        let found = self.state.certify_candidates()?;
        Ok(found)
    }

    pub(crate) fn tell_prune(&mut self) -> Option<View>
        ensures stands { Does self.old self.new (λ made. tell made Prune) }
        ensures answer { Knows self.old (λ made known. prune_answer made known) result }
    {
        self.state.prune()
    }

    // The state stands on the floor.
    pub(crate) fn set_floor(&mut self, floor: Floor, now: u64) -> Result<(), AllocError>
        requires clock { now < 2 ^ 63 }
        ensures { OnOk result (Restores self.old self.new
            (λ made. tell made (SetFloor floor now))) }
    {
        self.state.set_floor(floor, now)?;
        Ok(())
    }

    // A kept record is known again. The answer is the member to block.
    pub(crate) fn replay(
        &mut self,
        artifact: Artifact,
        now: u64,
    ) -> Result<Option<Participant>, AllocError>
        requires clock { now < 2 ^ 63 }
        ensures stands { OnOk result (Restores self.old self.new
            (λ made. tell made (Replay artifact now))) }
        ensures answer { IfOk result
            (λ leader. (made : Made) (answers : List (ℕ × Answer)) (doing : Doing)
            → Stands self.old made answers doing → IsWhole doing.desk.known
            → leader ≡ replay_answer made doing.desk.known artifact) }
    {
        let leader = self.state.replay(artifact, now)?;
        Ok(leader)
    }
}
