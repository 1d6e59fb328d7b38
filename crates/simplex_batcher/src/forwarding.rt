//! To whom a notarized proposal is forwarded.
ghost use Rattle.std.specs.Prelude.{◌≡◌, ◌++◌, ◌∷◌, [], ◌==◌, ℕ, filter, not, IfOk, OnOk};
ghost use Rattle.simplex_values.specs.declared.policy.ForwardPolicy.TheVariants.{SilentVoters, SilentLeader};
ghost use Rattle.model_steps.specs.Batcher.{forwarding, targets_of, relayed, some_passes};
ghost use Rattle.simplex_batcher.specs.Stands.{Does, ReadsRound};

use crate::actor::Actor;
use crate::work::make;
use simplex_messages::{Call, StepOut};
use simplex_round::Round;
use simplex_types::{ForwardPolicy, Participant, Plan, Proposal, Recipients, Scheme, Sequence};
use std::alloc::{AllocError, Global};

/// The proposal is sent to these members, if there is any.
fn relay(
    work: &mut StepOut,
    proposal: &Proposal,
    members: Vec<Participant>,
) -> Result<(), AllocError>
    ensures { OnOk result (work.new
        ≡ record work.old { calls = work.old.calls ++ relayed proposal.now members.items }) }
{
    if members.is_empty() {
        return Ok(());
    }
    let plan = Plan::Forward {
        round: proposal.round,
        recipients: Recipients::Some(Sequence::from_vec(members)),
    };
    let payload = proposal.payload;
    make(work, Call::Relay { payload, plan })?;
    Ok(())
}

/// Whether it is another member than this.
fn is_other(me: &Option<Participant>, member: Participant) -> bool
    ensures { result ≡ not (some_passes (λ own. own == member) me.now) }
{
    match me {
        None => true,
        Some(own) => *own != member,
    }
}

/// This member alone.
fn only(alloc: Global, member: Participant) -> Result<Vec<Participant>, AllocError>
    ensures { IfOk result (λ members. members.items ≡ member ∷ []) }
{
    let mut members = Vec::new(alloc);
    members.push(member)?;
    Ok(members)
}

/// The members of the list other than this.
fn without(
    alloc: Global,
    me: &Option<Participant>,
    members: &[Participant],
) -> Result<Vec<Participant>, AllocError>
    ensures { IfOk result (λ others. others.items
        ≡ filter (λ member. not (some_passes (λ own. own == member) me.now)) members.now) }
{
    let mut others = Vec::new(alloc);
    for member in members {
        if is_other(me, *member) {
            others.push(*member)?;
        }
    }
    Ok(others)
}

impl<S: Scheme + Drop> Actor<S> {
    /// The leader, where it is not this member and its notarize of the proposal was not seen.
    #[tactic(auto, unfolding(crate::specs::Rounds::round_of, simplex_round::specs::Stands::StandsFor, model_steps::specs::Batcher::targets_of))]
    fn silent_leader(
        &self,
        leader: Participant,
        proposal: &Proposal,
        round: &Round,
    ) -> Result<Vec<Participant>, AllocError>
        ensures { IfOk result (λ targets. ReadsRound self.now round.now
            (λ made history. targets_of made SilentLeader leader proposal.now history) targets.items) }
    {
        if self.is_me(leader) {
            return Ok(Vec::new(self.alloc));
        }
        if !round.is_missing_voter(proposal, leader) {
            return Ok(Vec::new(self.alloc));
        }
        let targets = only(self.alloc, leader)?;
        Ok(targets)
    }

    /// The other members whose notarize of the proposal was not seen.
    #[tactic(auto, unfolding(crate::specs::Rounds::round_of, simplex_round::specs::Stands::StandsFor, model_steps::specs::Batcher::targets_of))]
    fn silent_voters(
        &self,
        proposal: &Proposal,
        round: &Round,
    ) -> Result<Vec<Participant>, AllocError>
        ensures { IfOk result (λ targets. (leader : ℕ) → ReadsRound self.now round.now
            (λ made history. targets_of made SilentVoters leader proposal.now history) targets.items) }
    {
        let missing = round.missing_voters(self.alloc, proposal)?;
        let me = self.config.scheme.me();
        let others = without(self.alloc, &me, &missing)?;
        Ok(others)
    }

    /// Whom a proposal of the round's view is forwarded to.
    #[tactic(auto, unfolding(crate::specs::Stands::batcher_made, model_steps::specs::Batcher::targets_of))]
    fn targets(
        &self,
        leader: Participant,
        proposal: &Proposal,
        round: &Round,
    ) -> Result<Vec<Participant>, AllocError>
        ensures { IfOk result (λ targets. ReadsRound self.now round.now
            (λ made history. targets_of made made.forward leader proposal.now history) targets.items) }
    {
        match self.config.forward {
            ForwardPolicy::Disabled => Ok(Vec::new(self.alloc)),
            ForwardPolicy::SilentVoters => {
                let targets = self.silent_voters(proposal, round)?;
                Ok(targets)
            }
            ForwardPolicy::SilentLeader => {
                let targets = self.silent_leader(leader, proposal, round)?;
                Ok(targets)
            }
        }
    }

    /// The proposal, if there is one, is forwarded where its view has a round.
    #[tactic(auto, unfolding(crate::specs::Rounds::found, model_steps::specs::Batcher::forwarding))]
    pub(crate) fn forward(
        &self,
        leader: Participant,
        proposal: &Option<Proposal>,
        work: &mut StepOut,
    ) -> Result<(), AllocError>
        ensures { OnOk result (Does self.now work.old self.now work.new
            (λ made. forwarding made leader proposal.now)) }
    {
        let Some(proposal) = proposal else {
            return Ok(());
        };
        let Some(round) = self.rounds.get(proposal.round.view) else {
            return Ok(());
        };
        let targets = self.targets(leader, proposal, round)?;
        relay(work, proposal, targets)?;
        Ok(())
    }
}
