//! What a voter plans its steps on: what it knows, its open requests, and what the step does.
ghost use Rattle.std.specs.Prelude.{◌≡◌, ◌++◌, ◌<◌, ◌^◌, [], map, OnOk, IfOk};
ghost use Rattle.std.specs.Option.{option_map};
ghost use Rattle.model_rules.specs.Views.{current_of};
ghost use Rattle.simplex_state.specs.Stands.{IsConfigured, made_of};
ghost use Rattle.simplex_messages.specs.declared.handed.Handed.TheVariants.{Resolver};
ghost use Rattle.model_steps.specs.Desk.{begun, hand, make, append, seek, send_vote, send_certificate, report, resolve_of};
ghost use Rattle.model_steps.specs.Voter.{blank_desk, block_for};
ghost use Rattle.simplex_voter.specs.Performing.{out_of};
ghost use Rattle.simplex_voter.specs.Stands.{Stands, Does, Finds, Knows, rested, sought_of};

use crate::request::{OpenRequest, PendingProposal};
use model_rules::ProposalState;
use simplex_messages::{Call, Handed, StepOut, batcher, resolver};
use simplex_state::{State, StateConfig};
use simplex_types::elector::Elector;
use simplex_types::{
    Activity, Artifact, BlockCause, Certificate, Channel, Kind, Notarization, Nullify, Participant,
    Recipients, Scheme, Sequence, View, Vote,
};
use std::alloc::{AllocError, Global};
use std::mem;

/// A certificate that an open request lacks: for a proposal, the one of this kind of the view.
#[derive(Clone, Copy, Debug, PartialEq, Eq)]
pub(crate) struct Missing {
    pub(crate) proposal: View,
    pub(crate) view: View,
    pub(crate) kind: Kind,
    pub(crate) target: Option<Participant>,
}

/// What a voter works on.
#[derive(Drop)]
pub(crate) struct Planner<S: Scheme, L: Elector> {
    pub(crate) alloc: Global,
    pub(crate) state: State<S, L>,
    pub(crate) proposal: Option<PendingProposal>,
    pub(crate) verify: Option<OpenRequest>,
    pub(crate) certify: Vec<OpenRequest>,
    // how many requests were opened since the start, and how many were answered
    pub(crate) opened: u64,
    pub(crate) arrivals: u64,
    // what the step does
    pub(crate) out: StepOut,
    pub(crate) dropped: Vec<u64>,
    pub(crate) missing: Vec<Missing>,
    // whether the step appends anything
    pub(crate) wrote: bool,
    // the verdict that the step took, and the nullify that it publishes
    pub(crate) verdict: Option<(Notarization, bool)>,
    pub(crate) nullify: Option<(Nullify, Option<Certificate>)>,
}

#[tactic(auto, unfolding(crate::specs::Stands::doing_of))]
impl<S: Scheme + Drop, L: Elector + Drop> Planner<S, L> {
    /// Nothing is known and nothing is open.
    #[tactic(auto, unfolding(crate::specs::Opened::plans))]
    pub(crate) fn new(
        alloc: Global,
        config: StateConfig<S, L>,
        now: u64,
    ) -> Result<Planner<S, L>, AllocError>
        requires limits { IsConfigured S.members L.built_for L.cuts config }
        requires clock { now < 2 ^ 63 }
        ensures { IfOk result (λ planner. Stands planner
            (made_of S.attests S.member L.elects L.cuts config now) [] (begun blank_desk)) }
    {
        let state = State::new(alloc, config, now)?;
        Ok(Planner {
            alloc,
            state,
            proposal: None,
            verify: None,
            certify: Vec::new(alloc),
            opened: 0,
            arrivals: 0,
            out: StepOut::new(alloc),
            dropped: Vec::new(alloc),
            missing: Vec::new(alloc),
            wrote: false,
            verdict: None,
            nullify: None,
        })
    }

    /// What the step does is handed out, and the next begins with nothing done.
    pub(crate) fn take_out(&mut self) -> StepOut
        ensures stands { Does self.old self.new (λ made. rested) }
        ensures out { Finds self.old (λ made. out_of) result }
    {
        let mut out = mem::replace(&mut self.out, StepOut::new(self.alloc));
        let dropped = mem::replace(&mut self.dropped, Vec::new(self.alloc));
        out.dropped = Sequence::from_vec(dropped);
        self.missing.clear();
        self.wrote = false;
        self.verdict = None;
        self.nullify = None;
        out
    }

    /// Where the pending proposal stands, if there is one.
    pub(crate) fn proposal_state(&self) -> Option<ProposalState>
        ensures { Finds self.now (λ made doing. option_map
            (λ p. p.state) doing.desk.proposal) result }
    {
        match &self.proposal {
            None => None,
            Some(pending) => Some(pending.state),
        }
    }

    /// The view that the member is in.
    pub(crate) fn current_view(&self) -> View
        ensures { Knows self.now (λ made known. current_of made known) result }
    {
        self.state.current_view()
    }

    /// A message is put into a mailbox at the end of the step.
    pub(crate) fn hand(&mut self, message: Handed) -> Result<(), AllocError>
        ensures { OnOk result (Does self.old self.new (λ made. hand message)) }
    {
        self.out.handed.push(message)?;
        Ok(())
    }

    /// A call is made.
    pub(crate) fn make(&mut self, call: Call) -> Result<(), AllocError>
        ensures { OnOk result (Does self.old self.new (λ made. make call)) }
    {
        self.out.calls.push(call)?;
        Ok(())
    }

    /// A record is appended to the section of its view.
    pub(crate) fn append(&mut self, artifact: Artifact) -> Result<(), AllocError>
        ensures { OnOk result (Does self.old self.new (λ made. append artifact)) }
    {
        let view = artifact.view();
        self.out.calls.push(Call::Append(view.0, artifact))?;
        self.wrote = true;
        Ok(())
    }

    /// A vote goes to the own batcher, and to all.
    pub(crate) fn send_vote(&mut self, vote: Vote) -> Result<(), AllocError>
        ensures { OnOk result (Does self.old self.new (λ made. send_vote vote)) }
    {
        let bytes = Sequence::from_vec(vote.encode(self.alloc)?);
        self.hand(Handed::Batcher(batcher::Message::Constructed(vote)))?;
        self.make(Call::Send {
            channel: Channel::Vote,
            recipients: Recipients::All,
            bytes,
        })?;
        Ok(())
    }

    /// A certificate goes to all.
    pub(crate) fn send_certificate(&mut self, certificate: &Certificate) -> Result<(), AllocError>
        ensures { OnOk result (Does self.old self.new (λ made. send_certificate certificate.now)) }
    {
        let bytes = Sequence::from_vec(certificate.encode(self.alloc)?);
        self.make(Call::Send {
            channel: Channel::Certificate,
            recipients: Recipients::All,
            bytes,
        })?;
        Ok(())
    }

    /// The reporter is told.
    pub(crate) fn report(&mut self, activity: Activity) -> Result<(), AllocError>
        ensures { OnOk result (Does self.old self.new (λ made. report activity)) }
    {
        self.make(Call::Report(activity))?;
        Ok(())
    }

    /// What the open requests lack is sought from the resolver.
    pub(crate) fn seek(&mut self) -> Result<(), AllocError>
        ensures { OnOk result (Does self.old self.new (λ made. seek)) }
    {
        hand_each(&mut self.out.handed, &self.missing)?;
        self.missing.clear();
        Ok(())
    }

    /// The leader whose proposal a certificate contradicts is blocked, if there is one. [leader-is-blocked]
    pub(crate) fn block(&mut self, leader: Option<Participant>) -> Result<(), AllocError>
        ensures { OnOk result (Does self.old self.new (λ made. block_for leader)) }
    {
        let Some(member) = leader else {
            return Ok(());
        };
        self.make(Call::Block(member, BlockCause::LeaderConflict))?;
        Ok(())
    }
}

// What is missing is sought from the resolver.
fn hand_each(handed: &mut Sequence<Handed>, missing: &[Missing]) -> Result<(), AllocError>
    ensures { OnOk result (handed.new
        ≡ handed.old ++ map (λ s. Resolver (resolve_of s)) (map sought_of missing.now)) }
{
    for lack in missing {
        handed.push(Handed::Resolver(resolver::MailboxMessage::Resolve {
            proposal: lack.proposal,
            view: lack.view,
            kind: lack.kind,
            target: lack.target,
        }))?;
    }
    Ok(())
}
