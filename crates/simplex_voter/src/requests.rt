//! The open requests are brought up to date.
ghost use Rattle.std.specs.Prelude.{◌≡◌, ◌+◌, ◌||◌, ◌++◌, ◌∷◌, [], true, nat_lt, fold, map, filter, IfOk, OnOk, ◌<◌, ◌^◌};
ghost use Rattle.model_rules.specs.declared.request.Verify.TheVariants.{Ready};
ghost use Rattle.model_rules.specs.Views.{current_of};
ghost use Rattle.model_rules.specs.Requests.{is_superseded};
ghost use Rattle.model_rules.specs.Pending.{drop_number, drop_request, drop_proposal, drop_verify, abandon_handoff, end_waiting, open_request, with_request, open_proposal, with_verify, open_verify, reconciled, drop_certify, open_certify, seek_parent, certifying, iterated, pending_view, pending_parent, is_open};
ghost use Rattle.simplex_voter.specs.Arrivals.{pending_of, opened_of, drop_final_number};
ghost use Rattle.simplex_voter.specs.Stands.{Does, Knows, on_desk, sought_of};

use crate::numbers::insert_number;
use crate::planner::{Missing, Planner};
use crate::request::{OpenRequest, PendingProposal};
use model_rules::{Asked, CertificateFetch, ProposalRequest, ProposalState, Verify};
use simplex_types::elector::Elector;
use simplex_types::{Context, Kind, Proposal, Scheme, TimeoutReason, View};
use std::alloc::AllocError;

#[tactic(auto, unfolding(crate::specs::Stands::doing_of))]
impl<S: Scheme + Drop, L: Elector + Drop> Planner<S, L> {
    // The request of this number is listed as dropped. [dropped-were-open]
    fn drop_number(&mut self, number: u64) -> Result<(), AllocError>
        ensures { OnOk result (Does self.old self.new
            (λ made. on_desk (λ desk. drop_number desk number))) }
    {
        insert_number(&mut self.dropped, number)?;
        Ok(())
    }

    // The request of the pending proposal is dropped, where it is open.
    fn drop_request(&mut self, pending: &PendingProposal) -> Result<(), AllocError>
        ensures { OnOk result (Does self.old self.new
            (λ made. on_desk (λ desk. drop_request desk (pending_of pending.now)))) }
    {
        match pending.state {
            ProposalState::Preparing | ProposalState::Proposing => {
                self.drop_number(pending.number)?
            }
            _ => {}
        }
        Ok(())
    }

    // Whether the pending proposal's view is past, or another parent serves where its own does not.
    fn is_stale(&self, pending: &PendingProposal) -> bool
        ensures { Knows self.now
            (λ made known. nat_lt (pending_view (pending_of pending.now)) (current_of made known)
            || is_superseded made known (pending_parent (pending_of pending.now))
            (pending_view (pending_of pending.now))) result }
    {
        pending.context.round.view < self.state.current_view()
            || self.state.supersede_proposal_request(&pending.context)
    }

    // A pending proposal that is stale is dropped. [superseded-stays-asked]
    #[tactic(auto, unfolding(crate::specs::Stands::doing_of, model_rules::specs::Pending::drop_proposal))]
    fn drop_proposal(&mut self) -> Result<(), AllocError>
        ensures { OnOk result (Does self.old self.new (λ made. on_desk (drop_proposal made))) }
    {
        let Some(pending) = self.proposal else {
            return Ok(());
        };
        if self.is_stale(&pending) {
            self.drop_request(&pending)?;
            self.proposal = None;
        }
        Ok(())
    }

    // The pending Verify is dropped where its view is past.
    #[tactic(auto, unfolding(crate::specs::Stands::doing_of, model_rules::specs::Pending::drop_verify))]
    fn drop_verify(&mut self) -> Result<(), AllocError>
        ensures { OnOk result (Does self.old self.new (λ made. on_desk (drop_verify made))) }
    {
        let Some(verify) = self.verify else {
            return Ok(());
        };
        if verify.view < self.state.current_view() {
            self.drop_number(verify.number)?;
            self.verify = None;
        }
        Ok(())
    }

    // A Prepare without an answer becomes Waiting where its handoff is given up.
    #[tactic(auto, unfolding(crate::specs::Stands::doing_of, model_rules::specs::Pending::abandon_handoff))]
    fn abandon_handoff(&mut self) -> Result<(), AllocError>
        ensures { OnOk result (Does self.old self.new (λ made. on_desk abandon_handoff)) }
    {
        let Some(pending) = self.proposal else {
            return Ok(());
        };
        if pending.state != ProposalState::Preparing || pending.is_answered {
            return Ok(());
        }
        if self.state.pending_handoff_abandonment(&pending.context) {
            self.drop_number(pending.number)?;
            self.proposal = Some(PendingProposal {
                number: pending.number,
                context: pending.context,
                state: ProposalState::Waiting,
                arrival: pending.arrival,
                is_answered: false,
            });
        }
        Ok(())
    }

    // Waiting or Closed ends once the parent is certified: the one frees its view, the other fails it.
    #[tactic(auto, unfolding(crate::specs::Stands::doing_of, model_rules::specs::Pending::end_waiting, model_rules::specs::Calls::known_of))]
    fn end_waiting(&mut self, now: u64) -> Result<(), AllocError>
        requires clock { now < 2 ^ 63 }
        ensures { OnOk result (Does self.old self.new (λ made. on_desk (end_waiting made now))) }
    {
        let Some(pending) = &self.proposal else {
            return Ok(());
        };
        if !self.state.parent_certified(pending.context.parent) {
            return Ok(());
        }
        let view = pending.context.round.view;
        match pending.state {
            ProposalState::Waiting => {
                self.state.release_proposal_request(view);
                self.proposal = None;
            }
            ProposalState::Closed => {
                self.state
                    .trigger_timeout(view, TimeoutReason::MissingProposal, now)?;
                self.proposal = None;
            }
            _ => {}
        }
        Ok(())
    }

    // The number of the next request; they run out as memory does. [numbers-run-out]
    fn next_number(&self) -> Result<u64, AllocError>
        ensures { IfOk result (λ next. next ≡ self.now.opened + 1) }
    {
        self.opened.checked_add(1).ok_or(AllocError)
    }

    // A proposal request is opened.
    #[tactic(auto, unfolding(crate::specs::Stands::doing_of), using(crate::proofs::Arriving::arrived_rules))]
    fn open_request(
        &mut self,
        context: &Context,
        state: ProposalState,
        request: Asked,
    ) -> Result<(), AllocError>
        requires none { self.old.proposal ≡ None }
        requires opens { is_open state ≡ true }
        ensures { OnOk result (Does self.old self.new
            (λ made. on_desk (open_request context.now state request))) }
    {
        let next = self.next_number()?;
        self.out.asked.push(request)?;
        self.proposal = Some(PendingProposal {
            number: self.opened,
            context: *context,
            state,
            arrival: None,
            is_answered: false,
        });
        self.opened = next;
        Ok(())
    }

    // The request that the rules give is opened.
    fn ask_proposal(&mut self, request: &ProposalRequest) -> Result<(), AllocError>
        requires none { self.old.proposal ≡ None }
        ensures { OnOk result (Does self.old self.new
            (λ made. on_desk (with_request (Some request.now)))) }
    {
        match request {
            ProposalRequest::Prepare(context) => {
                let asked = Asked::Prepare(*context);
                self.open_request(context, ProposalState::Preparing, asked)?;
            }
            ProposalRequest::Propose(context) => {
                let asked = Asked::Propose(*context);
                self.open_request(context, ProposalState::Proposing, asked)?;
            }
        }
        Ok(())
    }

    // A proposal is asked for, where none is pending.
    #[tactic(auto, unfolding(crate::specs::Stands::doing_of, model_rules::specs::Pending::open_proposal))]
    fn open_proposal(&mut self) -> Result<(), AllocError>
        ensures { OnOk result (Does self.old self.new (λ made. on_desk (open_proposal made))) }
    {
        if self.proposal.is_some() {
            return Ok(());
        }
        let Some(request) = self.try_propose()? else {
            return Ok(());
        };
        self.ask_proposal(&request)?;
        Ok(())
    }

    // What is missing is sought.
    fn seek_missing(&mut self, missing: Missing) -> Result<(), AllocError>
        ensures { OnOk result (Does self.old self.new
            (λ made. on_desk (λ desk. record desk {
              sought = desk.sought
                  ++ sought_of missing ∷ [];
            }))) }
    {
        self.missing.push(missing)?;
        Ok(())
    }

    // A proposal is given to verify.
    #[tactic(auto, unfolding(crate::specs::Stands::doing_of), using(crate::proofs::Arriving::arrived_rules))]
    fn ask_verify(&mut self, context: &Context, proposal: &Proposal) -> Result<(), AllocError>
        requires none { self.old.verify ≡ None }
        ensures { OnOk result (Does self.old self.new
            (λ made. on_desk (with_verify (Ready context.now proposal.now)))) }
    {
        let next = self.next_number()?;
        self.out
            .asked
            .push(Asked::Verify(*context, proposal.payload))?;
        self.verify = Some(OpenRequest {
            number: self.opened,
            view: proposal.round.view,
            arrival: None,
        });
        self.opened = next;
        Ok(())
    }

    // A proposal is given to verify, or what it lacks is sought. [one-verification]
    fn follow_verify(&mut self, request: &Verify) -> Result<(), AllocError>
        requires none { self.old.verify ≡ None }
        ensures { OnOk result (Does self.old self.new (λ made. on_desk (with_verify request.now))) }
    {
        match request {
            Verify::Ready(context, proposal) => self.ask_verify(context, proposal)?,
            Verify::Resolve {
                proposal,
                view,
                kind,
                target,
            } => self.seek_missing(Missing {
                proposal: *proposal,
                view: *view,
                kind: *kind,
                target: Some(*target),
            })?,
            Verify::Wait => {}
        }
        Ok(())
    }

    // A proposal is given to verify, or a missing view sought, where no Verify is pending.
    #[tactic(auto, unfolding(crate::specs::Stands::doing_of, model_rules::specs::Pending::open_verify))]
    fn open_verify(&mut self) -> Result<(), AllocError>
        ensures { OnOk result (Does self.old self.new (λ made. on_desk (open_verify made))) }
    {
        if self.verify.is_some() {
            return Ok(());
        }
        let request = self.try_verify()?;
        self.follow_verify(&request)?;
        Ok(())
    }

    /// The proposal and the Verify are brought up to date. [requests-as-a-whole]
    #[tactic(auto, unfolding(model_rules::specs::Pending::reconciled))]
    pub(crate) fn reconcile(&mut self, now: u64) -> Result<(), AllocError>
        requires clock { now < 2 ^ 63 }
        ensures { OnOk result (Does self.old self.new (λ made. on_desk (reconciled made now))) }
    {
        self.drop_proposal()?;
        self.drop_verify()?;
        self.abandon_handoff()?;
        self.end_waiting(now)?;
        self.open_proposal()?;
        self.open_verify()?;
        Ok(())
    }

    // Certify requests at or below the last final view are dropped.
    #[tactic(auto, unfolding(crate::specs::Stands::doing_of, model_rules::specs::Pending::drop_certify))]
    fn drop_certify(&mut self) -> Result<(), AllocError>
        ensures { OnOk result (Does self.old self.new (λ made. on_desk drop_certify)) }
    {
        let finalized = self.state.last_finalized();
        drop_final(&mut self.dropped, &self.certify, finalized)?;
        keep_open(&mut self.certify, finalized);
        Ok(())
    }

    // What is to be certified is given to certify.
    #[tactic(auto, unfolding(crate::specs::Stands::doing_of), using(crate::proofs::Arriving::arrived_rules))]
    fn ask_certify(&mut self, proposal: &Proposal) -> Result<(), AllocError>
        ensures { OnOk result (Does self.old self.new
            (λ made. on_desk (λ desk. open_certify desk proposal.now))) }
    {
        let next = self.next_number()?;
        self.out
            .asked
            .push(Asked::Certify(proposal.round, proposal.payload))?;
        self.certify.push(OpenRequest {
            number: self.opened,
            view: proposal.round.view,
            arrival: None,
        })?;
        self.opened = next;
        Ok(())
    }

    // Each is given to certify.
    fn ask_each(&mut self, proposals: &[Proposal]) -> Result<(), AllocError>
        ensures { OnOk result (Does self.old self.new
            (λ made. on_desk (λ desk. fold open_certify desk proposals.now))) }
    {
        for proposal in proposals {
            self.ask_certify(proposal)?;
        }
        Ok(())
    }

    // The parents that are missing are sought.
    fn seek_parents(&mut self, fetches: &[CertificateFetch]) -> Result<(), AllocError>
        ensures { OnOk result (Does self.old self.new
            (λ made. on_desk (λ desk. fold seek_parent desk fetches.now))) }
    {
        for fetch in fetches {
            self.seek_missing(Missing {
                proposal: fetch.proposal,
                view: fetch.view,
                kind: Kind::Notarization,
                target: None,
            })?;
        }
        Ok(())
    }

    // What can be certified is given to certify, and the parents that this lacks are sought.
    #[tactic(auto, unfolding(model_rules::specs::Pending::certifying))]
    fn certify(&mut self) -> Result<(), AllocError>
        ensures { OnOk result (Does self.old self.new (λ made. on_desk (certifying made))) }
    {
        self.drop_certify()?;
        let (proposals, fetches) = self.certify_candidates()?;
        self.ask_each(&proposals)?;
        self.seek_parents(&fetches)?;
        Ok(())
    }

    /// The requests at the start of each iteration.
    #[tactic(auto, unfolding(model_rules::specs::Pending::iterated))]
    pub(crate) fn iterate(&mut self, now: u64) -> Result<(), AllocError>
        requires clock { now < 2 ^ 63 }
        ensures { OnOk result (Does self.old self.new (λ made. on_desk (iterated made now))) }
    {
        self.reconcile(now)?;
        self.certify()?;
        Ok(())
    }
}

// The requests at or below the final view are listed as dropped.
fn drop_final(
    dropped: &mut Vec<u64>,
    certify: &[OpenRequest],
    finalized: View,
) -> Result<(), AllocError>
    ensures { OnOk result (dropped.new.items
        ≡ fold (drop_final_number finalized) dropped.old.items (map opened_of certify.now)) }
{
    for request in certify {
        if request.view <= finalized {
            insert_number(dropped, request.number)?;
        }
    }
    Ok(())
}

// The requests above the final view stay open.
fn keep_open(certify: &mut Vec<OpenRequest>, finalized: View)
    ensures { certify.new.items ≡ filter (λ r. nat_lt finalized r.view) certify.old.items }
{
    certify.retain(|request| request.view > finalized);
}
