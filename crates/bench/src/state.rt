//! One member's state, view after view.
ghost use Rattle.std.specs.Prelude.{◌<◌, ◌^◌};

use model_rules::Verify;
use simplex_state::{State, StateConfig};
use simplex_types::elector::Config;
use simplex_types::{
    Digest, Epoch, Finalization, Keyed, Notarization, Nullification, Participant, Proposal, Round,
    RoundRobin, RoundRobinElector, Signatures, TermLength, Terms, TimeoutReason, View, ViewDelta,
};
use std::alloc::{AllocError, Global};

type Member = State<Keyed, RoundRobinElector>;

/// How many members there are. The state is that of the first.
const MEMBERS: u32 = 4;

/// What every proposal has.
const PAYLOAD: Digest = Digest([9; 32]);

/// A member that keeps ten views behind the last final one, with so many views to a term.
fn start(alloc: Global, length: u32) -> Result<Member, AllocError> {
    let terms = Terms {
        length: TermLength::new(u64::from(length)).unwrap_or(TermLength::ONE),
        lookahead: 2,
        stall_timeout: Some(5000),
    };
    let config = StateConfig {
        scheme: Keyed::new(alloc, 1, MEMBERS, Some(Participant(0)))?,
        elector: RoundRobin::new(terms).build(MEMBERS),
        epoch: Epoch(0),
        view_retention: ViewDelta(10),
        leader_timeout: 1000,
        certification_timeout: 2000,
        timeout_retry: 500,
        skip_budget: 3,
        handoff: true,
        genesis: Digest([0; 32]),
    };
    State::new(alloc, config, 0)
}

fn round(view: View) -> Round {
    Round {
        epoch: Epoch(0),
        view,
    }
}

/// The proposal of the view that the member is in, behind the last final one.
fn next_block(member: &Member) -> Proposal {
    Proposal {
        round: round(member.current_view()),
        parent: member.last_finalized(),
        payload: PAYLOAD,
    }
}

fn no_signatures(alloc: Global) -> Signatures {
    Signatures::new(Vec::new(alloc))
}

/// A proposal that the member is asked to verify is verified.
fn verify(member: &mut Member) -> Result<(), AllocError> {
    match member.try_verify()? {
        Verify::Ready(_, wanted) => member.verified(wanted.view()),
        _ => Ok(()),
    }
}

/// The proposal comes to stand: the member's own where it leads, else one that it verifies.
fn propose(member: &mut Member, proposal: &Proposal) -> Result<(), AllocError> {
    if let Some(request) = member.try_propose()? {
        let _recorded = member.proposed(request.context(), proposal.payload)?;
        return Ok(());
    }
    let _recorded = member.set_proposal(proposal.view(), proposal)?;
    verify(member)
}

/// The proposal's notarization is known, and goes out: 1 where it had not gone out before.
fn notarized(
    alloc: Global,
    member: &mut Member,
    proposal: &Proposal,
    now: u64,
) -> Result<u64, AllocError>
    requires clock { now < 2 ^ 63 }
{
    let notarization = Notarization {
        proposal: *proposal,
        certificate: no_signatures(alloc),
    };
    let _added = member.add_notarization(notarization, now)?;
    let unsent = member.broadcast_notarization(proposal.view())?;
    Ok(u64::from(unsent.is_some()))
}

/// The proposal is asked to be certified, and is.
fn judged(member: &mut Member, view: View, now: u64) -> Result<(), AllocError>
    requires clock { now < 2 ^ 63 }
{
    let _candidates = member.certify_candidates()?;
    let _judged = member.certified(view, true, now)?;
    Ok(())
}

/// The proposal is voted for, notarized and certified: how many votes and certificates come out.
fn certify(
    alloc: Global,
    member: &mut Member,
    proposal: &Proposal,
    now: u64,
) -> Result<u64, AllocError>
    requires clock { now < 2 ^ 63 }
{
    let view = proposal.view();
    let vote = member.construct_notarize(view)?;
    let sent = notarized(alloc, member, proposal, now)?;
    judged(member, view, now)?;
    Ok(sent.saturating_add(u64::from(vote.is_some())))
}

/// The proposal's finalization is known, and goes out: 1 where it had not gone out before.
fn finalized(
    alloc: Global,
    member: &mut Member,
    proposal: &Proposal,
    now: u64,
) -> Result<u64, AllocError>
    requires clock { now < 2 ^ 63 }
{
    let finalization = Finalization {
        proposal: *proposal,
        certificate: no_signatures(alloc),
    };
    let _added = member.add_finalization(finalization, now)?;
    let unsent = member.broadcast_finalization(proposal.view())?;
    Ok(u64::from(unsent.is_some()))
}

/// The proposal is voted final and becomes so, and what is old is forgotten: how many votes, certificates and prunings.
fn finalize(
    alloc: Global,
    member: &mut Member,
    proposal: &Proposal,
    now: u64,
) -> Result<u64, AllocError>
    requires clock { now < 2 ^ 63 }
{
    let vote = member.construct_finalize(proposal.view())?;
    let sent = finalized(alloc, member, proposal, now)?;
    let pruned = u64::from(member.prune().is_some());
    Ok(
        sent.saturating_add(u64::from(vote.is_some()))
            .saturating_add(pruned),
    )
}

/// The current view's nullification is known, and goes out: 1 where it had not gone out before.
fn nullified(alloc: Global, member: &mut Member, view: View, now: u64) -> Result<u64, AllocError>
    requires clock { now < 2 ^ 63 }
{
    let nullification = Nullification {
        round: round(view),
        certificate: no_signatures(alloc),
    };
    let _added = member.add_nullification(nullification, now)?;
    let unsent = member.broadcast_nullification(view)?;
    Ok(u64::from(unsent.is_some()))
}

/// The current view is given up, and the next term begins: how many votes and certificates come out.
fn give_up(alloc: Global, member: &mut Member, now: u64) -> Result<u64, AllocError>
    requires clock { now < 2 ^ 63 }
{
    let view = member.current_view();
    let vote = member.construct_nullify(view, TimeoutReason::LeaderTimeout, now);
    let sent = nullified(alloc, member, view, now)?;
    Ok(sent.saturating_add(u64::from(vote.is_some())))
}

/// A view that becomes final and, where one is given up, the next one: how many votes, certificates and prunings.
fn turn(alloc: Global, member: &mut Member, gives_up: bool, now: u64) -> Result<u64, AllocError>
    requires clock { now < 2 ^ 63 }
{
    let proposal = next_block(member);
    propose(member, &proposal)?;
    let certified = certify(alloc, member, &proposal, now)?;
    let finalized = finalize(alloc, member, &proposal, now)?;
    let done = certified.saturating_add(finalized);
    if !gives_up {
        return Ok(done);
    }
    Ok(done.saturating_add(give_up(alloc, member, now)?))
}

/// The same of so many turns.
pub fn turns(alloc: Global, gives_up: bool, length: u32, times: u32) -> Result<u64, AllocError> {
    let mut member = start(alloc, length)?;
    let mut done = 0u64;
    for at in 0..times {
        let made = turn(alloc, &mut member, gives_up, u64::from(at))?;
        done = done.saturating_add(made);
    }
    Ok(done)
}
