//! What a step does, noted in its [`StepOut`] as it goes.
ghost use Rattle.std.specs.Prelude.{◌≡◌, ◌++◌, ◌∷◌, [], map, OnOk};
ghost use Rattle.simplex_messages.specs.declared.call.Call.TheVariants.{Block, Report};
ghost use Rattle.simplex_messages.specs.declared.handed.Handed.TheVariants.{Voter};
ghost use Rattle.simplex_messages.specs.Step.{block_call};
ghost use Rattle.simplex_types.specs.declared.cause.BlockCause.TheVariants.{InvalidSignature};
ghost use Rattle.simplex_round.specs.Acceptance.{vote_activity};
ghost use Rattle.simplex_batcher.specs.Hearing.{IsAlone};

use simplex_messages::{Call, Handed, StepOut, voter};
use simplex_round::RoundOut;
use simplex_types::{Activity, BlockCause, Participant, Sequence, Vote};
use std::alloc::{AllocError, Global};
use std::mem::replace;

/// A message goes to the voter at the end of the step.
pub(crate) fn hand(work: &mut StepOut, message: voter::Message) -> Result<(), AllocError>
    ensures { OnOk result (work.new
        ≡ record work.old { handed = work.old.handed ++ Voter message ∷ [] }) }
{
    work.handed.push(Handed::Voter(message))?;
    Ok(())
}

/// A call is made.
pub(crate) fn make(work: &mut StepOut, call: Call) -> Result<(), AllocError>
    ensures { OnOk result (work.new ≡ record work.old { calls = work.old.calls ++ call ∷ [] }) }
{
    work.calls.push(call)?;
    Ok(())
}

/// The member is blocked, for this cause.
pub(crate) fn block(
    work: &mut StepOut,
    member: Participant,
    cause: BlockCause,
) -> Result<(), AllocError>
    ensures { OnOk result (work.new
        ≡ record work.old { calls = work.old.calls ++ Block member cause ∷ [] }) }
{
    make(work, Call::Block(member, cause))?;
    Ok(())
}

/// What a round reports is reported, and whom it blocks is blocked.
pub(crate) fn publish(alloc: Global, work: &mut StepOut, out: RoundOut) -> Result<(), AllocError>
    ensures { OnOk result (work.new ≡ record work.old {
      calls = work.old.calls
          ++ map Report out.reports ++ map block_call out.blocks;
    }) }
{
    let RoundOut { reports, blocks } = out;
    report_each(alloc, &mut work.calls, reports)?;
    block_each(&mut work.calls, blocks.as_slice())?;
    Ok(())
}

/// The vote is reported. [reported-where-it-lies]
fn report_vote(work: &mut StepOut, vote: &Vote) -> Result<(), AllocError>
    ensures { OnOk result (work.new
        ≡ record work.old { calls = work.old.calls ++ Report (vote_activity vote.now) ∷ [] }) }
{
    match vote {
        Vote::Notarize(it) => make(work, Call::Report(Activity::Notarize(*it))),
        Vote::Nullify(it) => make(work, Call::Report(Activity::Nullify(*it))),
        Vote::Finalize(it) => make(work, Call::Report(Activity::Finalize(*it))),
    }
}

/// What a round reports of a vote is reported, and whom it blocks is blocked. Of an accepted vote that is the vote
/// alone, which is at hand.
pub(crate) fn publish_heard(
    alloc: Global,
    work: &mut StepOut,
    accepted: bool,
    vote: &Vote,
    out: RoundOut,
) -> Result<(), AllocError>
    ensures { OnOk result (IsAlone accepted vote.now out.reports out.blocks
        → work.new ≡ record work.old {
          calls = work.old.calls ++ map Report out.reports
              ++ map block_call out.blocks;
        }) }
{
    if accepted {
        report_vote(work, vote)?;
        return Ok(());
    }
    publish(alloc, work, out)?;
    Ok(())
}

/// Each activity is reported. The calls get the room for just these, since most steps make no other.
fn report_each(
    alloc: Global,
    calls: &mut Sequence<Call>,
    reports: Sequence<Activity>,
) -> Result<(), AllocError>
    ensures { OnOk result (calls.new ≡ calls.old ++ map Report reports) }
{
    let mut made = replace(calls, Sequence::new(alloc)).into_vec();
    made.reserve_exact(reports.len())?;
    for activity in reports.into_vec() {
        made.push(Call::Report(activity))?;
    }
    *calls = Sequence::from_vec(made);
    Ok(())
}

/// Each member is blocked, for its cause.
fn block_each(
    calls: &mut Sequence<Call>,
    blocks: &[(Participant, BlockCause)],
) -> Result<(), AllocError>
    ensures { OnOk result (calls.new ≡ calls.old ++ map block_call blocks.now) }
{
    for block in blocks {
        let (member, cause) = *block;
        calls.push(Call::Block(member, cause))?;
    }
    Ok(())
}

/// Each signer of an invalid vote is blocked.
pub(crate) fn block_signers(
    calls: &mut Sequence<Call>,
    signers: &[Participant],
) -> Result<(), AllocError>
    ensures { OnOk result (calls.new
        ≡ calls.old ++ map (λ signer. Block signer InvalidSignature) signers.now) }
{
    for signer in signers {
        calls.push(Call::Block(*signer, BlockCause::InvalidSignature))?;
    }
    Ok(())
}
