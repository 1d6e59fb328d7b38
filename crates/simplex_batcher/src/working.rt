//! The work on the marked views, at the end of a step.
ghost use Rattle.std.specs.Prelude.{◌≡◌, ◌++◌, false, None, map, IfOk, OnOk};
ghost use Rattle.std.specs.Option.{option_to_list};
ghost use Rattle.simplex_messages.specs.declared.handed.Handed.TheVariants.{Voter};
ghost use Rattle.simplex_messages.specs.declared.voter.Message.TheVariants.{Verified, Proposal as ProposalMessage};
ghost use Rattle.simplex_round.specs.Assembly.{as_scheme, constructed};
ghost use Rattle.model_steps.specs.Batcher.{Made, Doing, RoundHistory, known_in, worked, worked_all, finished, dropped, number_of, with_batch};
ghost use Rattle.simplex_batcher.specs.Holding.{Works, WorksAt, StaysBeside};
ghost use Rattle.simplex_batcher.specs.Rounds.{found, round_at, round_of};
ghost use Rattle.simplex_batcher.specs.Working.{forwarded_at, constructing_at, constructing_thrice, worked_near};
ghost use Rattle.simplex_batcher.specs.Stands.{Does, Marks, Reads, work_of};
ghost use Rattle.simplex_messages.specs.declared.step.StepOut.{StepOut};

use crate::actor::Actor;
use crate::marks::Marked;
use crate::others::Others;
use crate::rounds::Rounds;
use crate::work::{block_signers, hand};
use simplex_messages::{StepOut, voter};
use simplex_round::{Batch, Round};
use simplex_types::{Certificate, Participant, Proposal, Scheme, View};
use std::alloc::{AllocError, Global};

/// The proposal, if there is one, goes to the voter.
fn hand_proposal(work: &mut StepOut, proposal: Option<Proposal>) -> Result<(), AllocError>
    ensures { OnOk result (work.new ≡ record work.old {
      handed = work.old.handed ++ map
          (λ it. Voter (ProposalMessage it)) (option_to_list proposal);
    }) }
{
    if let Some(proposal) = proposal {
        hand(work, voter::Message::Proposal { proposal })?;
    }
    Ok(())
}

/// The certificate, if there is one, goes to the voter.
fn hand_certificate(work: &mut StepOut, certificate: Option<Certificate>) -> Result<(), AllocError>
    ensures { OnOk result (work.new ≡ record work.old {
      handed = work.old.handed ++ map
          (λ it. Voter (Verified it)) (option_to_list certificate);
    }) }
{
    if let Some(certificate) = certificate {
        hand(work, voter::Message::Verified { certificate })?;
    }
    Ok(())
}

/// The signers of invalid votes are blocked, and the certificate, if there is one, goes to the voter.
fn publish_batch(work: &mut StepOut, batch: Option<Batch>) -> Result<(), AllocError>
    ensures { OnOk result ((doing : Doing) → work.old ≡ work_of doing
        → work.new ≡ work_of (with_batch batch doing)) }
{
    let Some(batch) = batch else {
        return Ok(());
    };
    let Batch {
        invalid,
        certificate,
        ..
    } = batch;
    block_signers(&mut work.calls, invalid.as_slice())?;
    hand_certificate(work, certificate)?;
    Ok(())
}

/// The round hands its proposal to the voter, once.
fn forward_proposal(
    round: &mut Round,
    me: Participant,
    work: &mut StepOut,
) -> Result<(), AllocError>
    ensures { OnOk result ((made : Made) → me ≡ number_of made
        → Works round.old work.old round.new work.new (forwarded_at made)) }
{
    let proposal = round.try_forward_proposal(me);
    hand_proposal(work, proposal)?;
    Ok(())
}

/// The round checks the votes of the first kind for which there is something to do, and assembles their certificate:
/// whether there was something to do.
fn construct<S: Scheme>(
    round: &mut Round,
    alloc: Global,
    scheme: &S,
    work: &mut StepOut,
) -> Result<bool, AllocError>
    ensures works { OnOk result ((made : Made)
        → made.scheme ≡ as_scheme (S.verifies scheme.now) (S.recovers scheme.now)
        (S.members scheme.now)
        → Works round.old work.old round.new work.new (constructing_at made)) }
    ensures quiet { IfOk result (λ did. did ≡ false → (made : Made)
        → made.scheme ≡ as_scheme
        (S.verifies scheme.now) (S.recovers scheme.now) (S.members scheme.now)
        → (history : RoundHistory)
        → round.old ≡ round_of history
        → constructed history.made made.scheme (known_in history) ≡ None) }
{
    let batch = round.try_construct(alloc, scheme)?;
    let did = batch.is_some();
    publish_batch(work, batch)?;
    Ok(did)
}

/// The three kinds follow each other. Once there is nothing to do, there is nothing behind it.
fn construct_each<S: Scheme>(
    round: &mut Round,
    alloc: Global,
    scheme: &S,
    work: &mut StepOut,
) -> Result<(), AllocError>
    ensures { OnOk result ((made : Made)
        → made.scheme ≡ as_scheme (S.verifies scheme.now) (S.recovers scheme.now)
        (S.members scheme.now)
        → Works round.old work.old round.new work.new (constructing_thrice made)) }
{
    let first = construct(round, alloc, scheme, work)?;
    if !first {
        return Ok(());
    }
    let second = construct(round, alloc, scheme, work)?;
    if !second {
        return Ok(());
    }
    construct(round, alloc, scheme, work)?;
    Ok(())
}

/// The round hands on its proposal, and then the three kinds follow each other.
fn work_round<S: Scheme>(
    round: &mut Round,
    alloc: Global,
    scheme: &S,
    me: Participant,
    work: &mut StepOut,
) -> Result<(), AllocError>
    ensures { OnOk result
        ((made : Made) → me ≡ number_of made
        → made.scheme ≡ as_scheme (S.verifies scheme.now) (S.recovers scheme.now)
        (S.members scheme.now)
        → Works round.old work.old round.new work.new (worked_near made)) }
{
    forward_proposal(round, me, work)?;
    construct_each(round, alloc, scheme, work)?;
    Ok(())
}

/// The round of the view, if there is one, hands its proposal to the voter, once.
#[tactic(auto, unfolding(crate::specs::Rounds::found))]
fn forward_at(
    rounds: &mut Others,
    view: u64,
    me: Participant,
    work: &mut StepOut,
) -> Result<(), AllocError>
    ensures works { OnOk result ((made : Made) → me ≡ number_of made → WorksAt
        (found rounds.old view) work.old (found rounds.new view) work.new view
        (forwarded_at made view)) }
    ensures others { OnOk result (StaysBeside (found rounds.old) (found rounds.new) view) }
{
    match rounds.get_mut(&view) {
        None => Ok(()),
        Some(kept) => {
            forward_proposal(&mut kept.round, me, work)?;
            Ok(())
        }
    }
}

/// The round of the view, if there is one, hands on its proposal, and then the three kinds follow each other.
#[tactic(auto, unfolding(crate::specs::Rounds::found))]
fn work_at<S: Scheme>(
    rounds: &mut Others,
    view: u64,
    alloc: Global,
    scheme: &S,
    me: Participant,
    work: &mut StepOut,
) -> Result<(), AllocError>
    ensures works { OnOk result ((made : Made) → me ≡ number_of made
        → made.scheme ≡ as_scheme (S.verifies scheme.now) (S.recovers scheme.now)
        (S.members scheme.now)
        → WorksAt (found rounds.old view) work.old (found rounds.new view) work.new view
        (worked_near made view)) }
    ensures others { OnOk result (StaysBeside (found rounds.old) (found rounds.new) view) }
{
    match rounds.get_mut(&view) {
        None => Ok(()),
        Some(kept) => {
            work_round(&mut kept.round, alloc, scheme, me, work)?;
            Ok(())
        }
    }
}

impl Rounds {
    /// The round of the view, if there is one, hands its proposal to the voter, once.
    #[tactic(auto, unfolding(crate::specs::Rounds::round_at))]
    fn forward_at(
        &mut self,
        view: View,
        me: Participant,
        work: &mut StepOut,
    ) -> Result<(), AllocError>
        ensures works { OnOk result ((made : Made) → me ≡ number_of made
            → WorksAt (round_at self.old view) work.old (round_at self.new view) work.new view
            (forwarded_at made view)) }
        ensures others { OnOk result (StaysBeside (round_at self.old) (round_at self.new) view) }
        ensures current { OnOk result (self.new.current ≡ self.old.current) }
    {
        if view != self.current {
            forward_at(&mut self.others, view.0, me, work)?;
            return Ok(());
        }
        match &mut self.here {
            None => Ok(()),
            Some(kept) => {
                forward_proposal(&mut kept.round, me, work)?;
                Ok(())
            }
        }
    }

    /// The round of the view, if there is one, hands on its proposal, and then the three kinds follow each other.
    #[tactic(auto, unfolding(crate::specs::Rounds::round_at))]
    fn work_at<S: Scheme>(
        &mut self,
        view: View,
        alloc: Global,
        scheme: &S,
        me: Participant,
        work: &mut StepOut,
    ) -> Result<(), AllocError>
        ensures works { OnOk result ((made : Made) → me ≡ number_of made
            → made.scheme ≡ as_scheme (S.verifies scheme.now) (S.recovers scheme.now)
            (S.members scheme.now)
            → WorksAt (round_at self.old view) work.old (round_at self.new view) work.new view
            (worked_near made view)) }
        ensures others { OnOk result (StaysBeside (round_at self.old) (round_at self.new) view) }
        ensures current { OnOk result (self.new.current ≡ self.old.current) }
    {
        if view != self.current {
            work_at(&mut self.others, view.0, alloc, scheme, me, work)?;
            return Ok(());
        }
        match &mut self.here {
            None => Ok(()),
            Some(kept) => {
                work_round(&mut kept.round, alloc, scheme, me, work)?;
                Ok(())
            }
        }
    }
}

impl<S: Scheme + Drop> Actor<S> {
    /// The number by which a round knows this member: one that no member has, where it is none.
    #[tactic(auto, unfolding(crate::specs::Stands::batcher_made))]
    fn number(&self) -> Participant
        ensures { Reads self.now (λ made standing. number_of made) result }
    {
        let members = self.config.scheme.participants();
        self.config.scheme.me().unwrap_or(Participant(members))
    }

    /// The view is worked, where it is not final. Its round is looked up once.
    #[tactic(auto, unfolding(model_steps::specs::Batcher::worked))]
    fn work(&mut self, view: View, work: &mut StepOut) -> Result<(), AllocError>
        ensures { OnOk result (Does self.old work.old self.new work.new
            (λ made. worked made view)) }
    {
        if view <= self.finalized {
            return Ok(());
        }
        let me = self.number();
        if !self.admits(view) {
            self.rounds.forward_at(view, me, work)?;
            return Ok(());
        }
        let scheme = &self.config.scheme;
        self.rounds.work_at(view, self.alloc, scheme, me, work)?;
        Ok(())
    }

    /// These views are worked, in this order.
    fn work_each(&mut self, views: &[View], work: &mut StepOut) -> Result<(), AllocError>
        ensures { OnOk result (Does self.old work.old self.new work.new
            (λ made. worked_all made views.now)) }
    {
        for view in views {
            self.work(*view, work)?;
        }
        Ok(())
    }

    /// Rounds that are not kept are dropped.
    #[tactic(auto, unfolding(crate::specs::Stands::batcher_made, model_steps::specs::Batcher::dropped, model_steps::specs::Batcher::retains_view))]
    fn drop_old(&mut self)
        ensures { (work : StepOut) → Does self.old work self.new work (λ made. dropped made) }
    {
        let least = self.finalized.saturating_sub(self.config.view_retention);
        self.rounds.drop_below(least);
    }

    /// The marked views are worked, in this order.
    fn work_marked(&mut self, dirty: &Marked, work: &mut StepOut) -> Result<(), AllocError>
        ensures { OnOk result (Does self.old work.old self.new work.new
            (λ made. worked_all made dirty.now)) }
    {
        let (first, others) = dirty.parts();
        if let Some(view) = first {
            self.work(view, work)?;
        }
        self.work_each(others, work)?;
        Ok(())
    }

    /// The marked views are worked, and rounds that are not kept are dropped.
    #[tactic(auto, unfolding(model_steps::specs::Batcher::finished))]
    pub(crate) fn finish(&mut self, dirty: &Marked, work: &mut StepOut) -> Result<(), AllocError>
        ensures { OnOk result (Marks self.old work.old dirty.now self.new work.new dirty.now
            (λ made. finished made)) }
    {
        self.work_marked(dirty, work)?;
        self.drop_old();
        Ok(())
    }
}
