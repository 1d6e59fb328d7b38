//! The end of a step: it votes, brings its requests up to date, syncs, and publishes.
ghost use Rattle.std.specs.Prelude.{◌<◌, ◌^◌, ◌-◌, OnOk, IfOk};
ghost use Rattle.std.specs.Option.{option_map_or};
ghost use Rattle.simplex_wire.specs.declared.vote.Vote.TheVariants as votes;
ghost use Rattle.model_rules.specs.Votes.{notarize_at, finalize_at};
ghost use Rattle.model_rules.specs.Views.{current_of};
ghost use Rattle.model_rules.specs.Best.{forwardable_at};
ghost use Rattle.model_steps.specs.Desk.{send_vote};
ghost use Rattle.model_steps.specs.Voter.{vote_notarize, vote_finalize, open_requests, sync, publish_verdict, publish_nullify, publish_notarization, publish_nullification, publish_finalization, update_message, update_batcher, end_of_step, prune, begin_iteration, ended, finished};
ghost use Rattle.simplex_voter.specs.Stands.{Does, Knows};

use crate::planner::Planner;
use simplex_messages::{Call, Handed, batcher, resolver};
use simplex_types::elector::Elector;
use simplex_types::{
    Activity, Artifact, Certificate, Finalize, Keep, Notarize, Proposal, Scheme, View, ViewDelta,
    Vote,
};
use std::alloc::AllocError;

#[tactic(auto, unfolding(crate::specs::Stands::doing_of))]
impl<S: Scheme + Drop, L: Elector + Drop> Planner<S, L> {
    // The vote that the vote rule gives for the view's proposal is appended.
    #[tactic(auto, unfolding(model_steps::specs::Voter::vote_notarize))]
    fn vote_notarize(&mut self, view: View) -> Result<Option<Notarize>, AllocError>
        ensures stands { OnOk result (Does self.old self.new (λ made. vote_notarize made view)) }
        ensures vote { IfOk result (Knows self.old (λ made known. notarize_at made known view)) }
    {
        let vote = self.construct_notarize(view)?;
        if let Some(vote) = &vote {
            self.append(Artifact::Notarize(*vote))?;
        }
        Ok(vote)
    }

    // The vote that the vote rule gives for the finality of the view's proposal is appended.
    #[tactic(auto, unfolding(model_steps::specs::Voter::vote_finalize))]
    fn vote_finalize(&mut self, view: View) -> Result<Option<Finalize>, AllocError>
        ensures stands { OnOk result (Does self.old self.new (λ made. vote_finalize made view)) }
        ensures vote { IfOk result (Knows self.old (λ made known. finalize_at made known view)) }
    {
        let vote = self.construct_finalize(view)?;
        if let Some(vote) = &vote {
            self.append(Artifact::Finalize(*vote))?;
        }
        Ok(vote)
    }

    // The open requests are brought up to date.
    #[tactic(auto, unfolding(model_steps::specs::Voter::open_requests))]
    fn open_requests(&mut self, now: u64) -> Result<(), AllocError>
        requires clock { now < 2 ^ 63 }
        ensures { OnOk result (Does self.old self.new (λ made. open_requests made now)) }
    {
        self.reconcile(now)?;
        self.seek()?;
        Ok(())
    }

    /// The view's section is synced, where anything was appended.
    pub(crate) fn sync(&mut self, view: View) -> Result<(), AllocError>
        ensures { OnOk result (Does self.old self.new (λ made. sync view)) }
    {
        if self.wrote {
            self.make(Call::Sync(view.0))?;
        }
        Ok(())
    }

    // The verdict that was taken goes to the resolver, and is reported where it is true.
    #[tactic(auto, unfolding(crate::specs::Stands::doing_of, model_steps::specs::Voter::publish_verdict))]
    fn publish_verdict(&mut self) -> Result<(), AllocError>
        ensures { OnOk result (Does self.old self.new (λ made. publish_verdict)) }
    {
        let Some((notarization, success)) = &self.verdict else {
            return Ok(());
        };
        let success = *success;
        let reported = notarization.keep(self.alloc)?;
        let notarization = notarization.keep(self.alloc)?;
        self.hand(Handed::Resolver(resolver::MailboxMessage::Certified {
            notarization,
            success,
        }))?;
        if success {
            self.report(Activity::Certification(reported))?;
        }
        Ok(())
    }

    // The own nullify is sent, and behind it, where it is a repeat, the best certificate. [repeated-is-published]
    #[tactic(auto, unfolding(crate::specs::Stands::doing_of, model_steps::specs::Voter::publish_nullify))]
    fn publish_nullify(&mut self) -> Result<(), AllocError>
        ensures { OnOk result (Does self.old self.new (λ made. publish_nullify)) }
    {
        let Some((nullify, best)) = &self.nullify else {
            return Ok(());
        };
        let vote = Vote::Nullify(*nullify);
        let best = best.keep(self.alloc)?;
        self.send_vote(vote)?;
        if let Some(certificate) = best {
            self.send_certificate(&certificate)?;
        }
        Ok(())
    }

    // The own notarize is sent, if the step made one.
    fn publish_notarize(&mut self, vote: Option<Notarize>) -> Result<(), AllocError>
        ensures { OnOk result (Does self.old self.new
            (λ made doing. option_map_or (λ n. send_vote (votes.Notarize n) doing) vote doing)) }
    {
        let Some(vote) = vote else {
            return Ok(());
        };
        self.send_vote(Vote::Notarize(vote))?;
        Ok(())
    }

    // The own finalize is sent, if the step made one.
    fn publish_finalize(&mut self, vote: Option<Finalize>) -> Result<(), AllocError>
        ensures { OnOk result (Does self.old self.new
            (λ made doing. option_map_or (λ f. send_vote (votes.Finalize f) doing) vote doing)) }
    {
        let Some(vote) = vote else {
            return Ok(());
        };
        self.send_vote(Vote::Finalize(vote))?;
        Ok(())
    }

    // The view's notarization is sent and reported, once.
    #[tactic(auto, unfolding(model_steps::specs::Voter::publish_notarization))]
    fn publish_notarization(&mut self, view: View) -> Result<(), AllocError>
        ensures { OnOk result (Does self.old self.new (λ made. publish_notarization made view)) }
    {
        let Some(notarization) = self.broadcast_notarization(view)? else {
            return Ok(());
        };
        let certificate = Certificate::Notarization(notarization.keep(self.alloc)?);
        self.send_certificate(&certificate)?;
        self.report(Activity::Notarization(notarization))?;
        Ok(())
    }

    // The view's nullification is sent and reported, once.
    #[tactic(auto, unfolding(model_steps::specs::Voter::publish_nullification))]
    fn publish_nullification(&mut self, view: View) -> Result<(), AllocError>
        ensures { OnOk result (Does self.old self.new (λ made. publish_nullification made view)) }
    {
        let Some(nullification) = self.broadcast_nullification(view)? else {
            return Ok(());
        };
        let certificate = Certificate::Nullification(nullification.keep(self.alloc)?);
        self.send_certificate(&certificate)?;
        self.report(Activity::Nullification(nullification))?;
        Ok(())
    }

    // The view's finalization is sent and reported, once.
    #[tactic(auto, unfolding(model_steps::specs::Voter::publish_finalization))]
    fn publish_finalization(&mut self, view: View) -> Result<(), AllocError>
        ensures { OnOk result (Does self.old self.new (λ made. publish_finalization made view)) }
    {
        let Some(finalization) = self.broadcast_finalization(view)? else {
            return Ok(());
        };
        let certificate = Certificate::Finalization(finalization.keep(self.alloc)?);
        self.send_certificate(&certificate)?;
        self.report(Activity::Finalization(finalization))?;
        Ok(())
    }

    /// Where the member is now, for the batcher.
    pub(crate) fn update_message(&self, forwardable: Option<Proposal>) -> Handed
        ensures { Knows self.now (λ made known. update_message made known forwardable) result }
    {
        let current = self.state.current_view();
        Handed::Batcher(batcher::Message::Update {
            current,
            leader: self.state.leader_index(current),
            finalized: self.state.last_finalized(),
            forwardable_proposal: forwardable,
        })
    }

    // The proposal of the view before the current one, where it is worth forwarding.
    #[tactic(auto, unfolding(crate::specs::Stands::doing_of, model_rules::specs::Views::admits_certificate, model_rules::specs::Views::least_active))]
    fn forwardable(&self) -> Option<Proposal>
        ensures { Knows self.now
            (λ made known. forwardable_at known (current_of made known - 1)) result }
    {
        let current = self.state.current_view();
        let before = current.saturating_sub(ViewDelta(1));
        let finalized = self.state.last_finalized();
        if before >= finalized {
            return self.state.forwardable_proposal(before);
        }
        // Only the greatest view of all does not stand above the last final one; the one before it is active too.
        if self.state.admits_certificate(before) {
            return self.state.forwardable_proposal(before);
        }
        None
    }

    // The batcher is told where the member is, where its view rose.
    #[tactic(auto, unfolding(crate::specs::Stands::doing_of, model_steps::specs::Voter::update_batcher))]
    fn update_batcher(&mut self, before: View) -> Result<(), AllocError>
        ensures { OnOk result (Does self.old self.new (λ made. update_batcher made before)) }
    {
        if self.state.current_view() <= before {
            return Ok(());
        }
        let update = self.update_message(self.forwardable());
        self.hand(update)?;
        Ok(())
    }

    // The end of a step on the view that it touched; it began in view `before`.
    fn end_step(&mut self, now: u64, before: View, view: View) -> Result<(), AllocError>
        requires clock { now < 2 ^ 63 }
        ensures { OnOk result (Does self.old self.new (λ made. end_of_step made now before view)) }
    {
        let notarize = self.vote_notarize(view)?;
        let finalize = self.vote_finalize(view)?;
        self.open_requests(now)?;
        self.sync(view)?;
        self.publish_verdict()?;
        self.publish_nullify()?;
        self.publish_notarize(notarize)?;
        self.publish_notarization(view)?;
        self.publish_nullification(view)?;
        self.publish_finalize(finalize)?;
        self.publish_finalization(view)?;
        self.update_batcher(before)?;
        Ok(())
    }

    // The journal is pruned, where the least active view rose.
    #[tactic(auto, unfolding(model_steps::specs::Voter::prune))]
    fn prune(&mut self) -> Result<(), AllocError>
        ensures { OnOk result (Does self.old self.new (λ made. prune made)) }
    {
        let Some(least) = self.tell_prune() else {
            return Ok(());
        };
        self.make(Call::Prune(least.0))?;
        Ok(())
    }

    /// The start of the next iteration.
    #[tactic(auto, unfolding(model_steps::specs::Voter::begin_iteration))]
    pub(crate) fn begin_iteration(&mut self, now: u64) -> Result<(), AllocError>
        requires clock { now < 2 ^ 63 }
        ensures { OnOk result (Does self.old self.new (λ made. begin_iteration made now)) }
    {
        self.iterate(now)?;
        self.seek()?;
        self.prune()?;
        Ok(())
    }

    /// What comes behind acting: the end of the step on the view that it touched, if any, and the next iteration.
    #[tactic(auto, unfolding(model_steps::specs::Voter::finished))]
    pub(crate) fn finish(
        &mut self,
        now: u64,
        before: View,
        touched: Option<View>,
    ) -> Result<(), AllocError>
        requires clock { now < 2 ^ 63 }
        ensures { OnOk result (Does self.old self.new
            (λ made doing. begin_iteration made now (ended made now before (doing, touched)))) }
    {
        if let Some(view) = touched {
            self.end_step(now, before, view)?;
        }
        self.begin_iteration(now)?;
        Ok(())
    }
}
