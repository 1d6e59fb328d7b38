//! A start of the voter: it stands on its floor, and knows again what its journal kept.
ghost use Rattle.std.specs.Prelude.{◌≡◌, ◌<◌, ◌^◌, [], if◌then◌else◌, IfOk, OnOk};
ghost use Rattle.std.specs.List.{list_any};
ghost use Rattle.model_rules.specs.Known.{Made};
ghost use Rattle.model_steps.specs.Desk.{begun};
ghost use Rattle.model_steps.specs.Voter.{activity_of, certificate_in, report_if, updated_if, replay_verdict, is_final_from, replay_record, replay_all, floor_view, stand_on, started, blank_desk};
ghost use Rattle.simplex_voter.specs.Stands.{Does, Restores, Stands, tell_floor, holds_floor, append_floor, restore_record, restore_verdict, replay_above, verdict_in};

use crate::planner::Planner;
use simplex_messages::{Handed, resolver};
use simplex_types::elector::Elector;
use simplex_types::{Activity, Artifact, Certificate, Floor, Keep, Notarization, Scheme, View};
use std::alloc::{AllocError, Global};

#[tactic(auto, unfolding(crate::specs::Stands::doing_of))]
impl<S: Scheme + Drop, L: Elector + Drop> Planner<S, L> {
    // The floor is told to the resolver and the reporter. [floor-before-journal]
    fn tell_floor(&mut self, floor: &Floor) -> Result<(), AllocError>
        ensures { OnOk result (Does self.old self.new (λ made. tell_floor floor.now)) }
    {
        let Floor::Finalized(finalization) = floor else {
            return Ok(());
        };
        let reported = finalization.keep(self.alloc)?;
        let certificate = Certificate::Finalization(finalization.keep(self.alloc)?);
        self.hand(Handed::Resolver(resolver::MailboxMessage::Updated { certificate }))?;
        self.report(Activity::Finalization(reported))?;
        Ok(())
    }

    // The floor is final.
    fn stand_on(&mut self, floor: &Floor, now: u64) -> Result<(), AllocError>
        requires clock { now < 2 ^ 63 }
        ensures { OnOk result (Restores self.old self.new (λ made. stand_on made now floor.now)) }
    {
        let kept = floor.keep(self.alloc)?;
        self.set_floor(kept, now)?;
        self.tell_floor(floor)?;
        Ok(())
    }

    // The reporter is told, if there is anything to tell.
    fn report_if(&mut self, activity: Option<Activity>) -> Result<(), AllocError>
        ensures { OnOk result (Does self.old self.new (λ made. report_if activity)) }
    {
        if let Some(activity) = activity {
            self.report(activity)?;
        }
        Ok(())
    }

    // The resolver is told of the certificate, if there is one.
    fn update_resolver(&mut self, certificate: Option<Certificate>) -> Result<(), AllocError>
        ensures { OnOk result (Does self.old self.new (λ made. updated_if certificate)) }
    {
        if let Some(certificate) = certificate {
            self.hand(Handed::Resolver(resolver::MailboxMessage::Updated { certificate }))?;
        }
        Ok(())
    }

    // A kept verdict that is taken goes to the resolver, and is reported where it is true.
    fn tell_verdict(&mut self, good: bool, taken: Option<Notarization>) -> Result<(), AllocError>
        ensures { OnOk result (Does self.old self.new (λ made. replay_verdict good taken)) }
    {
        let Some(notarization) = taken else {
            return Ok(());
        };
        if good {
            let reported = notarization.keep(self.alloc)?;
            self.report(Activity::Certification(reported))?;
        }
        self.hand(Handed::Resolver(resolver::MailboxMessage::Certified {
            notarization,
            success: good,
        }))?;
        Ok(())
    }

    // A kept verdict is known again.
    fn restore_verdict(&mut self, view: View, good: bool, now: u64) -> Result<(), AllocError>
        requires clock { now < 2 ^ 63 }
        ensures { OnOk result (Does self.old self.new
            (λ made. restore_verdict made now view good)) }
    {
        let taken = self.certified(view, good, now)?;
        self.tell_verdict(good, taken)?;
        Ok(())
    }

    // A kept record that is no verdict is known again, own votes as own.
    fn restore_record(&mut self, artifact: &Artifact, now: u64) -> Result<(), AllocError>
        requires clock { now < 2 ^ 63 }
        ensures { OnOk result (Restores self.old self.new
            (λ made. restore_record made now artifact.now)) }
    {
        let activity = activity_of(artifact, self.alloc)?;
        let certificate = certificate_in(artifact, self.alloc)?;
        let kept = artifact.keep(self.alloc)?;
        let leader = self.replay(kept, now)?;
        self.block(leader)?;
        self.report_if(activity)?;
        self.update_resolver(certificate)?;
        Ok(())
    }

    // A kept record is known again. [first-record-counts]
    fn replay_record(&mut self, artifact: &Artifact, now: u64) -> Result<(), AllocError>
        requires clock { now < 2 ^ 63 }
        ensures { OnOk result (Restores self.old self.new
            (λ made doing. replay_record made now doing artifact.now)) }
    {
        match verdict_in(artifact) {
            Some(verdict) => {
                self.restore_verdict(verdict.0, verdict.1, now)?;
                Ok(())
            }
            None => {
                self.restore_record(artifact, now)?;
                Ok(())
            }
        }
    }

    // A kept record is known again, where it is above the floor's view.
    fn replay_above(&mut self, artifact: &Artifact, floor: View, now: u64) -> Result<(), AllocError>
        requires clock { now < 2 ^ 63 }
        ensures { OnOk result (Restores self.old self.new
            (λ made doing. replay_above made now floor doing artifact.now)) }
    {
        if artifact.view() <= floor {
            return Ok(());
        }
        self.replay_record(artifact, now)?;
        Ok(())
    }

    // The records above the floor's view are known again, in order.
    fn replay_all(&mut self, records: &[Artifact], floor: View, now: u64) -> Result<(), AllocError>
        requires clock { now < 2 ^ 63 }
        ensures { OnOk result (Restores self.old self.new
            (λ made doing. replay_all made now floor doing records.now)) }
    {
        for artifact in records {
            self.replay_above(artifact, floor, now)?;
        }
        Ok(())
    }

    // The floor is kept.
    fn append_floor(&mut self, floor: &Floor) -> Result<(), AllocError>
        ensures { OnOk result (Does self.old self.new (λ made. append_floor floor.now)) }
    {
        let Floor::Finalized(finalization) = floor else {
            return Ok(());
        };
        let view = finalization.view();
        self.append(Artifact::Finalization(finalization.keep(self.alloc)?))?;
        self.sync(view)?;
        Ok(())
    }

    // The floor is kept, where it is not held.
    fn keep_floor(&mut self, floor: &Floor, is_held: bool) -> Result<(), AllocError>
        ensures { OnOk result (Does self.old self.new
            (λ made doing. if is_held then doing else append_floor floor.now doing)) }
    {
        if is_held {
            return Ok(());
        }
        self.append_floor(floor)?;
        Ok(())
    }

    /// All that a start does over the records that the journal held, before any stop.
    pub(crate) fn start(
        &mut self,
        floor: &Floor,
        records: &[Artifact],
        now: u64,
    ) -> Result<(), AllocError>
        requires clock { now < 2 ^ 63 }
        ensures { OnOk result ((made : Made) → Stands self.old made [] (begun blank_desk)
            → Stands self.new made [] (started made now floor.now records.now)) }
    {
        let is_held = holds_floor(floor, records);
        self.stand_on(floor, now)?;
        self.replay_all(records, view_of(floor), now)?;
        self.hand(Handed::Resolver(resolver::MailboxMessage::Replayed))?;
        self.keep_floor(floor, is_held)?;
        let update = self.update_message(None);
        self.hand(update)?;
        self.begin_iteration(now)?;
        Ok(())
    }
}

// The view of the floor.
fn view_of(floor: &Floor) -> View
    ensures { result ≡ floor_view floor.now }
{
    match floor {
        Floor::Genesis(_) => View(0),
        Floor::Finalized(finalization) => finalization.view(),
    }
}

// Whether the record is a finalization of the view or a later one.
fn is_final_from(view: View, artifact: &Artifact) -> bool
    ensures { result ≡ is_final_from view artifact.now }
{
    match artifact {
        Artifact::Finalization(finalization) => view <= finalization.view(),
        _ => false,
    }
}

// Whether the records hold a finalization of the floor's view or a later one, where the floor is one.
fn holds_floor(floor: &Floor, records: &[Artifact]) -> bool
    ensures { result ≡ holds_floor floor.now records.now }
{
    match floor {
        Floor::Genesis(_) => true,
        Floor::Finalized(finalization) => holds_final(finalization.view(), records),
    }
}

// Whether a record is a finalization of the view or a later one.
fn holds_final(view: View, records: &[Artifact]) -> bool
    ensures { result ≡ list_any (is_final_from view) records.now }
{
    records.iter().any(|record| is_final_from(view, record))
}

// The view and the verdict, where the kept record is one.
fn verdict_in(artifact: &Artifact) -> Option<(View, bool)>
    ensures { result ≡ verdict_in artifact.now }
{
    match artifact {
        Artifact::Certification(round, good) => Some((round.view, *good)),
        _ => None,
    }
}

// The activity that a kept record is reported as.
fn activity_of(artifact: &Artifact, alloc: Global) -> Result<Option<Activity>, AllocError>
    ensures { IfOk result (λ activity. activity ≡ activity_of artifact.now) }
{
    match artifact {
        Artifact::Notarize(vote) => Ok(Some(Activity::Notarize(*vote))),
        Artifact::Nullify(vote) => Ok(Some(Activity::Nullify(*vote))),
        Artifact::Finalize(vote) => Ok(Some(Activity::Finalize(*vote))),
        Artifact::Notarization(it) => Ok(Some(Activity::Notarization(it.keep(alloc)?))),
        Artifact::Nullification(it) => Ok(Some(Activity::Nullification(it.keep(alloc)?))),
        Artifact::Finalization(it) => Ok(Some(Activity::Finalization(it.keep(alloc)?))),
        Artifact::Certification(_, _) => Ok(None),
    }
}

// The certificate in a kept record.
fn certificate_in(artifact: &Artifact, alloc: Global) -> Result<Option<Certificate>, AllocError>
    ensures { IfOk result (λ certificate. certificate ≡ certificate_in artifact.now) }
{
    match artifact {
        Artifact::Notarization(it) => Ok(Some(Certificate::Notarization(it.keep(alloc)?))),
        Artifact::Nullification(it) => Ok(Some(Certificate::Nullification(it.keep(alloc)?))),
        Artifact::Finalization(it) => Ok(Some(Certificate::Finalization(it.keep(alloc)?))),
        _ => Ok(None),
    }
}
