//! The reporter.
#![tactic(auto, unfolding(crate::specs::Opened::counts))]

ghost use Rattle.std.specs.Prelude.{◌≡◌, ◌∷◌, [], ◌==◌, ◌&&◌, not, drop, List, Option, None, IfOk, OnOk, OnErr, MatchOption};
ghost use Rattle.std.specs.Option.{option_copied};
ghost use Rattle.simplex_values.specs.declared.feedback.Feedback.TheVariants as feedback;
ghost use Rattle.simplex_types.specs.declared.activity.Activity.{Activity};
ghost use Rattle.simplex_recording.specs.Recording.{Made, recorded, notarizes_of, nullifies_of, finalizes_of, notarization_at, certification_at, nullification_at, finalization_at, FinalizedBy, has_certificate, leader_at, views_seen, latest_seen, faults_of, has_faults, invalid_votes_of, invalid_certificates_of};
ghost use Rattle.simplex_recording.specs.Stands.{StandsFor, Answers, made_with};

use crate::record::Record;
use simplex_types::elector::Elector;
use simplex_types::{
    Activity, Digest, Feedback, Finalization, Monitor, Notarization, Nullification, Participant,
    Scheme, View,
};
use std::alloc::{AllocError, Global};

/// What a reporter is made with.
#[derive(Debug, Drop)]
pub struct Config<S, L> {
    /// How many members there are: as many as the scheme has.
    pub participants: u32,
    /// Verifies what is reported.
    pub scheme: S,
    /// Elects leaders.
    pub elector: L,
}

/// A reporter that verifies what it is told, and records it. What fails to verify is counted and recorded nowhere.
///
/// All is recorded by view, whatever the epoch. What it answers an error to counts as not reported.
/// [recorded-by-view]
#[derive(Debug, Drop)]
pub struct Reporter<S, L> {
    alloc: Global,
    scheme: S,
    elector: L,
    participants: u32,
    kept: Record,
    invalid_votes: u64,
    invalid_certificates: u64,
}

impl<S: Scheme, L: Elector> Reporter<S, L> {
    /// A reporter that was told nothing.
    pub fn new(alloc: Global, config: Config<S, L>) -> Reporter<S, L>
        requires { config.participants ≡ S.members config.scheme }
        ensures { StandsFor S.verifies S.members L.elects L.cuts result
            (made_with S.verifies S.members L.elects L.cuts config.scheme config.elector) [] }
    {
        Reporter {
            alloc,
            scheme: config.scheme,
            elector: config.elector,
            participants: config.participants,
            kept: Record::new(alloc),
            invalid_votes: 0,
            invalid_certificates: 0,
        }
    }

    /// The leader of the view, where a certificate unlocked it: the first that was elected.
    pub fn leader(&self, view: View) -> Option<Participant>
        ensures { Answers S.verifies S.members L.elects L.cuts self.now
            (λ made told. leader_at made (recorded made told) view) result }
    {
        self.kept.unlocked.leader(view)
    }

    /// Whether the view has a certificate.
    pub fn certified(&self, view: View) -> bool
        ensures { Answers S.verifies S.members L.elects L.cuts self.now
            (λ made told. has_certificate (recorded made told) view) result }
    {
        self.kept.certificates.is_certified(view)
    }

    /// Who notarized the payload in the view, in rising order.
    pub fn notarizes(
        &self,
        alloc: Global,
        view: View,
        payload: &Digest,
    ) -> Result<Vec<Participant>, AllocError>
        ensures { IfOk result (λ signers. Answers S.verifies S.members L.elects L.cuts self.now
            (λ made told. notarizes_of made (recorded made told) view payload.now) signers.items) }
    {
        self.kept
            .votes
            .notarizes(alloc, self.participants, view, payload)
    }

    /// Who finalized the payload in the view, in rising order.
    pub fn finalizes(
        &self,
        alloc: Global,
        view: View,
        payload: &Digest,
    ) -> Result<Vec<Participant>, AllocError>
        ensures { IfOk result (λ signers. Answers S.verifies S.members L.elects L.cuts self.now
            (λ made told. finalizes_of made (recorded made told) view payload.now) signers.items) }
    {
        self.kept
            .votes
            .finalizes(alloc, self.participants, view, payload)
    }

    /// Who gave the view up, in rising order.
    pub fn nullifies(&self, alloc: Global, view: View) -> Result<Vec<Participant>, AllocError>
        ensures { IfOk result (λ signers. Answers S.verifies S.members L.elects L.cuts self.now
            (λ made told. nullifies_of made (recorded made told) view) signers.items) }
    {
        self.kept.votes.nullifies(alloc, self.participants, view)
    }

    /// The last notarization of the view. A certification is one too.
    pub fn notarization(&self, view: View) -> Option<&Notarization>
        ensures { Answers S.verifies S.members L.elects L.cuts self.now
            (λ made told. notarization_at (recorded made told) view) (option_copied result) }
    {
        self.kept.certificates.notarization(view)
    }

    /// The last certification of the view.
    pub fn certification(&self, view: View) -> Option<&Notarization>
        ensures { Answers S.verifies S.members L.elects L.cuts self.now
            (λ made told. certification_at (recorded made told) view) (option_copied result) }
    {
        self.kept.certificates.certification(view)
    }

    /// The last nullification of the view.
    pub fn nullification(&self, view: View) -> Option<&Nullification>
        ensures { Answers S.verifies S.members L.elects L.cuts self.now
            (λ made told. nullification_at (recorded made told) view) (option_copied result) }
    {
        self.kept.certificates.nullification(view)
    }

    /// The first finalization of the view, and how many were reported: at most the greatest u64.
    pub fn finalization(&self, view: View) -> Option<(&Finalization, u64)>
        ensures { (made : Made) (told : List Activity)
            → StandsFor S.verifies S.members L.elects L.cuts self.now made told
            → MatchOption result (finalization_at (recorded made told) view ≡ None)
            (λ kept. FinalizedBy (recorded made told) view kept.0.now kept.1) }
    {
        self.kept.certificates.finalization(view)
    }

    /// The evidence against the member in the view, each once, in order of report.
    pub fn faults(&self, member: Participant, view: View) -> &[Activity]
        ensures { Answers S.verifies S.members L.elects L.cuts self.now
            (λ made told. faults_of (recorded made told) member view) result.now }
    {
        self.kept.faults.of(member, view)
    }

    /// How many votes and how much evidence did not verify: at most the greatest u64.
    pub fn invalid_votes(&self) -> u64
        ensures { Answers S.verifies S.members L.elects L.cuts self.now invalid_votes_of result }
    {
        self.invalid_votes
    }

    /// How many certificates did not verify: at most the greatest u64.
    pub fn invalid_certificates(&self) -> u64
        ensures { Answers S.verifies S.members L.elects L.cuts self.now invalid_certificates_of result }
    {
        self.invalid_certificates
    }

    /// The view of the finalization that was reported last, which may be below an earlier one, or genesis.
    pub fn latest(&self) -> View
        ensures { Answers S.verifies S.members L.elects L.cuts self.now
            (λ made told. latest_seen (recorded made told)) result }
    {
        self.kept.seen.latest()
    }

    /// The view of each finalization in order of report, without the first `cursor`.
    pub fn seen_from(&self, cursor: u64) -> &[View]
        ensures { Answers S.verifies S.members L.elects L.cuts self.now
            (λ made told. drop cursor (views_seen (recorded made told))) result.now }
    {
        self.kept.seen.from(cursor)
    }

    /// Whether no evidence is recorded.
    pub fn assert_no_faults(&self) -> bool
        ensures { Answers S.verifies S.members L.elects L.cuts self.now
            (λ made told. not (has_faults (recorded made told))) result }
    {
        self.kept.faults.is_empty()
    }

    /// Whether all that was reported verified.
    pub fn assert_no_invalid(&self) -> bool
        ensures { Answers S.verifies S.members L.elects L.cuts self.now
            (λ made told. invalid_votes_of made told == 0
            && invalid_certificates_of made told == 0) result }
    {
        self.invalid_votes == 0 && self.invalid_certificates == 0
    }
}

impl<S: Scheme, L: Elector> simplex_types::Reporter for Reporter<S, L> {
    type Activity = Activity;

    ghost reports = { λ before activity answer after. IfOk answer (λ told. told ≡ feedback.Ok)
        × ((made : Made) (told : List Activity) → StandsFor S.verifies S.members L.elects L.cuts before made told
        → OnOk answer (StandsFor S.verifies S.members L.elects L.cuts after made (activity ∷ told))
        × OnErr answer (StandsFor S.verifies S.members L.elects L.cuts after made told)) };

    fn report(&mut self, activity: Activity) -> Result<Feedback, AllocError> {
        if activity.verify(&self.scheme) {
            self.kept.enter(self.alloc, &self.elector, activity)?;
        } else if activity.verified() {
            self.invalid_certificates = self.invalid_certificates.saturating_add(1);
        } else {
            self.invalid_votes = self.invalid_votes.saturating_add(1);
        }
        Ok(Feedback::Ok)
    }
}

impl<S: Scheme, L: Elector> Monitor for Reporter<S, L> {
    ghost latest = { λ reporter. reporter.kept.seen.latest };

    /// The view of the finalization that was reported last, or genesis.
    fn latest(&self) -> View
        ensures kept { result ≡ self.now.kept.seen.latest }
        ensures told { Answers S.verifies S.members L.elects L.cuts self.now
            (λ made told. latest_seen (recorded made told)) result }
    {
        self.kept.seen.latest()
    }
}
