//! The certificates of one view.
#![tactic(auto, unfolding(crate::specs::Opened::views))]

ghost use Rattle.std.specs.Prelude.{◌≡◌, ℕ, List, None, MatchOption};
ghost use Rattle.std.specs.Option.{option_copied};
ghost use Rattle.simplex_types.specs.declared.activity.Activity.{Activity};
ghost use Rattle.simplex_types.specs.declared.activity.Activity.TheVariants as activities;
ghost use Rattle.simplex_recording.specs.Kept.{nothing};
ghost use Rattle.simplex_recording.specs.Recording.{has_certificate, notarization_at, certification_at, nullification_at, finalization_at, FinalizedBy};
ghost use Rattle.simplex_recording.specs.Stands.{AtViewOf, AnswersAt, Enters};

use crate::finalized::Finalized;
use simplex_types::{Activity, Finalization, Notarization, Nullification};

/// The certificates of a view: the last of each kind, and the first finalization.
#[derive(Debug, Drop)]
pub(crate) struct AtView {
    /// Whether there is any.
    is_certified: bool,
    /// The last notarization, where it came behind the last certification.
    notarization: Option<Notarization>,
    certification: Option<Notarization>,
    nullification: Option<Nullification>,
    finalization: Option<Finalized>,
}

impl AtView {
    /// No certificates.
    pub(crate) fn new() -> AtView
        ensures { result ≡ nothing }
    {
        AtView {
            is_certified: false,
            notarization: None,
            certification: None,
            nullification: None,
            finalization: None,
        }
    }

    /// A finalization of the view was recorded.
    fn finalize(&mut self, it: Finalization)
        ensures { Enters self.old self.new (activities.Finalization it) }
    {
        self.is_certified = true;
        match &mut self.finalization {
            Some(kept) => {
                kept.count = kept.count.saturating_add(1);
            }
            None => {
                self.finalization = Some(Finalized {
                    first: it,
                    count: 1,
                });
            }
        }
    }

    /// A certificate of the view was recorded.
    pub(crate) fn enter(&mut self, activity: Activity)
        ensures { Enters self.old self.new activity }
    {
        match activity {
            Activity::Notarization(it) => {
                self.is_certified = true;
                self.notarization = Some(it);
            }
            Activity::Certification(it) => {
                self.is_certified = true;
                self.notarization = None;
                self.certification = Some(it);
            }
            Activity::Nullification(it) => {
                self.is_certified = true;
                self.nullification = Some(it);
            }
            Activity::Finalization(it) => self.finalize(it),
            _ => {}
        }
    }

    /// Whether the view has a certificate.
    pub(crate) fn is_certified(&self) -> bool
        ensures { AnswersAt self.now has_certificate result }
    {
        self.is_certified
    }

    /// The last notarization. A certification is one too.
    pub(crate) fn notarization(&self) -> Option<&Notarization>
        ensures { AnswersAt self.now notarization_at (option_copied result) }
    {
        match &self.notarization {
            Some(it) => Some(it),
            None => self.certification.as_ref(),
        }
    }

    /// The last certification.
    pub(crate) fn certification(&self) -> Option<&Notarization>
        ensures { AnswersAt self.now certification_at (option_copied result) }
    {
        self.certification.as_ref()
    }

    /// The last nullification.
    pub(crate) fn nullification(&self) -> Option<&Nullification>
        ensures { AnswersAt self.now nullification_at (option_copied result) }
    {
        self.nullification.as_ref()
    }

    /// The first finalization, and how many there were.
    pub(crate) fn finalization(&self) -> Option<(&Finalization, u64)>
        ensures { (all : List Activity) (view : ℕ) → AtViewOf self.now all view
            → MatchOption result (finalization_at all view ≡ None)
            (λ kept. FinalizedBy all view kept.0.now kept.1) }
    {
        let kept = self.finalization.as_ref()?;
        Some((&kept.first, kept.count))
    }
}
