//! A reporter that is told only what others can be shown.
ghost use Rattle.std.specs.Prelude.{◌≡◌};
ghost use Rattle.simplex_types.specs.Evidence.{activity_verifies};
ghost use Rattle.simplex_report.specs.Attributable.{passes, tells_if};

use simplex_types::{Activity, Reporter};
use simplex_values::{Feedback, Keep};
use simplex_wire::Scheme;
use std::alloc::{AllocError, Global};

/// Keeps votes and evidence from a reporter where the scheme's attestations do not prove who signed, and
/// where verification is asked for also those that do not verify. Certificates always pass.
///
/// What does not pass is dropped, and all is well.
#[derive(Debug, Drop)]
pub struct AttributableReporter<S, R> {
    /// What activities are verified with.
    pub scheme: S,
    /// Who is told.
    pub reporter: R,
    /// Whether votes and evidence are verified here.
    pub verify: bool,
}

impl<S, R> AttributableReporter<S, R> {
    /// Tells this reporter, by this scheme.
    pub fn new(scheme: S, reporter: R, verify: bool) -> AttributableReporter<S, R>
        ensures { result ≡ record { scheme = scheme; reporter = reporter; verify = verify } }
    {
        AttributableReporter {
            scheme,
            reporter,
            verify,
        }
    }
}

impl<S: Scheme, R> AttributableReporter<S, R> {
    /// Whether the reporter inside is told of the activity.
    #[tactic(auto, unfolding(crate::specs::Attributable::passes))]
    fn passes(&self, activity: &Activity) -> bool
        ensures { result ≡ passes S.attributable self.now.verify
            (activity_verifies (S.verifies self.now.scheme)
            (S.members self.now.scheme)) activity.now }
    {
        activity.verified()
            || S::is_attributable() && (!self.verify || activity.verify(&self.scheme))
    }
}

impl<S: Scheme, R: Reporter<Activity = Activity>> Reporter for AttributableReporter<S, R> {
    type Activity = Activity;

    ghost reports = { λ before activity answer after. (after.scheme ≡ before.scheme) × (after.verify ≡ before.verify)
        × tells_if R.reports (passes S.attributable before.verify
        (activity_verifies (S.verifies before.scheme) (S.members before.scheme)) activity)
        before.reporter activity answer after.reporter };

    fn report(&mut self, activity: Activity) -> Result<Feedback, AllocError> {
        if !self.passes(&activity) {
            return Ok(Feedback::Ok);
        }
        self.reporter.report(activity)
    }
}

impl<S: Keep + Drop, R: Keep + Drop> Keep for AttributableReporter<S, R> {
    fn keep(&self, alloc: Global) -> Result<AttributableReporter<S, R>, AllocError> {
        Ok(AttributableReporter {
            scheme: self.scheme.keep(alloc)?,
            reporter: self.reporter.keep(alloc)?,
            verify: self.verify,
        })
    }
}
