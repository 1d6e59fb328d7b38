//! Which certificates are added, which verdicts are taken, and which view a proposal may stand on.
#![tactic(auto, unfolding(crate::specs::Opened::certificates))]

ghost use Rattle.std.specs.Prelude.{◌≡◌};
ghost use Rattle.std.specs.Option.{is_none};
ghost use Rattle.model_rules.specs.Ancestry.{gap_between, has_ancestry, has_true_verdict, is_certified, is_met};
ghost use Rattle.model_rules.specs.Calls.{takes_verdict};
ghost use Rattle.model_steps.specs.Voter.{adds};
ghost use Rattle.simplex_known.specs.Knows.{Answers};

use crate::known::Known;
use simplex_values::View;
use simplex_wire::Certificate;

impl Known {
    /// Whether the certificate is added: its view is active, and none of its view and kind is known.
    pub fn adds(&self, certificate: &Certificate) -> bool
        ensures { Answers self.now (λ made known. adds made known certificate.now) result }
    {
        match certificate {
            Certificate::Notarization(n) => {
                let view = n.view();
                self.admits_certificate(view) && self.round(view).notarized.is_none()
            }
            Certificate::Nullification(n) => {
                let view = n.view();
                self.admits_certificate(view) && !self.round(view).nullified
            }
            Certificate::Finalization(f) => {
                let view = f.view();
                self.admits_certificate(view) && self.round(view).finalized.is_none()
            }
        }
    }

    /// Whether a verdict on the view is taken.
    pub fn takes_verdict(&self, view: View) -> bool
        ensures { Answers self.now (λ made known. takes_verdict known view) result }
    {
        let round = self.round(view);
        self.last_finalized < view && round.notarized.is_some() && round.verdict.is_none()
    }

    /// Whether the view is the last final one, or a later one with a true verdict.
    pub fn is_certified(&self, view: View) -> bool
        ensures { Answers self.now (λ made known. is_certified known view) result }
    {
        view == self.last_finalized || (self.last_finalized < view && self.has_true_verdict(view))
    }

    /// Whether a proposal of the view may stand on the parent.
    #[tactic(auto, unfolding(crate::specs::Opened::parents))]
    pub fn has_ancestry(&self, parent: View, view: View) -> bool
        ensures { Answers self.now (λ made known. has_ancestry made known parent view) result }
    {
        self.last_finalized <= parent
            && parent < view
            && self.spans(parent, view)
            && (self.is_certified(parent) || self.is_met(parent, view))
    }

    /// Whether the application's verdict on the view is true.
    pub(crate) fn has_true_verdict(&self, view: View) -> bool
        ensures { Answers self.now (λ made known. has_true_verdict known view) result }
    {
        self.round(view).verdict.unwrap_or(false)
    }

    /// Whether nullifications cover each view strictly between the two.
    #[tactic(auto, unfolding(crate::specs::Opened::parents))]
    fn spans(&self, parent: View, view: View) -> bool
        ensures { Answers self.now
            (λ made known. is_none (gap_between made known parent view)) result }
    {
        self.covers.spans(parent, view)
    }

    /// Whether the parent is the view just before, and the node voted for it and did not give it up.
    #[tactic(auto, unfolding(crate::specs::Opened::parents))]
    fn is_met(&self, parent: View, view: View) -> bool
        ensures { Answers self.now (λ made known. is_met known parent view) result }
    {
        parent < view
            && view.0 - parent.0 == 1
            && self.round(parent).voted.is_some()
            && !self.has_nullified(parent)
    }
}
