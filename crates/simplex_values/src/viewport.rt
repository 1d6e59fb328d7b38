//! Which views a member still cares for.
ghost use Rattle.std.specs.Prelude.{◌≡◌};
ghost use Rattle.simplex_values.specs.Viewport.{retains, admits_vote};

use crate::terms::Lookahead;
use crate::view::{View, ViewDelta};

/// What is final, where the member is, and how far it looks back and ahead.
#[derive(Clone, Copy, Debug, PartialEq, Eq)]
pub struct Viewport {
    /// The last final view.
    pub finalized: View,
    /// The view that the member is in.
    pub current: View,
    /// How many views below the last final one are kept.
    pub view_retention: ViewDelta,
    /// How far ahead the member works.
    pub lookahead: Lookahead,
}

impl Viewport {
    ghost use Rattle.simplex_values.specs.Viewport.{retains, admits_vote};

    /// Whether the view is kept: it is at least the last final view less the retention.
    pub fn retains(&self, view: View) -> bool
        ensures { result ≡ retains self.now view }
    {
        view >= self.finalized.saturating_sub(self.view_retention)
    }

    /// Whether a vote of the view is of use: the view is kept and admitted.
    pub fn admits_vote(&self, view: View) -> bool
        ensures { result ≡ admits_vote self.now view }
    {
        self.retains(view) && self.lookahead.admits(self.current, view)
    }

    /// Whether a certificate of the view is of use: the view is kept.
    pub fn admits_certificate(&self, view: View) -> bool
        ensures { result ≡ retains self.now view }
    {
        self.retains(view)
    }
}
