//! How far a member is, and since when.
ghost use Rattle.std.specs.Prelude.{◌≡◌, ◌+◌, ◌&&◌, nat_lt, if◌then◌else◌};
ghost use Rattle.simplex_state.specs.Progress.{beginning, opens, ends};

use simplex_values::{TermLength, View};

/// How far a member is, and since when.
#[derive(Clone, Copy, Debug, PartialEq, Eq)]
pub(crate) struct Progress {
    /// The greatest view that is known to be final.
    pub(crate) last_finalized: View,
    /// The view that the member is in.
    pub(crate) current: View,
    /// When it came into this view.
    pub(crate) entered: u64,
    /// When it came into this view's term.
    pub(crate) term_entered: u64,
    /// When the last final view last rose.
    pub(crate) finalized_at: u64,
    /// How many views inactivity skipped since then.
    pub(crate) skipped: u64,
    /// The view below which everything was last forgotten.
    pub(crate) pruned: View,
}

impl Progress {
    /// Nothing is known yet.
    pub(crate) fn new(now: u64) -> Progress
        ensures { result ≡ beginning now }
    {
        Progress {
            last_finalized: View(0),
            current: View(1),
            entered: now,
            term_entered: now,
            finalized_at: now,
            skipped: 0,
            pruned: View(0),
        }
    }

    /// Moves on to the view, where it is later than the current one. [entered-in-a-step]
    #[tactic(auto, unfolding(crate::specs::Progress::opens))]
    pub(crate) fn open(&mut self, view: View, length: TermLength, now: u64)
        ensures { self.new ≡ opens length view now self.old }
    {
        if view <= self.current {
            return;
        }
        if view.term_index(length) != self.current.term_index(length) {
            self.term_entered = now;
        }
        self.current = view;
        self.entered = now;
    }

    /// Counts a view that inactivity skipped, up to the budget.
    pub(crate) fn skip(&mut self, inactive: bool, budget: u64)
        ensures { self.new ≡ (if inactive
            && nat_lt self.old.skipped budget then record self.old { skipped = 1 + self.old.skipped } else self.old) }
    {
        if inactive && self.skipped < budget {
            self.skipped += 1;
        }
    }

    /// Takes the view for final, which opens the next one.
    #[tactic(auto, unfolding(crate::specs::Progress::ends, crate::specs::Progress::opens))]
    pub(crate) fn finalize(&mut self, view: View, length: TermLength, now: u64)
        ensures { self.new ≡ ends length view now self.old }
    {
        self.open(view.next(), length, now);
        if view > self.last_finalized {
            self.last_finalized = view;
            self.finalized_at = now;
            self.skipped = 0;
        }
    }
}
