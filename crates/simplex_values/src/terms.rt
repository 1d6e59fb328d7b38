//! How an elector cuts views into terms, and how far ahead a member works.
ghost use Rattle.std.specs.Prelude.{◌≡◌, ◌<◌, ◌-◌, ◌*◌, IsTrue, ◌↔◌};
ghost use Rattle.simplex_values.specs.Terms.{greatest_view, admission_limit, is_in_window, admits};

use crate::term::TermLength;
use crate::view::View;

/// The terms of an elector. A leader keeps its place for a whole term.
#[derive(Clone, Copy, Debug, PartialEq, Eq)]
pub struct Terms {
    /// How many views a term has.
    pub length: TermLength,
    /// How many views ahead of the current one a member works, within the term.
    pub lookahead: u64,
    /// After how many milliseconds without finality in a term a view expires, if at all.
    pub stall_timeout: Option<u64>,
}

impl Terms {
    /// Whether the view lies so near the greatest u64 that the engine goes no further:
    /// it is greater than that less two terms and the lookahead.
    pub fn at_end(&self, view: View) -> bool
        ensures { IsTrue result ↔
            (greatest_view - 2 * self.now.length - self.now.lookahead < view) }
    {
        let last = u64::MAX - 2 * self.length.get();
        view.0 > last.saturating_sub(self.lookahead)
    }
}

/// How far ahead of its current view a member works.
#[derive(Clone, Copy, Debug, PartialEq, Eq)]
pub struct Lookahead {
    /// How many views a term has.
    pub length: TermLength,
    /// How many views ahead, within the term.
    pub views: u64,
}

impl Lookahead {
    /// That of the terms.
    pub fn new(terms: &Terms) -> Lookahead
        ensures length { result.length ≡ terms.now.length }
        ensures views { result.views ≡ terms.now.lookahead }
    {
        Lookahead {
            length: terms.length,
            views: terms.lookahead,
        }
    }

    /// The last view that is worked at while this one is current: within its term, and at most the
    /// lookahead ahead.
    #[tactic(auto, unfolding(crate::specs::Terms::admission_limit))]
    pub fn admission_limit(&self, current: View) -> View
        ensures { result ≡ admission_limit self.now.length self.now.views current }
    {
        let ahead = View(current.0.saturating_add(self.views));
        current.term_end(self.length).min(ahead)
    }

    /// Whether the view is ahead of the current one, and not past the limit.
    #[tactic(auto, unfolding(crate::specs::Terms::is_in_window))]
    pub fn in_admission_window(&self, current: View, view: View) -> bool
        ensures { result ≡ is_in_window self.now.length self.now.views current view }
    {
        current < view && view <= self.admission_limit(current)
    }

    /// Whether a vote of the view is of use: it is at most the next view, or the next term's first, or
    /// in the admission window.
    #[tactic(auto, unfolding(crate::specs::Terms::admits))]
    pub fn admits(&self, current: View, view: View) -> bool
        ensures { result ≡ admits self.now.length self.now.views current view }
    {
        view <= current.next()
            || view == current.next_term_start(self.length)
            || self.in_admission_window(current, view)
    }
}
