//! What a change of what a member holds for others leads to.
use simplex_values::{Kind, View};

/// What follows for the asks that stand.
#[derive(Clone, Copy, Debug, PartialEq, Eq)]
pub enum Effect {
    /// The view is a gap now: a nullification of it is to be asked for.
    Fetch { view: View },
    /// Asks of this kind and these views are settled.
    Settled { kind: Kind, start: View, end: View },
    /// All asks up to the view are settled.
    Finalized(View),
    /// The floor rose to the view.
    Raised(View),
}
