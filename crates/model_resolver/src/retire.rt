//! Which asks are done with.
ghost use Rattle.std.specs.Prelude.{◌≡◌, ◌&&◌, ℕ, nat_le};
ghost use Rattle.model_resolver.specs.Retirement.{reaches, retires};

use simplex_types::{Ask, Kind, Until, View};

/// Asks that are done with, for all views that it reaches.
#[derive(Clone, Copy, Debug, PartialEq, Eq)]
pub enum Retire {
    /// What is asked for of this kind, from the first view to the last.
    Settled { kind: Kind, start: View, end: View },
    /// All that is asked for up to the view.
    Finalized(View),
    /// What is asked for until the floor, up to the view.
    Floor(View),
}

impl Retire {
    /// The first and the last view that it reaches.
    pub fn reach(&self) -> (u64, u64)
        ensures { (view : ℕ) → reaches self.now view
            ≡ (nat_le result.0 view && nat_le view result.1) }
    {
        match self {
            Retire::Settled { start, end, .. } => (start.0, end.0),
            Retire::Finalized(view) | Retire::Floor(view) => (0, view.0),
        }
    }

    /// Whether such an ask of a view that it reaches is done with.
    pub fn retires(&self, ask: &Ask) -> bool
        ensures { result ≡ retires self.now ask.now }
    {
        match self {
            Retire::Settled { kind, .. } => ask.kind == *kind,
            Retire::Finalized(_) => true,
            Retire::Floor(_) => ask.until == Until::Floor,
        }
    }
}
