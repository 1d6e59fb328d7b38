//! What a member asks its peers for, and how an answer is judged.
ghost use Rattle.std.specs.Prelude.{◌≡◌};
ghost use Rattle.simplex_values.specs.declared.ask.Kind.TheVariants as kinds;
ghost use Rattle.simplex_values.specs.declared.ask.Until.TheVariants as untils;

use crate::keep::Keep;
use std::alloc::{AllocError, Global};

/// What can be asked for of a view.
#[derive(Clone, Copy, Debug, PartialEq, Eq, PartialOrd, Ord, Hash)]
pub enum Kind {
    /// A nullification of it.
    Nullification,
    /// A notarization of it.
    Notarization,
}

/// How long an ask stands.
#[derive(Clone, Copy, Debug, PartialEq, Eq, PartialOrd, Ord, Hash)]
pub enum Until {
    /// Until the floor is at the view, or past it.
    Floor,
    /// Until a finalization is at the view, or past it.
    Finalized,
}

/// What is asked for of a view, and for how long.
#[derive(Clone, Copy, Debug, PartialEq, Eq, PartialOrd, Ord, Hash)]
pub struct Ask {
    /// What is asked for.
    pub kind: Kind,
    /// For how long.
    pub until: Until,
}

impl Ask {
    /// A gap is to be filled: a nullification, until the floor.
    pub fn backfill() -> Ask
        ensures { result ≡ record { kind = kinds.Nullification; until = untils.Floor } }
    {
        Ask {
            kind: Kind::Nullification,
            until: Until::Floor,
        }
    }

    /// A proposal's ancestry is to be filled, until a finalization.
    pub fn ancestry(kind: Kind) -> Ask
        ensures { result ≡ record { kind = kind; until = untils.Finalized } }
    {
        Ask {
            kind,
            until: Until::Finalized,
        }
    }
}

impl Keep for Ask {
    fn keep(&self, _alloc: Global) -> Result<Ask, AllocError> {
        Ok(*self)
    }
}

/// What becomes of a delivered response.
#[derive(Clone, Copy, Debug, PartialEq, Eq)]
pub enum Outcome {
    /// Everything was settled already; nothing was read.
    Ignored,
    /// The bytes are no valid answer.
    Invalid,
    /// It settled what was asked for.
    Resolved(Resolution),
    /// It settled nothing.
    Unresolved,
}

/// How much of what was asked for is settled.
#[derive(Clone, Copy, Debug, PartialEq, Eq)]
pub enum Resolution {
    /// All of it.
    Complete,
    /// A part of it: the rest is asked for on.
    Partial,
}
