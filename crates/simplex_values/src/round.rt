//! Rounds, and what a proposal of a round stands on.
ghost use Rattle.std.specs.Prelude.{Some};

use crate::digest::Digest;
use crate::epoch::Epoch;
use crate::member::Participant;
use crate::view::View;
use std::fmt;

/// A view of an epoch.
#[derive(Clone, Copy, Debug, PartialEq, Eq, PartialOrd, Ord, Hash)]
pub struct Round {
    /// The epoch.
    pub epoch: Epoch,
    /// The view.
    pub view: View,
}

impl fmt::Display for Round {
    ghost use Rattle.simplex_values.specs.Texts.{round_text};

    ghost output = { λ round. Some (round_text round) };

    fn fmt<W: fmt::Write>(&self, f: &mut fmt::Formatter<W>) -> fmt::Result {
        let epoch = self.epoch.0;
        let view = self.view.0;
        write!(f, "{epoch}.{view}")
    }
}

/// The view whose payload a proposal stands on, and this payload.
#[derive(Clone, Copy, Debug, PartialEq, Eq)]
pub struct Parent {
    /// The view, below that of the proposal.
    pub view: View,
    /// Its payload.
    pub payload: Digest,
}

/// What an application is told with a request: the round, its leader, and the parent.
#[derive(Clone, Copy, Debug, PartialEq, Eq)]
pub struct Context {
    /// The round that the payload is for.
    pub round: Round,
    /// The member that leads it.
    pub leader: Participant,
    /// What the payload is to stand on.
    pub parent: Parent,
}
