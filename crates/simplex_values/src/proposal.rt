//! Proposals, and what votes and certificates are about.
use crate::digest::Digest;
use crate::epoch::Epoch;
use crate::round::Round;
use crate::view::View;

/// A payload for a round, which stands on the payload of an earlier view.
#[derive(Clone, Copy, Debug, PartialEq, Eq, PartialOrd, Ord, Hash)]
pub struct Proposal {
    /// The round that it is proposed in.
    pub round: Round,
    /// The view that it stands on, below its own.
    pub parent: View,
    /// What is proposed: the digest of it.
    pub payload: Digest,
}

impl Proposal {
    ghost use Rattle.std.specs.Prelude.{◌≡◌, ◌↔◌, IsTrue};
    ghost use Rattle.simplex_values.specs.Proposal.{is_same_proposal};

    /// The view that it is for.
    pub fn view(&self) -> View
        ensures { result ≡ self.now.round.view }
    {
        self.round.view
    }

    /// The epoch that it is for.
    pub fn epoch(&self) -> Epoch
        ensures { result ≡ self.now.round.epoch }
    {
        self.round.epoch
    }

    /// The round that it is for.
    pub fn round(&self) -> Round
        ensures { result ≡ self.now.round }
    {
        self.round
    }

    /// Whether both are one: `==` as a test that definitions can name.
    pub fn is_same(&self, other: &Proposal) -> bool
        ensures test { result ≡ is_same_proposal self.now other.now }
        ensures same { IsTrue result ↔ (self.now ≡ other.now) }
    {
        self == other
    }
}

/// What a vote or a certificate is about.
#[derive(Clone, Copy, Debug, PartialEq, Eq)]
pub enum Subject {
    /// The proposal is the view's.
    Notarize(Proposal),
    /// The view is given up.
    Nullify(Round),
    /// The proposal is final.
    Finalize(Proposal),
}
