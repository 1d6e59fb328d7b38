//! Who leads a round.
ghost use Rattle.std.specs.Prelude.{◌≡◌, ◌<◌, ℕ};
ghost use Rattle.simplex_values.specs.declared.terms.Terms.{Terms};
ghost use Rattle.simplex_values.specs.declared.round.Round.{Round};

use simplex_values::{Participant, Round, Terms};

/// What an elector is built from.
pub trait Config {
    type Elector: Elector;

    // whether an elector can be built for so many members
    ghost can_build: { Self → ℕ → Type 0 };

    // the leader of a round among so many members
    ghost leader: { Self → ℕ → Round → ℕ };

    // how views are cut into terms
    ghost cuts: { Self → Terms };

    /// The elector for `n` members.
    fn build(self, n: u32) -> Self::Elector
        requires some { 0 < n }
        requires can { can_build self n }
        ensures members { Self.Elector.Elector.built_for result ≡ n }
        ensures elects { Self.Elector.Elector.elects result ≡ leader self n }
        ensures terms { Self.Elector.Elector.cuts result ≡ cuts self };
}

/// Elects the leader of each round.
pub trait Elector {
    // the number of members that it was built for
    ghost built_for: { Self → ℕ };

    // the leader of a round
    ghost elects: { Self → Round → ℕ };

    // how views are cut into terms
    ghost cuts: { Self → Terms };

    /// How views are cut into terms.
    fn terms(&self) -> Terms
        ensures { result ≡ cuts self.now };

    /// The leader of the round.
    fn elect(&self, round: Round) -> Participant
        ensures { result ≡ elects self.now round };

    // ---- laws

    // the leader is a member
    ghost leader_is_below: { (e : Self) (round : Round) → elects e round < built_for e };
}
