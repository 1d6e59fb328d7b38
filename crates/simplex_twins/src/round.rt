//! A scripted round.
ghost use Rattle.std.specs.Prelude.{◌≡◌, ◌<◌, ◌≤◌, ◌+◌, ◌^◌, None, IfOk, IfErr};
ghost use Rattle.simplex_twins.specs.Script.{scripted};
ghost use Rattle.simplex_twins.specs.Faults.{fault_of};

use crate::error::TwinsError;
use crate::masks::{has, last_mask, raised, reaches};
use simplex_values::Keep;
use std::alloc::{AllocError, Global};
use std::marker::Model;

/// Who leads the views of one term, and which members talk with each half of a twin in them.
///
/// Both halves may talk with one member, and neither may. At least one talks with the leader.
#[derive(Clone, Copy, Debug, PartialEq, Eq)]
pub struct RoundScenario {
    leader: u32,
    primary: u64,
    secondary: u64,
}

impl Model for RoundScenario {
    ghost use Rattle.std.specs.Prelude.{◌<◌, ◌^◌};
    ghost use Rattle.simplex_twins.specs.Script.{ScriptedRound};

    ghost Value = { ScriptedRound };

    ghost view = { λ r. record { leader = r.leader; primary = r.primary; secondary = r.secondary } };

    ghost invariant = { λ r. (r.leader < 2 ^ 32) × (r.primary < 2 ^ 64) × (r.secondary < 2 ^ 64) };

    ghost inverse = { λ r. record { leader = r.leader; primary = r.primary; secondary = r.secondary } };
}

impl RoundScenario {
    /// A round among so many members: bit i of a mask stands for the member at place i.
    ///
    /// An error tells its first fault: that the leader is no member, that a mask has a bit at or past
    /// the number of members, that neither mask has the leader. It takes no memory.
    #[tactic(auto, unfolding(crate::specs::Faults::fault_of))]
    pub fn new(
        leader: u32,
        primary: u64,
        secondary: u64,
        participants: u32,
    ) -> Result<RoundScenario, TwinsError>
        ensures made { IfOk result (λ made. (made ≡ scripted leader primary secondary)
            × (fault_of made participants ≡ None)) }
        ensures fault { IfErr result
            (λ fault. fault_of (scripted leader primary secondary) participants ≡ Some fault) }
    {
        if leader >= participants {
            return Err(TwinsError::BadLeader);
        }
        if reaches(primary, participants) || reaches(secondary, participants) {
            return Err(TwinsError::BadMask);
        }
        let place = leader as usize;
        if !has(primary, place) && !has(secondary, place) {
            return Err(TwinsError::LeaderUnseen);
        }
        Ok(RoundScenario {
            leader,
            primary,
            secondary,
        })
    }

    /// The number of the member that leads.
    pub fn leader(&self) -> u32
        ensures { result ≡ self.now.leader }
    {
        self.leader
    }

    /// The members that talk with the first half.
    pub fn primary(&self) -> u64
        ensures { result ≡ self.now.primary }
    {
        self.primary
    }

    /// The members that talk with the second half.
    pub fn secondary(&self) -> u64
        ensures { result ≡ self.now.secondary }
    {
        self.secondary
    }
}

impl RoundScenario {
    ghost use Rattle.std.specs.Prelude.{[], ◌∷◌, MatchOption, IfSome};
    ghost use Rattle.simplex_twins.specs.Every.{is_seen, rounds_after, rounds_from, IsAmong};

    /// The first of every round among one or more members.
    pub(crate) fn first() -> RoundScenario
        ensures { result ≡ scripted 0 0 1 }
    {
        RoundScenario {
            leader: 0,
            primary: 0,
            secondary: 1,
        }
    }

    /// The next of every round among so many members. Behind the last there is none.
    #[tactic(auto, using(crate::proofs::Laters::good_is_among))]
    pub(crate) fn later(self, participants: u32) -> Option<RoundScenario>
        requires most { participants ≤ 64 }
        requires good { fault_of self participants ≡ None }
        ensures next { MatchOption result (rounds_after participants self ≡ [])
            (λ next. rounds_after participants self ≡ next ∷ rounds_after participants next) }
        ensures good { IfSome result (λ next. fault_of next participants ≡ None) }
    {
        let next = self.behind(participants)?;
        Some(next.seen(participants))
    }

    /// The round whose numbers come next, whether a half talks with its leader or not.
    fn behind(self, participants: u32) -> Option<RoundScenario>
        requires most { participants ≤ 64 }
        requires among { IsAmong participants self }
        ensures next { MatchOption result (rounds_after participants self ≡ [])
            (λ next. rounds_after participants self ≡ rounds_from participants next) }
        ensures among { IfSome result (IsAmong participants) }
    {
        let last = last_mask(participants);
        if self.secondary < last {
            return Some(RoundScenario {
                secondary: self.secondary + 1,
                ..self
            });
        }
        if self.primary < last {
            return Some(RoundScenario {
                primary: self.primary + 1,
                secondary: 0,
                ..self
            });
        }
        if self.leader + 1 < participants {
            return Some(RoundScenario {
                leader: self.leader + 1,
                primary: 0,
                secondary: 0,
            });
        }
        None
    }

    /// This round, or where no half talks with its leader the first behind it that is not so: its second
    /// mask is the next that has the leader.
    fn seen(self, participants: u32) -> RoundScenario
        requires most { participants ≤ 64 }
        requires among { IsAmong participants self }
        ensures first { rounds_from participants self ≡ result ∷ rounds_after participants result }
        ensures good { fault_of result participants ≡ None }
    {
        if self.is_seen() {
            return self;
        }
        RoundScenario {
            secondary: raised(self.secondary, self.leader),
            ..self
        }
    }

    /// Whether a half talks with the leader.
    fn is_seen(self) -> bool
        ensures { result ≡ is_seen self }
    {
        let place = self.leader as usize;
        has(self.primary, place) || has(self.secondary, place)
    }
}

impl Keep for RoundScenario {
    fn keep(&self, _alloc: Global) -> Result<RoundScenario, AllocError> {
        Ok(*self)
    }
}
