//! Whom a crew lets in no more.
#![tactic(auto, unfolding(crate::specs::Stands::CrewStands))]

ghost use Rattle.std.specs.Prelude.{◌≡◌, ◌||◌, ◌++◌, ℕ, Bool, List, map, reverse, OnOk, IfOk};
ghost use Rattle.simplex_messages.specs.Step.{blocked_by_calls};
ghost use Rattle.model_resolver.specs.Asks.{holds_member};
ghost use Rattle.model_resolver.specs.Resolver.{Made, Given, Blocked};
ghost use Rattle.simplex_resolver.specs.Stands as resolving;
ghost use Rattle.simplex_engine.specs.Parts.{shutting, telling};
ghost use Rattle.simplex_engine.specs.Stands.{WorksAs, TellsAs};

use crate::crew::Crew;
use simplex_fetch::is_among;
use simplex_journal::Journal;
use simplex_messages::Call;
use simplex_types::elector::Elector;
use simplex_types::{Participant, Scheme};
use std::alloc::{AllocError, Global};
use std::collections::BTreeSet;

impl<S: Scheme + Drop, L: Elector + Drop, J: Journal + Drop> Crew<S, L, J> {
    /// Whether a call blocked the member since the start. [may-block-itself]
    pub(crate) fn is_blocked(&self, member: Participant) -> bool
        ensures { (told : Bool)
            → TellsAs told self.now (λ parts. holds_member parts.blocked member) result }
    {
        is_among(&self.blocked, &member)
    }

    /// The members that these calls of the resolver block are let in no more. [blocked-from-the-next-event]
    pub(crate) fn note_blocks(&mut self, calls: &[Call]) -> Result<(), AllocError>
        ensures works { OnOk result ((told : Bool)
            → WorksAs told self.old self.new (shutting calls.now)) }
        ensures voter { OnOk result (self.new.voter ≡ self.old.voter) }
    {
        let members = blocked_by(self.alloc, calls)?;
        let listed = members.as_slice();
        note_each(&mut self.blocked, listed)?;
        Ok(())
    }

    /// The members that these calls of the batcher or the voter block are let in no more, and the resolver is told.
    pub(crate) fn tell_blocks(&mut self, calls: &[Call]) -> Result<(), AllocError>
        ensures works { OnOk result ((told : Bool)
            → WorksAs told self.old self.new (telling calls.now)) }
        ensures voter { OnOk result (self.new.voter ≡ self.old.voter) }
    {
        let members = blocked_by(self.alloc, calls)?;
        let listed = members.as_slice();
        note_each(&mut self.blocked, listed)?;
        tell_each(&mut self.resolver, listed)?;
        Ok(())
    }
}

/// The members that these calls block, in their order.
fn blocked_by(alloc: Global, calls: &[Call]) -> Result<Vec<Participant>, AllocError>
    ensures { IfOk result (λ members. members.items ≡ blocked_by_calls calls.now) }
{
    let mut members = Vec::new(alloc);
    for call in calls {
        if let Call::Block(member, _) = call {
            members.push(*member)?;
        }
    }
    Ok(members)
}

/// These members are among the blocked.
fn note_each(blocked: &mut BTreeSet<u32>, members: &[Participant]) -> Result<(), AllocError>
    ensures { OnOk result ((q : ℕ) → holds_member blocked.new.keys q
        ≡ (holds_member members.now q || holds_member blocked.old.keys q)) }
{
    for member in members {
        blocked.insert(member.0)?;
    }
    Ok(())
}

/// The resolver asks these members no more.
fn tell_each<S: Scheme + Drop>(
    resolver: &mut simplex_resolver::Actor<S>,
    members: &[Participant],
) -> Result<(), AllocError>
    ensures { OnOk result ((made : Made) (past : List Given) → resolving.StandsFor resolver.old made past
        → resolving.StandsFor resolver.new made
        (reverse (map (λ member. Blocked member) members.now) ++ past)) }
{
    for member in members {
        resolver.block(*member)?;
    }
    Ok(())
}
