//! When each member was seen last.
#![tactic(auto, unfolding(crate::specs::Activity::last_seen, crate::specs::Rounds::found))]

ghost use Rattle.std.specs.Prelude.{◌≡◌, ◌==◌, ℕ, None, Some, if◌then◌else◌, IfOk, OnOk};
ghost use Rattle.simplex_batcher.specs.Activity.{last_seen};

use simplex_types::Participant;
use std::alloc::{AllocError, Global};
use std::collections::BTreeMap;

/// When each member was seen last. [seen-by-member]
#[derive(Drop)]
pub(crate) struct Seen {
    /// By member.
    members: Vec<Option<u64>>,
    /// Of numbers that no member has.
    others: BTreeMap<u32, u64>,
}

impl Seen {
    /// None of so many members was seen.
    pub(crate) fn new(alloc: Global, members: u32) -> Result<Seen, AllocError>
        ensures { IfOk result (λ seen. (q : ℕ) → last_seen seen q ≡ None) }
    {
        Ok(Seen {
            members: vec![in alloc; None; members as usize]?,
            others: BTreeMap::new(alloc),
        })
    }

    /// When the member was seen last.
    pub(crate) fn last(&self, member: Participant) -> Option<u64>
        ensures { result ≡ last_seen self.now member }
    {
        let place = member.0 as usize;
        if place < self.members.len() {
            return self.members[place];
        }
        self.others.get(&member.0).copied()
    }

    /// The member is seen now.
    pub(crate) fn see(&mut self, member: Participant, now: u64) -> Result<(), AllocError>
        ensures { OnOk result ((q : ℕ)
            → last_seen self.new q ≡ (if q == member then Some now else last_seen self.old q)) }
    {
        let place = member.0 as usize;
        if place < self.members.len() {
            self.members[place] = Some(now);
            return Ok(());
        }
        self.others.insert(member.0, now)?;
        Ok(())
    }
}
