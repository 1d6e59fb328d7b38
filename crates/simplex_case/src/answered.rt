//! Which requests were answered.
#![tactic(auto, unfolding(crate::specs::Answered::is_marked))]

ghost use Rattle.std.specs.Prelude.{◌≡◌, ◌<◌, ◌≤◌, ◌+◌, ◌||◌, ◌==◌, [], false, length, OnOk, if◌then◌else◌};
ghost use Rattle.simplex_transcript.specs.declared.node.Ref.{Ref};
ghost use Rattle.model_audit.specs.Running.{is_same_ref};
ghost use Rattle.simplex_case.specs.Answered.{is_marked, AnswersStand};

use simplex_transcript::Ref;
use simplex_values::maps::{add, contains, empty_set};
use std::alloc::{AllocError, Global};
use std::collections::BTreeSet;

/// The places of the answered requests of each event.
#[derive(Drop)]
pub(crate) struct Answered {
    pub(crate) marks: Vec<BTreeSet<u64>>,
}

impl Answered {
    /// Of no event.
    pub(crate) fn new(alloc: Global) -> Answered
        ensures { AnswersStand result.marks.items [] }
    {
        Answered {
            marks: Vec::new(alloc),
        }
    }

    /// Whether the request at this place is marked.
    pub(crate) fn contains(&self, at: Ref) -> bool
        ensures { result ≡ is_marked self.now.marks.items at }
    {
        let Some(before) = at.event.checked_sub(1) else {
            return false;
        };
        match self.marks.get(before as usize) {
            None => false,
            Some(places) => contains(places, at.place),
        }
    }

    /// Marks the request at this place of an event.
    pub(crate) fn mark(&mut self, at: Ref) -> Result<(), AllocError>
        ensures count { OnOk result (length self.new.marks.items ≡ length self.old.marks.items) }
        ensures marked { OnOk result (0 < at.event → at.event ≤ length self.old.marks.items → (other : Ref)
            → is_marked self.new.marks.items other
            ≡ (is_same_ref at other || is_marked self.old.marks.items other)) }
    {
        let Some(before) = at.event.checked_sub(1) else {
            return Ok(());
        };
        let place = before as usize;
        if place < self.marks.len() {
            add(&mut self.marks[place], at.place)?;
        }
        Ok(())
    }

    /// One event more, of whose requests none is marked.
    pub(crate) fn push(&mut self, alloc: Global) -> Result<(), AllocError>
        ensures count { OnOk result (length self.new.marks.items
            ≡ length self.old.marks.items + 1) }
        ensures marked { OnOk result ((at : Ref) → is_marked self.new.marks.items at
            ≡ (if length self.old.marks.items + 1 == at.event then false
            else is_marked self.old.marks.items at)) }
    {
        self.marks.push(empty_set(alloc))?;
        Ok(())
    }
}
