//! A node's journal, by the calls of a record.
ghost use Rattle.std.specs.Prelude.{◌≡◌, [], List, ℕ, true, OnOk, IfOk, is_ok};
ghost use Rattle.std.specs.List.{filter_map, list_any};
ghost use Rattle.simplex_wire.specs.declared.artifact.Artifact.{Artifact};
ghost use Rattle.simplex_journal.specs.Journal.{pruned_first, crashed, replayed};
ghost use Rattle.simplex_journal.specs.Contents.{kept};
ghost use Rattle.simplex_messages.specs.declared.call.Call.{Call};
ghost use Rattle.model_steps.specs.Performed.{after_calls};
ghost use Rattle.simplex_wire.specs.Format.{whole};
ghost use Rattle.simplex_wire.specs.Message.{vote};
ghost use Rattle.model_audit.specs.Order as order;
ghost use Rattle.model_audit.specs.Rebuilt.{call_for};
ghost use Rattle.simplex_stored.specs.Before.{BeforeStands, made, may_make, is_nullify};

use crate::before::Before;
use crate::journal::{append, prune, prune_first, replay, sync};
use crate::votes::keep_nullify;
use model_audit::AuditCall;
use simplex_journal::{Journal, MemoryJournal};
use simplex_types::{Artifact, Channel, View, Vote};
use std::alloc::{AllocError, Global};
use std::marker::Model;

/// What the journal of a node holds. None of its calls fails but for want of memory.
#[derive(Drop)]
pub struct Stored {
    journal: MemoryJournal,
}

impl Model for Stored {
    ghost use Rattle.std.specs.Prelude.{◌≡◌, List};
    ghost use Rattle.simplex_journal.specs.Journal.{Section};

    ghost Value = { List Section };

    ghost view = { λ stored. stored.journal.sections };

    ghost invariant = { λ stored. stored.journal.order.call ≡ 0 };
}

impl Stored {
    /// Nothing.
    pub fn new(alloc: Global) -> Stored
        ensures { result ≡ [] }
    {
        Stored {
            journal: MemoryJournal::new(alloc),
        }
    }

    /// Takes in the calls of a step.
    pub fn take_calls(&mut self, alloc: Global, calls: &[AuditCall]) -> Result<(), AllocError>
        ensures { OnOk result (self.new ≡ after_calls (filter_map call_for calls.now) self.old) }
    {
        for call in calls {
            self.take_call(alloc, call)?;
        }
        Ok(())
    }

    // Takes in one call.
    fn take_call(&mut self, alloc: Global, call: &AuditCall) -> Result<(), AllocError>
        ensures { OnOk result (self.new ≡ after_calls (made call.now) self.old) }
    {
        match call {
            AuditCall::Append(section, artifact) => {
                append(&mut self.journal, alloc, *section, artifact)?;
            }
            AuditCall::Sync(section) => sync(&mut self.journal, *section),
            AuditCall::Prune(least) => prune(&mut self.journal, *least),
            _ => {}
        }
        Ok(())
    }

    /// What a prune leaves that fails: it drops so many of the first sections below the least.
    pub fn prune_first(&mut self, count: u64, least: u64)
        ensures { self.new ≡ pruned_first count least self.old }
    {
        prune_first(&mut self.journal, count, least);
    }

    /// What a stop leaves, which keeps so many of the pending records of each section.
    pub fn crash(&mut self, keep: u64)
        ensures { self.new ≡ crashed keep self.old }
    {
        self.journal.crash(keep);
    }

    /// Copies of all records.
    pub fn replay(&mut self, alloc: Global) -> Result<Vec<Artifact>, AllocError>
        ensures records { IfOk result (λ records. records.items ≡ replayed self.old) }
        ensures stays { self.new ≡ self.old }
    {
        replay(&mut self.journal, alloc)
    }

    /// Whether a step that makes these calls stores its votes before it sends them.
    pub fn stores_first(&self, alloc: Global, calls: &[AuditCall]) -> Result<bool, AllocError>
        ensures { IfOk result (λ stored. stored
            ≡ order.are_in_order (kept self.now) [] (filter_map call_for calls.now)) }
    {
        let mut before = Before::new(alloc);
        for call in calls {
            if !self.may_call(alloc, &before, call)? {
                return Ok(false);
            }
            before.take(alloc, call)?;
        }
        Ok(true)
    }

    // Whether the call may be made behind these.
    fn may_call(&self, alloc: Global, before: &Before, call: &AuditCall) -> Result<bool, AllocError>
        ensures { IfOk result (λ may. (calls : List Call) → BeforeStands before.now calls
            → may ≡ may_make (kept self.now) calls call.now) }
    {
        match call {
            AuditCall::Send(Channel::Vote, bytes) => self.may_send(alloc, before, bytes.as_slice()),
            _ => Ok(true),
        }
    }

    // Whether a vote of these bytes may be sent.
    fn may_send(&self, alloc: Global, before: &Before, bytes: &[u8]) -> Result<bool, AllocError>
        ensures { IfOk result (λ may. (calls : List Call) → BeforeStands before.now calls
            → may ≡ order.may_send (kept self.now) calls (whole vote bytes.now)) }
    {
        let Ok(vote) = Vote::decode(bytes) else {
            return Ok(true);
        };
        if before.is_stored(bytes) {
            return Ok(true);
        }
        match vote {
            Vote::Nullify(nullify) => self.holds(alloc, bytes, nullify.round.view),
            _ => Ok(false),
        }
    }

    // Whether the record of this nullify, of this view, is synced.
    fn holds(&self, alloc: Global, bytes: &[u8], view: View) -> Result<bool, AllocError>
        ensures { IfOk result (λ held. held ≡ list_any (is_nullify bytes.now) (kept self.now)) }
    {
        keep_nullify(alloc, bytes, view, self.journal.sections())
    }
}
