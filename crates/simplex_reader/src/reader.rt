//! The reader of one node.
ghost use Rattle.std.specs.Prelude.{◌≡◌, ◌∷◌, [], List, true, nat_lt, IsNone, OnOk, IfOk};
ghost use Rattle.simplex_values.specs.declared.answer.Answer.{Answer};
ghost use Rattle.simplex_transcript.specs.declared.event.Event.TheVariants as events;
ghost use Rattle.simplex_transcript.specs.declared.node.Node.{Node};
ghost use Rattle.simplex_transcript.specs.declared.node.Ref.{Ref};
ghost use Rattle.model_run.specs.Life.{Noted};
ghost use Rattle.model_run.specs.Setting.{Setting};
ghost use Rattle.model_run.specs.Setups as setups;
ghost use Rattle.model_audit.specs.Audit as audit;
ghost use Rattle.model_audit.specs.Conditions as conditions;
ghost use Rattle.model_audit.specs.Rebuilt.{rebuilt, rebuilt_entry};
ghost use Rattle.model_audit.specs.Running.{runs_at};
ghost use Rattle.simplex_reader.specs.Follows.{Follows};

use crate::sections::take_calls;
use crate::votes::take_votes;
use model_audit::AuditEntry;
use simplex_known::{Known, Rules};
use simplex_messages::Stop;
use simplex_stored::Stored;
use simplex_transcript::Setup;
use simplex_values::{Epoch, Lookahead, TermLength, View, ViewDelta};
use std::alloc::{AllocError, Global};

/// What one node knows and what its journal holds, read from the entries of a record.
///
/// What is known of a node that does not run is of no use to anybody: its next start makes it anew.
#[derive(Drop)]
pub struct Reader {
    pub(crate) rules: Rules,
    pub(crate) known: Known,
    pub(crate) stored: Stored,
}

impl Reader {
    /// Before any entry.
    pub fn new(alloc: Global, setup: &Setup) -> Reader
        requires good { IsNone (setups.first_bad setup.now) }
        ensures { (setting : Setting) (node : Node) → setting.setup ≡ setup.now
            → Follows result setting [] node }
    {
        let rules = rules_of(setup);
        Reader {
            rules,
            known: Known::new(alloc, &rules),
            stored: Stored::new(alloc),
        }
    }

    /// Whether the node, which runs, is too near the greatest view.
    pub fn is_at_end(&self) -> bool
        ensures { (setting : Setting) (before : List Noted) (node : Node) → Follows self.now setting before node → runs_at before node ≡ true
            → result ≡ conditions.is_at_end setting before node }
    {
        let term = self.rules.lookahead.length.get();
        let last = u64::MAX
            .saturating_sub(term)
            .saturating_sub(term)
            .saturating_sub(self.rules.lookahead.views);
        is_beyond(self.known.current(), last)
    }

    /// Whether the entry's votes were stored before they were sent.
    pub fn stores_first(&self, alloc: Global, entry: &AuditEntry) -> Result<bool, AllocError>
        ensures { IfOk result (λ stored. (setting : Setting) (before : List Noted) (node : Node) → Follows self.now setting before node
            → stored ≡ audit.stores_first setting before (rebuilt_entry entry.now) node) }
    {
        self.stored.stores_first(alloc, entry.calls.as_slice())
    }

    /// Takes in the entry of a packet or of an answer that came to the node. In the record of a run it calls no journal, but whoever
    /// wrote the record may have put a call there, and the journal would hold it.
    pub fn take_input(&mut self, alloc: Global, entry: &AuditEntry) -> Result<(), AllocError>
        ensures packet { OnOk result ((setting : Setting) (before : List Noted) (node : Node) (at : Ref) → Follows self.old setting before node
            → Follows self.new setting (rebuilt (events.Deliver node at) entry.now ∷ before) node) }
        ensures answer { OnOk result ((setting : Setting) (before : List Noted) (node : Node) (at : Ref) (answer : Answer)
            → Follows self.old setting before node
            → Follows self.new setting (rebuilt (events.Answer node at answer) entry.now ∷ before) node) }
    {
        take_votes(&mut self.known, entry.calls.as_slice())?;
        take_calls(&mut self.stored, alloc, entry, Stop::None, None)
    }

    /// Takes in the entry of a crash.
    pub fn take_crash(&mut self, alloc: Global, entry: &AuditEntry) -> Result<(), AllocError>
        ensures { OnOk result ((setting : Setting) (before : List Noted) (node : Node) → Follows self.old setting before node
            → Follows self.new setting (rebuilt (events.Crash node) entry.now ∷ before) node) }
    {
        take_calls(&mut self.stored, alloc, entry, Stop::None, None)?;
        self.stored.crash(0);
        Ok(())
    }
}

// Whether the view is greater than the last.
fn is_beyond(view: View, last: u64) -> bool
    ensures { result ≡ nat_lt last view }
{
    last < view.0
}

// What a node of such a run is made with.
#[tactic(auto, using(crate::proofs::Good::good))]
fn rules_of(setup: &Setup) -> Rules
    requires good { IsNone (setups.first_bad setup.now) }
    ensures epoch { result.epoch ≡ setup.now.epoch }
    ensures term { result.lookahead.length ≡ setup.now.term }
    ensures lookahead { result.lookahead.views ≡ setup.now.lookahead }
    ensures retention { result.retention ≡ setup.now.retention }
{
    Rules {
        epoch: Epoch(setup.epoch),
        lookahead: Lookahead {
            length: TermLength::new(setup.term).unwrap(),
            views: setup.lookahead,
        },
        retention: ViewDelta(setup.retention),
    }
}
