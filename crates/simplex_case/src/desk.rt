//! What is kept of a node.
#![tactic(auto, unfolding(crate::specs::Desk::drops_since, simplex_values::specs::Maps::found))]

ghost use Rattle.std.specs.Prelude.{◌≡◌, ◌+◌, ◌==◌, ◌∷◌, ℕ, [], List, true, length, OnOk, IfOk, Some, if◌then◌else◌};
ghost use Rattle.std.specs.List.{list_any};
ghost use Rattle.simplex_values.specs.Maps.{found};
ghost use Rattle.simplex_transcript.specs.declared.node.Node.{Node};
ghost use Rattle.simplex_records.specs.Requests.{number_in};
ghost use Rattle.model_run.specs.Life.{Noted, is_of};
ghost use Rattle.model_run.specs.Requests as requests;
ghost use Rattle.model_audit.specs.Rebuilt.{rebuilt};
ghost use Rattle.model_audit.specs.Running as running;
ghost use Rattle.simplex_case.specs.Desk.{DeskStands, drops_since, runs_behind};

use model_audit::AuditEntry;
use simplex_messages::Outcome;
use simplex_records::Requests;
use simplex_transcript::{Event, Ref};
use simplex_values::maps::{empty_map, put};
use std::alloc::{AllocError, Global};
use std::collections::BTreeMap;

/// The requests of a node since its last start, whether it runs, and which requests it dropped.
#[derive(Drop)]
pub(crate) struct Desk {
    pub(crate) requests: Requests,
    pub(crate) runs: bool,
    /// By the number of a request, the last event that dropped one of this number.
    pub(crate) dropped: BTreeMap<u64, u64>,
}

impl Desk {
    /// Of a node of which there is no event.
    pub(crate) fn new(alloc: Global) -> Desk
        ensures { (node : Node) → DeskStands result [] node }
    {
        Desk {
            requests: Requests::new(alloc),
            runs: false,
            dropped: empty_map(alloc),
        }
    }

    /// The number of the request at this place.
    pub(crate) fn number(&self, at: Ref) -> Option<u64>
        ensures { result ≡ number_in self.now.requests at }
    {
        self.requests.number(at)
    }

    /// Whether a request of this number was dropped in this event or since.
    pub(crate) fn drops_since(&self, event: u64, number: u64) -> bool
        ensures { result ≡ drops_since self.now event number }
    {
        match self.dropped.get(&number) {
            None => false,
            Some(last) => event <= *last,
        }
    }

    /// Takes in an event of the node, which has this number.
    pub(crate) fn take(
        &mut self,
        alloc: Global,
        number: u64,
        event: &Event,
        entry: &AuditEntry,
    ) -> Result<(), AllocError>
        ensures { OnOk result ((before : List Noted) (node : Node) → number ≡ length before + 1 → is_of node event.now ≡ true
            → DeskStands self.old before node
            → DeskStands self.new (rebuilt event.now entry.now ∷ before) node) }
    {
        let asked = entry.asked.len() as u64;
        self.requests.enter(alloc, is_start(event), number, asked)?;
        self.runs = runs_behind(self.runs, event, entry.outcome);
        put_all(&mut self.dropped, entry.dropped.as_slice(), number)?;
        Ok(())
    }
}

fn is_start(event: &Event) -> bool
    ensures { result ≡ requests.is_start event.now }
{
    matches!(event, Event::Start { .. })
}

fn is_crash(event: &Event) -> bool
    ensures { result ≡ running.is_crash event.now }
{
    matches!(event, Event::Crash { .. })
}

fn is_broken(outcome: Outcome) -> bool
    ensures { result ≡ running.is_broken outcome }
{
    matches!(outcome, Outcome::Cut | Outcome::Journal)
}

// Whether the node runs behind an event of its own.
fn runs_behind(runs: bool, event: &Event, outcome: Outcome) -> bool
    ensures { result ≡ runs_behind runs event.now outcome }
{
    if is_start(event) || is_crash(event) || is_broken(outcome) {
        is_start(event) && matches!(outcome, Outcome::Done)
    } else {
        runs
    }
}

// Makes this the value at each of the numbers.
fn put_all(map: &mut BTreeMap<u64, u64>, numbers: &[u64], value: u64) -> Result<(), AllocError>
    ensures { OnOk result ((q : ℕ)
        → found map.new q
        ≡ (if list_any (λ n. n == q) numbers.now then Some value else found map.old q)) }
{
    for number in numbers {
        put(map, *number, value)?;
    }
    Ok(())
}
