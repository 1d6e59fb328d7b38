//! What a start makes of its floor and of what the journal held.
ghost use Rattle.std.specs.Prelude.{◌≡◌, ◌≤◌, ◌∷◌, ℕ, List, OnOk, IfOk};
ghost use Rattle.std.specs.List.{list_any};
ghost use Rattle.simplex_transcript.specs.declared.event.Event.TheVariants as events;
ghost use Rattle.simplex_transcript.specs.declared.node.Node.{Node};
ghost use Rattle.model_rules.specs.Known.{Made};
ghost use Rattle.model_steps.specs.Desk.{Doing};
ghost use Rattle.model_steps.specs.Voter as voter;
ghost use Rattle.model_run.specs.Life.{Noted};
ghost use Rattle.model_run.specs.Members.{floor_of};
ghost use Rattle.model_run.specs.Setting.{Setting};
ghost use Rattle.model_audit.specs.Rebuilt.{rebuilt};
ghost use Rattle.simplex_known.specs.Knows.{Knows};
ghost use Rattle.simplex_reader.specs.Failing.{ArePrunedBy, prune_above};
ghost use Rattle.simplex_reader.specs.Follows.{Follows};
ghost use Rattle.simplex_reader.specs.Starting.{Stands, Replays, ReplaysOne, Starts, keeping_calls};

use crate::reader::Reader;
use crate::sections::{RuledPrune, behind_reading, take_calls};
use crate::votes::take_votes;
use model_audit::AuditEntry;
use simplex_known::{Known, Rules};
use simplex_messages::Stop;
use simplex_values::View;
use simplex_wire::{Artifact, Finalization};
use std::alloc::{AllocError, Global};

impl Reader {
    /// Takes in the entry of a start at the floor: at genesis, where there is none.
    pub fn take_start(
        &mut self,
        alloc: Global,
        floor: &Option<Finalization>,
        stop: Stop,
        entry: &AuditEntry,
    ) -> Result<(), AllocError>
        ensures { OnOk result ((setting : Setting) (before : List Noted) (node : Node) → Follows self.old setting before node
            → Follows self.new setting
            (rebuilt (events.Start node floor.now stop) entry.now ∷ before) node) }
    {
        let records = self.stored.replay(alloc)?;
        let mut known = known_at_start(alloc, &self.rules, floor, records.as_slice())?;
        let prune = prune_at_start(&known, floor, records.as_slice());
        take_votes(&mut known, entry.calls.as_slice())?;
        self.known = known;
        take_calls(&mut self.stored, alloc, entry, behind_reading(stop), prune)
    }
}

// What is known behind a start.
fn known_at_start(
    alloc: Global,
    rules: &Rules,
    floor: &Option<Finalization>,
    records: &[Artifact],
) -> Result<Known, AllocError>
    ensures { IfOk result (λ known. Starts known rules.now floor.now records.now) }
{
    let mut known = Known::new(alloc, rules);
    stand_on(&mut known, floor)?;
    replay_above(&mut known, view_of(floor), records)?;
    Ok(known)
}

// Stands on the floor.
fn stand_on(known: &mut Known, floor: &Option<Finalization>) -> Result<(), AllocError>
    ensures { OnOk result (Stands known.old known.new floor.now) }
{
    match floor {
        None => Ok(()),
        Some(finalization) => known.stand_on(finalization),
    }
}

// The view of the floor.
fn view_of(floor: &Option<Finalization>) -> View
    ensures { (genesis : List ℕ) → result ≡ voter.floor_view (floor_of genesis floor.now) }
{
    match floor {
        None => View(0),
        Some(finalization) => finalization.view(),
    }
}

// The records above the floor's view are known again.
fn replay_above(known: &mut Known, floor: View, records: &[Artifact]) -> Result<(), AllocError>
    ensures { OnOk result (Replays known.old known.new floor records.now) }
{
    for artifact in records {
        replay_one(known, floor, artifact)?;
    }
    Ok(())
}

// The record is known again, where it is above the floor's view.
fn replay_one(known: &mut Known, floor: View, artifact: &Artifact) -> Result<(), AllocError>
    ensures { OnOk result (ReplaysOne known.old known.new floor artifact.now) }
{
    if artifact.view() <= floor {
        return Ok(());
    }
    known.replay(artifact)
}

// The prune that the rules make in a start, behind the calls that keep the floor.
fn prune_at_start(
    known: &Known,
    floor: &Option<Finalization>,
    records: &[Artifact],
) -> Option<RuledPrune>
    ensures { (made : Made) (genesis : List ℕ) (now : ℕ) → (let doing = voter.started made now (floor_of genesis floor.now) records.now in
        Knows known.now made doing.desk.known → ArePrunedBy doing.calls result) }
{
    let least = known.least_active();
    prune_above(keeping_calls(floor, records) + 1, least)
}

// The prune of this number, where the least active view is above 0.
fn prune_above(number: u64, least: View) -> Option<RuledPrune>
    ensures { result ≡ prune_above number least }
{
    if 0 < least.0 {
        Some(RuledPrune {
            number,
            least: least.0,
        })
    } else {
        None
    }
}

// How many calls of the journal keep the floor: where the journal has no finalization of its view or a later one, it is appended
// and synced.
fn keeping_calls(floor: &Option<Finalization>, records: &[Artifact]) -> u64
    ensures calls { result ≡ keeping_calls floor.now records.now }
    ensures few { result ≤ 2 }
{
    match floor {
        None => 0,
        Some(finalization) => {
            if is_final_from(finalization.view(), records) {
                0
            } else {
                2
            }
        }
    }
}

// Whether a record is a finalization of the view or a later one.
fn is_final_from(view: View, records: &[Artifact]) -> bool
    ensures { result ≡ list_any (voter.is_final_from view) records.now }
{
    records.iter().any(|record| is_final(view, record))
}

// Whether the record is.
fn is_final(view: View, record: &Artifact) -> bool
    ensures { result ≡ voter.is_final_from view record.now }
{
    match record {
        Artifact::Finalization(finalization) => view <= finalization.view(),
        Artifact::Notarize(_)
        | Artifact::Notarization(_)
        | Artifact::Certification(_, _)
        | Artifact::Nullify(_)
        | Artifact::Nullification(_)
        | Artifact::Finalize(_) => false,
    }
}
