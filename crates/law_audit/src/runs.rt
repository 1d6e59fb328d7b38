//! What is read of the record of a run.
ghost use Rattle.law_audit.specs.Recording.{all_recorded, runs_in, IsTakenSo, IsReadAs};
ghost use Rattle.law_requests.specs.Steps.{IsVoters};
ghost use Rattle.law_requests.specs.Turns.{WasAnswered};
ghost use Rattle.law_run.specs.Histories.{IsRun, AreFloors};
ghost use Rattle.model_audit.specs.Reading.{read};
ghost use Rattle.model_audit.specs.Conditions.{is_pending, is_allowed};
ghost use Rattle.model_audit.specs.Fitting.{fits};
ghost use Rattle.model_audit.specs.Record.{record_entry};
ghost use Rattle.model_audit.specs.Running.{runs_at};
ghost use Rattle.model_audit.specs.Rebuilt.{rebuilt_entry};
ghost use Rattle.model_audit.specs.VotesDue.{sends_due};
ghost use Rattle.model_audit.specs.Audit.{if_honest, stores_first};
ghost use Rattle.law_run.specs.Fitting.{IsTyped};
ghost use Rattle.law_run.specs.Complete.{node_named};
ghost use Rattle.model_run.specs.Entries.{entry_of, took_of};
ghost use Rattle.model_run.specs.Kinds.{runs_engine};
ghost use Rattle.model_run.specs.Life.{Noted, Running, life_in};
ghost use Rattle.model_run.specs.Setting.{Setting};
ghost use Rattle.model_steps.specs.Desk.{Doing};
ghost use Rattle.model_steps.specs.Engine.{EngineMade, Did, voter_in, voter_past};
ghost use Rattle.model_steps.specs.Voter.{stepped};
ghost use Rattle.model_steps.specs.VoterLife.{place_of};
ghost use Rattle.simplex_messages.specs.declared.step.Stop.{Stop};
ghost use Rattle.simplex_transcript.specs.declared.event.Event.{Event};
ghost use Rattle.simplex_transcript.specs.declared.event.StepSource.{StepSource};
ghost use Rattle.simplex_transcript.specs.declared.node.Node.{Node};
ghost use Rattle.std.specs.Prelude.{ℕ, ◌≡◌, ◌<◌, ◌∷◌, List, Some, true, Ok};

/// In a run whether the engine of a node runs is read from the record.
pub fn runs_are_read()
    ensures { (setting : Setting) (noted : List Noted) (node : Node)
        → IsRun setting noted → runs_engine setting.setup node.member ≡ true
        → runs_at (all_recorded noted) node ≡ runs_in (life_in setting noted node) }
{}

/// In a run what a step of the voter took is read from its entry: it is what the step takes, and fits the step's source.
pub fn takings_are_read()
    ensures { (setting : Setting) (before : List Noted) (node : Node) (made : EngineMade) (past : List Did)
        (source : StepSource) (now : ℕ) (stop : Stop) (did : Did)
        (v : IsVoters made past source now stop did) (d : Doing)
        → IsRun setting before → runs_engine setting.setup node.member ≡ true
        → life_in setting before node ≡ Running made past
        → stepped (voter_in made past).rules now
        (place_of (voter_in made past) (voter_past past)).standing v.input
        ≡ Some d
        → IsTakenSo before node (place_of (voter_in made past) (voter_past past)).standing source
        (took_of before node made past did) v.input }
{}

/// In a run a request that is answered is pending by the record: asked since the last start, neither dropped nor answered, and
/// such that it takes the answer.
pub fn answers_are_pending()
    ensures { (setting : Setting) (before : List Noted) (node : Node)
        (noted : Noted) (w : WasAnswered setting before node noted) → IsRun setting before
        → runs_engine setting.setup node.member ≡ true
        → is_pending (all_recorded before) node w.ref w.answer ≡ true }
{}

/// An event that a run takes is allowed by the record of what was before it.
pub fn events_are_allowed()
    ensures { (setting : Setting) (before : List Noted) (event : Event) (noted : Noted)
        → 0 < setting.setup.term → IsRun setting before → AreFloors before
        → entry_of setting before event ≡ Ok noted
        → is_allowed setting (all_recorded before) event ≡ true }
{}

/// The record of an entry of a run fits its event.
pub fn entries_fit_their_events()
    ensures { (setting : Setting) (before : List Noted) (event : Event) (noted : Noted)
        → IsRun setting before → entry_of setting before event ≡ Ok noted
        → fits (all_recorded before) event (record_entry noted.entry) ≡ true }
{}

/// In a run what is read of the record of a node is where its engine stands: of an engine that runs the clock of its start, its
/// journal, and what votes rest on; of one that is stopped what its journal holds.
pub fn engines_are_tracked()
    ensures { (setting : Setting) (noted : List Noted) (node : Node)
        → 0 < setting.setup.term → IsRun setting noted → AreFloors noted
        → runs_engine setting.setup node.member ≡ true
        → IsReadAs setting node (life_in setting noted node)
        (read setting (all_recorded noted) node) }
{}

/// In the record of a run each whole step of an honest member's voter sends the votes that are due and no other.
pub fn votes_of_runs_are_due()
    ensures { (setting : Setting) (before : List Noted) (event : Event) (noted : Noted)
        → 0 < setting.setup.term → IsRun setting before → AreFloors before
        → entry_of setting before event ≡ Ok noted
        → if_honest setting (node_named event)
        (λ node. sends_due setting (all_recorded before)
        (rebuilt_entry (record_entry noted.entry)) node event) ≡ true }
{}

/// In the record of a run whose values keep to their types, the votes of an honest member were stored before they were sent.
pub fn votes_of_runs_are_stored()
    ensures { (setting : Setting) (before : List Noted) (event : Event) (noted : Noted)
        → 0 < setting.setup.term → IsRun setting before
        → AreFloors (noted ∷ before) → IsTyped noted.entry
        → entry_of setting before event ≡ Ok noted
        → if_honest setting (node_named event)
        (stores_first setting (all_recorded before)
        (rebuilt_entry (record_entry noted.entry))) ≡ true }
{}
