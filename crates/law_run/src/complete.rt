//! Which setups and events have a run.
ghost use Rattle.std.specs.Prelude.{◌↔◌, List, IsOk};
ghost use Rattle.simplex_transcript.specs.declared.event.Event.{Event};
ghost use Rattle.model_run.specs.Setting.{Setting};
ghost use Rattle.model_run.specs.Entries.{entry_of};
ghost use Rattle.model_run.specs.Life.{Noted};
ghost use Rattle.model_run.specs.Run as runs;
ghost use Rattle.law_run.specs.Conditions.{Meets};
ghost use Rattle.law_run.specs.Complete.{HasRun, IsPossible};

/// An event is not refused exactly where it meets its conditions.
pub fn conditions_are_exact()
    ensures { (setting : Setting) (before : List Noted) (event : Event)
        → IsOk (entry_of setting before event) ↔ Meets setting before event }
{}

/// A valid setup, and events that each meet their conditions, have a run.
pub fn possible_events_run()
    ensures { (setting : Setting) (events : List Event) → IsPossible setting events
        → HasRun setting events }
{}

/// What has a run is a valid setup, and events that each meet their conditions.
pub fn runs_are_possible()
    ensures { runs.OfRun (λ setting events entries. IsPossible setting events) }
{}
