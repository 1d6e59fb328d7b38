//! Runs are safe.
ghost use Rattle.model_run.specs.Run as runs;
ghost use Rattle.law_run.specs.Sayings.{Each};
ghost use Rattle.law_run.specs.Fitting.{IsTyped};
ghost use Rattle.law_run.specs.Safe.{RunsSafely};

/// Where setup and events make a transcript, whose values keep to their types, its run is safe: of every setup, with
/// members of all kinds.
pub fn runs_are_safe()
    ensures { runs.OfRun (λ setting events entries. Each IsTyped entries
        → RunsSafely setting events) }
{}
