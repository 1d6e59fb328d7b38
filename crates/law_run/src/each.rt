//! How long a run is.
ghost use Rattle.model_run.specs.Run as runs;
ghost use Rattle.law_run.specs.Complete.{IsOneEach};

/// A run has one entry for each event.
pub fn runs_have_one_entry_each()
    ensures { runs.OfRun (λ setting events entries. IsOneEach entries events) }
{}
