//! The record of a run is found sound.
ghost use Rattle.law_run.specs.Fitting.{IsTyped};
ghost use Rattle.law_run.specs.Sayings.{Each};
ghost use Rattle.model_audit.specs.Audit.{audited};
ghost use Rattle.model_audit.specs.Record.{record_of};
ghost use Rattle.model_audit.specs.declared.record.Verdict.TheVariants.{Sound};
ghost use Rattle.model_run.specs.Run.{OfRun};
ghost use Rattle.std.specs.Prelude.{◌≡◌};

/// Where events make a transcript whose values keep to their types, no fault is found in its record.
pub fn records_of_runs_are_sound()
    ensures { OfRun (λ setting events entries. Each IsTyped entries
        → audited setting events (record_of entries) ≡ Sound) }
{}
