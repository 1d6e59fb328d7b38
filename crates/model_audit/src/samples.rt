//! Cases that come out as the definitions mean them. Each clause is computed.
#![tactic(auto, unfolding(crate::specs::Computed::verdicts))]

ghost use Rattle.std.specs.Prelude.{◌≡◌, [], ◌∷◌, Some, None};
ghost use Rattle.model_run.specs.Samples.{alone, cramped, at, other};
ghost use Rattle.model_run.specs.Entries.{blank_entry};
ghost use Rattle.simplex_transcript.specs.declared.event.Event.TheVariants as events;
ghost use Rattle.model_audit.specs.declared.record.AuditFault.TheVariants as faults;
ghost use Rattle.model_audit.specs.declared.record.Verdict.TheVariants.{Sound, Fault};
ghost use Rattle.model_audit.specs.Record.{record_of, record_entry};
ghost use Rattle.model_audit.specs.Samples.{verdict, tick, ticks};

/// Records of nothing, and of ticks.
pub fn records_come_out()
    ensures nothing { verdict alone [] [] ≡ Sound }
    ensures ticked { verdict alone (ticks 5 ∷ ticks 6
        ∷ []) (record_of (blank_entry 1 None ∷ blank_entry 2 None ∷ [])) ≡ Sound }
{}

/// The smallest faults.
pub fn faults_come_out()
    ensures setup { verdict cramped [] [] ≡ Fault 0 faults.Setup }
    ensures missing { verdict alone (ticks 5 ∷ ticks 6 ∷ []) (tick 1 ∷ []) ≡ Fault 2 faults.Entry }
    ensures surplus { verdict alone [] (tick 1 ∷ []) ≡ Fault 1 faults.Entry }
    ensures number { verdict alone (ticks 5 ∷ []) (tick 2 ∷ []) ≡ Fault 1 faults.Entry }
    ensures name { verdict alone (ticks 5 ∷ []) (record_entry (blank_entry 1 (Some at)) ∷ [])
        ≡ Fault 1 faults.Entry }
    ensures clock { verdict alone (ticks 9223372036854775808 ∷ []) (tick 1 ∷ [])
        ≡ Fault 1 faults.Condition }
    ensures stopped { verdict alone (events.Crash at ∷ []) (record_entry (blank_entry 1 (Some at)) ∷ [])
        ≡ Fault 1 faults.Condition }
    ensures nobody { verdict alone (events.Crash other
        ∷ []) (record_entry (blank_entry 1 (Some other)) ∷ []) ≡ Fault 1 faults.Condition }
{}
