//! What a record is that is found sound.
ghost use Rattle.law_agreement.specs.Conflict.{Conflict};
ghost use Rattle.law_run.specs.Safe.{AgreeAll};
ghost use Rattle.model_audit.specs.Audit.{audited};
ghost use Rattle.model_audit.specs.Conflicts.{conflicts};
ghost use Rattle.model_audit.specs.Holding.{IsSound, all_rebuilt};
ghost use Rattle.model_audit.specs.declared.record.AuditEntry.{AuditEntry};
ghost use Rattle.model_audit.specs.declared.record.Verdict.TheVariants.{Sound};
ghost use Rattle.model_run.specs.Setting.{Setting};
ghost use Rattle.simplex_transcript.specs.declared.event.Event.{Event};
ghost use Rattle.simplex_values.specs.declared.proposal.Subject.{Subject};
ghost use Rattle.std.specs.Prelude.{ℕ, ◌≡◌, List, ◌↔◌, IsTrue};

/// The test of a conflict is the word for it.
pub fn conflicts_are_tested()
    ensures { (length : ℕ) (s t : Subject) → IsTrue (conflicts length s t) ↔ Conflict length s t }
{}

/// A record is found sound exactly where its setup keeps its limits and no entry has a fault; and no two certificates of
/// such a record conflict.
pub fn sound_records_hold()
    ensures exactly { (setting : Setting) (events : List Event) (entries : List AuditEntry)
        → audited setting events entries ≡ Sound
        ↔ IsSound setting events entries }
    ensures agrees { (setting : Setting) (events : List Event) (entries : List AuditEntry)
        → IsSound setting events entries
        → AgreeAll setting.setup (all_rebuilt events entries) }
{}
