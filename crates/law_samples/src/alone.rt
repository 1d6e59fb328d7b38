//! One member alone.
#![tactic(auto, unfolding(crate::specs::Computed::samples))]

ghost use Rattle.std.specs.Prelude.{◌≡◌, [], ◌∷◌, Err};
ghost use Rattle.simplex_values.specs.declared.plan.Channel.TheVariants as channels;
ghost use Rattle.simplex_messages.specs.declared.step.Outcome.TheVariants as outcomes;
ghost use Rattle.simplex_transcript.specs.declared.event.StepSource.TheVariants as sources;
ghost use Rattle.simplex_transcript.specs.declared.refusal.RunError.TheVariants as refusals;
ghost use Rattle.model_run.specs.Run.{Run, refused};
ghost use Rattle.law_samples.specs.Lists.{alone, finalizes, gives_up, fails_to_sync, restarts_at, finalization_of};
ghost use Rattle.law_samples.specs.Shown.{Append, Sync, Send, Report, Relay, Propose, Certify, Notarize, Notarization, Certification, Nullify, Finalize, Finalization, calls_in, calls_behind, asked_in, outcomes_behind};

/// It proposes, notarizes, certifies and finalizes: what is stored is synced before it is sent.
pub fn one_member_finalizes()
    ensures calls { calls_in (Run alone finalizes)
        ≡ []
        ∷ []
        ∷ (Relay ∷ Append 1 Notarize ∷ Sync 1 ∷ Send channels.Vote ∷ [])
        ∷ []
        ∷ (Report Notarize ∷ [])
        ∷ (Append 1 Notarization ∷ Sync 1 ∷ Send channels.Certificate ∷ Report Notarization ∷ [])
        ∷ []
        ∷ (Append 1 Certification ∷ Append 1 Finalize ∷ Sync 1 ∷ Report Certification
        ∷ Send channels.Vote ∷ [])
        ∷ (Report Finalize ∷ [])
        ∷ (Append 1 Finalization ∷ Sync 1 ∷ Send channels.Certificate ∷ Report Finalization ∷ [])
        ∷ [] }
    ensures asked { asked_in (Run alone finalizes)
        ≡ (Propose 1 ∷ []) ∷ [] ∷ [] ∷ [] ∷ [] ∷ (Certify 1 ∷ []) ∷ []
        ∷ (Propose 2 ∷ []) ∷ [] ∷ [] ∷ [] }
{}

/// Then its deadline comes: it stores and sends a nullify, and half a second later sends it again with the finalization.
pub fn one_member_gives_up()
    ensures outcomes { outcomes_behind 10 (Run alone gives_up)
        ≡ outcomes.Done ∷ outcomes.Idle ∷ outcomes.Done ∷ outcomes.Done
        ∷ outcomes.Done ∷ outcomes.Idle ∷ outcomes.Done ∷ outcomes.Done ∷ [] }
    ensures calls { calls_behind 10 (Run alone gives_up)
        ≡ []
        ∷ []
        ∷ []
        ∷ (Append 2 Nullify ∷ Sync 2 ∷ Send channels.Vote ∷ [])
        ∷ []
        ∷ []
        ∷ []
        ∷ (Send channels.Vote ∷ Send channels.Certificate ∷ [])
        ∷ [] }
{}

/// A sync that fails stops it, and it starts again with what was kept.
pub fn failed_syncs_come_out()
    ensures stops { outcomes_behind 7 (Run alone (fails_to_sync 3))
        ≡ outcomes.Journal ∷ outcomes.Done ∷ [] }
    ensures calls { calls_behind 7 (Run alone (fails_to_sync 3))
        ≡ (Append 1 Certification ∷ Append 1 Finalize ∷ [])
        ∷ (Report Notarize ∷ Report Notarization ∷ Report Certification ∷ [])
        ∷ [] }
    ensures at_once { calls_behind 7 (Run alone (fails_to_sync 1))
        ≡ [] ∷ (Report Notarize ∷ Report Notarization ∷ []) ∷ [] }
{}

/// It starts again at what it finalized, and at nothing that it did not report.
pub fn floors_come_out()
    ensures own { calls_behind 10 (Run alone (restarts_at (finalization_of 17)))
        ≡ [] ∷ (Report Finalization ∷ []) ∷ [] }
    ensures foreign { Run alone (restarts_at (finalization_of 51))
        ≡ Err (refused refusals.ForeignFloor 12) }
{}
