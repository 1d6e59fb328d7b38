//! The conditions of events: for each a list that meets it, and one that does not.
#![tactic(auto, unfolding(crate::specs::Computed::samples))]

ghost use Rattle.std.specs.Prelude.{◌≡◌, ◌++◌, ◌-◌, ◌^◌, [], ◌∷◌, Err};
ghost use Rattle.simplex_values.specs.declared.plan.Channel.TheVariants as channels;
ghost use Rattle.simplex_values.specs.declared.proposal.Subject.TheVariants as subjects;
ghost use Rattle.simplex_messages.specs.declared.step.Outcome.TheVariants as outcomes;
ghost use Rattle.simplex_transcript.specs.declared.event.Event.TheVariants as events;
ghost use Rattle.simplex_transcript.specs.declared.event.StepSource.TheVariants as sources;
ghost use Rattle.simplex_transcript.specs.declared.refusal.RunError.TheVariants as refusals;
ghost use Rattle.simplex_transcript.specs.declared.setup.MemberKind.TheVariants as kinds;
ghost use Rattle.model_run.specs.Run.{Run, run, refused};
ghost use Rattle.model_run.specs.Setting.{at_epoch_genesis};
ghost use Rattle.law_samples.specs.Faulty.{led_by, crashes, shows, told_first, starts_half, notarization_by, certificate_bytes, response_bytes, leader_votes, reported_at, goes_on_from, outcomes_from};
ghost use Rattle.law_samples.specs.Lists.{alone, with_last, node, second, at, starts, steps, hears, approves, first_block};
ghost use Rattle.law_samples.specs.Shown.{outcomes_in};

/// A packet comes to whom it went to, where an engine runs or where there is none.
pub fn deliveries_come_out()
    ensures to_engine { outcomes_in
        (Run (with_last kinds.Silent)
        (shows channels.Vote (node 0 ∷ []) (7 ∷ []) ∷ starts 0 ∷ hears 0 (at 1 0) ∷ []))
        ≡ outcomes.Done ∷ outcomes.Done ∷ outcomes.Done ∷ [] }
    ensures to_none { outcomes_in (Run (with_last kinds.Silent)
        (shows channels.Vote (node 3 ∷ []) (7 ∷ []) ∷ hears 3 (at 1 0) ∷ []))
        ≡ outcomes.Done ∷ outcomes.Done ∷ [] }
    ensures stopped { Run (with_last kinds.Silent) (shows channels.Vote (node 0 ∷ []) (7 ∷ []) ∷ hears 0 (at 1 0) ∷ [])
        ≡ Err (refused refusals.NotRunning 2) }
    ensures to_others { Run (with_last kinds.Silent)
        (shows channels.Vote (node 0 ∷ []) (7 ∷ []) ∷ hears 3 (at 1 0) ∷ [])
        ≡ Err (refused refusals.NoPacket 2) }
    ensures no_place { Run (with_last kinds.Silent) (shows channels.Vote (node 0 ∷ []) (7 ∷ [])
        ∷ starts 0 ∷ hears 0 (at 1 1) ∷ []) ≡ Err (refused refusals.NoPacket 3) }
    ensures no_entry { Run (with_last kinds.Silent) (starts 0 ∷ hears 0 (at 0 0) ∷ [])
        ≡ Err (refused refusals.NoPacket 2) }
{}

/// Faulty members with engines start, and are then stopped as honest ones are.
pub fn faulty_engines_come_out()
    ensures corrupt { outcomes_in (Run (with_last kinds.Corrupt) (starts 3 ∷ crashes 3 ∷ []))
        ≡ outcomes.Done ∷ outcomes.Done ∷ [] }
    ensures unrecovering { outcomes_in (Run (with_last kinds.Unrecovering) (starts 3 ∷ crashes 3 ∷ []))
        ≡ outcomes.Done ∷ outcomes.Done ∷ [] }
    ensures no_crash { Run (with_last kinds.Corrupt) (crashes 3 ∷ [])
        ≡ Err (refused refusals.NotRunning 1) }
    ensures no_step { Run (with_last kinds.Unrecovering) (steps 3 sources.Timer ∷ [])
        ≡ Err (refused refusals.NotRunning 1) }
{}

/// A request is answered to the half that asked it, once it asked, in its kind, and before it starts again.
pub fn answers_come_out()
    ensures own { outcomes_in (Run (led_by kinds.Twin) (starts 1 ∷ starts_half 1 ∷ told_first (node 1) ∷ []))
        ≡ outcomes.Done ∷ outcomes.Done ∷ outcomes.Done ∷ [] }
    ensures of_other_half { Run (led_by kinds.Twin) (starts 1 ∷ starts_half 1 ∷ told_first (second 1) ∷ [])
        ≡ Err (refused refusals.NotPending 3) }
    ensures of_other_kind { Run (led_by kinds.Honest) (starts 1 ∷ approves 1 (at 1 0) ∷ [])
        ≡ Err (refused refusals.NotPending 2) }
    ensures of_old_start { Run (led_by kinds.Honest) (starts 1 ∷ crashes 1 ∷ starts 1 ∷ told_first (node 1) ∷ [])
        ≡ Err (refused refusals.NotPending 4) }
{}

/// Injected bytes go to nodes that exist. A certificate, or a resolver's answer, may hold votes that were sent, and the
/// own ones.
pub fn injections_come_out()
    ensures to_half { outcomes_in (Run (with_last kinds.Twin) (shows channels.Vote (second 3 ∷ []) (7 ∷ []) ∷ []))
        ≡ outcomes.Done ∷ [] }
    ensures to_no_half { Run (with_last kinds.Silent) (shows channels.Vote (second 3 ∷ []) (7 ∷ []) ∷ [])
        ≡ Err (refused refusals.NoMember 1) }
    ensures sent { outcomes_in (Run (with_last kinds.Silent) (leader_votes
        ++ shows channels.Certificate (node 0 ∷ [])
        (certificate_bytes (notarization_by (1 ∷ 3 ∷ []))) ∷ []))
        ≡ outcomes.Done ∷ outcomes.Done ∷ outcomes.Done ∷ outcomes.Done ∷ [] }
    ensures unsent { Run (with_last kinds.Silent) (leader_votes
        ++ shows channels.Certificate (node 0 ∷ [])
        (certificate_bytes (notarization_by (1 ∷ 2 ∷ []))) ∷ [])
        ≡ Err (refused (refusals.Forged 2 (subjects.Notarize (first_block 17))) 4) }
    ensures in_answer { Run (with_last kinds.Silent)
        (leader_votes ++ shows channels.Resolver (node 0 ∷ [])
        (response_bytes (notarization_by (1 ∷ 2 ∷ []))) ∷ [])
        ≡ Err (refused (refusals.Forged 2 (subjects.Notarize (first_block 17))) 4) }
    ensures not_read { outcomes_in (Run (with_last kinds.Silent)
        (leader_votes ++ shows channels.Vote (node 0 ∷ [])
        (certificate_bytes (notarization_by (1 ∷ 2 ∷ []))) ∷ []))
        ≡ outcomes.Done ∷ outcomes.Done ∷ outcomes.Done ∷ outcomes.Done ∷ [] }
{}

/// The clock ends at 2^63 - 1. An engine goes on while two terms are left behind its view, which is 2^64 - 3 here.
pub fn limits_come_out()
    ensures last_tick { outcomes_in (Run (with_last kinds.Silent) (events.Tick (2 ^ 63 - 1) ∷ []))
        ≡ outcomes.Done ∷ [] }
    ensures clock_end { Run (with_last kinds.Silent) (events.Tick (2 ^ 63 - 1) ∷ events.Tick 1 ∷ [])
        ≡ Err (refused refusals.ClockEnd 2) }
    ensures last_view { outcomes_from (run (at_epoch_genesis alone) (reported_at (2 ^ 64 - 4) ∷ [])
        (goes_on_from (2 ^ 64 - 4))) ≡ outcomes.Done ∷ outcomes.Done ∷ outcomes.Done ∷ [] }
    ensures view_end { run (at_epoch_genesis alone) (reported_at (2 ^ 64 - 3) ∷ []) (goes_on_from (2 ^ 64 - 3))
        ≡ Err (refused refusals.ViewEnd 3) }
{}
