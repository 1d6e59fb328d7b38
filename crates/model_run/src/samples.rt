//! Runs that come out as the rules mean them. Each clause is computed.
#![tactic(auto, unfolding(crate::specs::Computed::run))]

ghost use Rattle.std.specs.Prelude.{◌≡◌, ◌^◌, [], ◌∷◌, Ok, Err, true, false, map};
ghost use Rattle.simplex_messages.specs.declared.step.Outcome.TheVariants as outcomes;
ghost use Rattle.simplex_transcript.specs.declared.field.Field.TheVariants as fields;
ghost use Rattle.simplex_transcript.specs.declared.event.Event.TheVariants as events;
ghost use Rattle.simplex_transcript.specs.declared.refusal.RunError.TheVariants as refusals;
ghost use Rattle.simplex_transcript.specs.declared.setup.MemberKind.TheVariants as kinds;
ghost use Rattle.model_run.specs.Run.{Run, refused};
ghost use Rattle.model_run.specs.Wrapped.{wrapped_recovers};
ghost use Rattle.model_run.specs.Samples.{alone, cramped, nobody, at, other, half, starts, steps, with_last, with_two, last, last_half, crashes, answers_first, hears_first, injects, outcomes_in, packets_in};

/// The smallest refusals.
pub fn refusals_come_out()
    ensures nothing { Run alone [] ≡ Ok [] }
    ensures not_running { Run alone (steps at ∷ []) ≡ Err (refused refusals.NotRunning 1) }
    ensures not_stopped { Run alone (starts at ∷ starts at ∷ [])
        ≡ Err (refused refusals.NotStopped 2) }
    ensures no_member { Run alone (starts other ∷ []) ≡ Err (refused refusals.NoMember 1) }
    ensures no_half { Run alone (starts half ∷ []) ≡ Err (refused refusals.NoMember 1) }
    ensures not_pending { Run alone (starts at ∷ answers_first at ∷ answers_first at ∷ [])
        ≡ Err (refused refusals.NotPending 3) }
    ensures not_faulty { Run alone (injects 0 at [] ∷ []) ≡ Err (refused refusals.NotFaulty 1) }
    ensures clock_end { Run alone (events.Tick (2 ^ 63) ∷ []) ≡ Err (refused refusals.ClockEnd 1) }
    ensures no_mailbox { Run cramped [] ≡ Err (refused (refusals.BadSetup fields.Mailbox) 0) }
{}

/// The refusals of setups, and those with faulty members.
pub fn faulty_refusals_come_out()
    ensures nobody { Run nobody [] ≡ Err (refused (refusals.BadSetup fields.Members) 0) }
    ensures too_many { Run with_two [] ≡ Err (refused (refusals.BadSetup fields.Faulty) 0) }
    ensures no_half { Run (with_last kinds.Silent) (crashes last_half ∷ [])
        ≡ Err (refused refusals.NoMember 1) }
    ensures always_runs { Run (with_last kinds.Silent) (starts last ∷ [])
        ≡ Err (refused refusals.NotStopped 1) }
    ensures asks_nothing { Run (with_last kinds.Silent) (answers_first last ∷ [])
        ≡ Err (refused refusals.NotPending 1) }
    ensures no_packet { Run (with_last kinds.Silent) (hears_first last ∷ [])
        ≡ Err (refused refusals.NoPacket 1) }
    ensures not_faulty { Run (with_last kinds.Silent) (injects 0 last [] ∷ [])
        ≡ Err (refused refusals.NotFaulty 1) }
    ensures no_sender { Run (with_last kinds.Silent) (injects 4 last [] ∷ [])
        ≡ Err (refused refusals.NoMember 1) }
{}

/// Faulty members that run no engine, the one that recovers no certificate, and the halves of a twin.
pub fn faulty_members_come_out()
    ensures idle { outcomes_in (Run (with_last kinds.Silent) (steps last ∷ crashes last ∷ []))
        ≡ outcomes.Idle ∷ outcomes.Idle ∷ [] }
    ensures injected { packets_in (Run (with_last kinds.Silent) (injects 3 last (7 ∷ []) ∷ hears_first last ∷ []))
        ≡ 1 ∷ 0 ∷ [] }
    ensures recovers { map wrapped_recovers (kinds.Honest ∷ kinds.Corrupt ∷ kinds.Unrecovering ∷ kinds.Twin ∷ [])
        ≡ true ∷ true ∷ false ∷ true ∷ [] }
    ensures halves { outcomes_in (Run (with_last kinds.Twin) (starts last_half ∷ starts last ∷ []))
        ≡ outcomes.Done ∷ outcomes.Done ∷ [] }
{}
