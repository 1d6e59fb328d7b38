//! A leader that is stopped inside a step, among four members of whom one is faulty.
#![tactic(auto, unfolding(crate::specs::Computed::samples))]

ghost use Rattle.std.specs.Prelude.{◌≡◌, [], ◌∷◌, ◌++◌, Err};
ghost use Rattle.simplex_values.specs.declared.plan.Channel.TheVariants as channels;
ghost use Rattle.simplex_values.specs.declared.proposal.Subject.TheVariants as subjects;
ghost use Rattle.simplex_messages.specs.declared.step.Stop.TheVariants as stops;
ghost use Rattle.simplex_transcript.specs.declared.refusal.RunError.TheVariants as refusals;
ghost use Rattle.simplex_transcript.specs.declared.setup.MemberKind.TheVariants as kinds;
ghost use Rattle.model_run.specs.Run.{Run, refused};
ghost use Rattle.law_samples.specs.Lists.{with_last, stopped_at, other_proposal, shown_vote, sent_and_shown, first_block};
ghost use Rattle.law_samples.specs.Shown.{Append, Sync, Send, Report, Relay, Propose, Notarize, calls_in, calls_behind, asked_in, packets_behind, packet};

/// Of a vote that was not synced nothing is left: the leader proposes anew, and the vote that it never sent is forged.
pub fn lost_votes_come_out()
    ensures calls { calls_in (Run (with_last kinds.Silent) (stopped_at (stops.Cut 3 0) ++ other_proposal))
        ≡ [] ∷ [] ∷ (Relay ∷ Append 1 Notarize ∷ []) ∷ [] ∷ []
        ∷ (Relay ∷ Append 1 Notarize ∷ Sync 1 ∷ Send channels.Vote ∷ []) ∷ [] }
    ensures asked { asked_in (Run (with_last kinds.Silent) (stopped_at (stops.Cut 3 0)))
        ≡ (Propose 1 ∷ []) ∷ [] ∷ [] ∷ (Propose 1 ∷ []) ∷ [] }
    ensures forged { Run (with_last kinds.Silent) (stopped_at (stops.Cut 3 0) ++ other_proposal ++ shown_vote 1 ∷ [])
        ≡ Err (refused (refusals.Forged 1 (subjects.Notarize (first_block 17))) 7) }
{}

/// A vote that was kept is reported at the next start, sent to nobody, and nothing else is proposed for its view.
pub fn kept_votes_come_out()
    ensures kept { calls_behind 3 (Run (with_last kinds.Silent) (stopped_at (stops.Cut 3 1)))
        ≡ (Report Notarize ∷ []) ∷ [] }
    ensures asks_nothing { asked_in (Run (with_last kinds.Silent) (stopped_at (stops.Cut 3 1)))
        ≡ (Propose 1 ∷ []) ∷ [] ∷ [] ∷ [] ∷ [] }
    ensures synced { calls_behind 3 (Run (with_last kinds.Silent) (stopped_at (stops.Cut 4 0)))
        ≡ (Report Notarize ∷ []) ∷ [] }
    ensures unsent { Run (with_last kinds.Silent) (stopped_at (stops.Cut 4 0) ++ shown_vote 1 ∷ [])
        ≡ Err (refused (refusals.Forged 1 (subjects.Notarize (first_block 17))) 5) }
{}

/// A vote that was sent may be shown by anybody. Nobody else's vote makes it one.
pub fn shown_votes_come_out()
    ensures sent { packets_behind 3 (Run (with_last kinds.Silent) (sent_and_shown 1))
        ≡ (packet 3 channels.Vote (0 ∷ []) ∷ []) ∷ [] }
    ensures of_another { Run (with_last kinds.Silent) (sent_and_shown 0)
        ≡ Err (refused (refusals.Forged 0 (subjects.Notarize (first_block 17))) 4) }
{}
