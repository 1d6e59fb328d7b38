//! What faulty members make of a vote, and what honest ones make of theirs.
#![tactic(auto, unfolding(crate::specs::Computed::samples))]

ghost use Rattle.std.specs.Prelude.{◌≡◌, ◌++◌, [], ◌∷◌, Err, true, false};
ghost use Rattle.simplex_values.specs.declared.plan.Channel.TheVariants as channels;
ghost use Rattle.simplex_types.specs.declared.cause.BlockCause.TheVariants.{WrongSender, ConflictingVotes, InvalidSignature};
ghost use Rattle.simplex_messages.specs.declared.step.Outcome.TheVariants as outcomes;
ghost use Rattle.simplex_transcript.specs.declared.refusal.RunError.TheVariants as refusals;
ghost use Rattle.simplex_transcript.specs.declared.setup.MemberKind.TheVariants as kinds;
ghost use Rattle.model_run.specs.Run.{Run, refused};
ghost use Rattle.law_samples.specs.Faulty.{led_by, leader_votes, told_to, and_starts_there, heard_again, verified_in};
ghost use Rattle.law_samples.specs.Lists.{with_last, at, and_tell, overheard, overheard_both};
ghost use Rattle.law_samples.specs.Shown.{Append, Sync, Send, Report, Block, Notarize, Finalization, Evidence, Proposed, calls_behind, outcomes_behind, handed_behind, packets_behind, packet};

/// It votes for another payload and then for the one that it heard: that is evidence against it, once.
pub fn conflicting_votes_come_out()
    ensures packets { packets_behind 3 (Run (with_last kinds.Conflicter) overheard)
        ≡ (packet 3 channels.Vote (0 ∷ 1 ∷ 2 ∷ []) ∷ packet 3 channels.Vote (0 ∷ 1 ∷ 2 ∷ [])
        ∷ []) ∷ [] ∷ [] ∷ [] ∷ [] }
    ensures calls { calls_behind 6 (Run (with_last kinds.Conflicter) overheard_both)
        ≡ (Report Notarize ∷ []) ∷ (Report Evidence ∷ Block 3 ConflictingVotes ∷ []) ∷ [] ∷ [] }
{}

/// What it sends then is refused, until the node starts again.
pub fn blocked_members_come_out()
    ensures outcomes { outcomes_behind 6 (Run (with_last kinds.Conflicter) heard_again)
        ≡ outcomes.Done ∷ outcomes.Done ∷ outcomes.Refused ∷ outcomes.Done
        ∷ outcomes.Done ∷ outcomes.Done ∷ outcomes.Done ∷ [] }
    ensures calls { calls_behind 8 (Run (with_last kinds.Conflicter) heard_again)
        ≡ [] ∷ [] ∷ [] ∷ [] ∷ (Report Notarize ∷ []) ∷ [] }
{}

/// It votes in another's name: it is blocked, and nothing is reported.
pub fn false_names_come_out()
    ensures packets { packets_behind 3 (Run (with_last kinds.Impersonator) overheard)
        ≡ (packet 3 channels.Vote (0 ∷ 1 ∷ 2 ∷ []) ∷ []) ∷ [] ∷ [] ∷ [] ∷ [] }
    ensures calls { calls_behind 6 (Run (with_last kinds.Impersonator) overheard)
        ≡ (Block 3 WrongSender ∷ []) ∷ [] }
{}

/// A leader with a corrupt scheme sends its vote as any other does, and the vote does not verify. It tells the proposal.
/// With it there is a quorum of votes: then they are tested, it is blocked, and nothing is notarized.
pub fn corrupt_votes_come_out()
    ensures packets { packets_behind 2 (Run (led_by kinds.Corrupt) leader_votes)
        ≡ (packet 1 channels.Vote (0 ∷ 2 ∷ 3 ∷ []) ∷ []) ∷ [] }
    ensures turned { verified_in (led_by kinds.Corrupt) (Run
        (led_by kinds.Corrupt) leader_votes) ≡ false ∷ [] }
    ensures honest { verified_in (led_by kinds.Honest) (Run
        (led_by kinds.Honest) leader_votes) ≡ true ∷ [] }
    ensures blocked { calls_behind 17 (Run (led_by kinds.Corrupt) (and_tell (at 16 0) (at 11 0)))
        ≡ (Report Notarize ∷ []) ∷ (Report Notarize ∷ []) ∷ []
        ∷ (Report Notarize ∷ Block 1 InvalidSignature ∷ []) ∷ [] }
    ensures handed { handed_behind 17 (Run (led_by kinds.Corrupt) (and_tell (at 16 0) (at 11 0)))
        ≡ [] ∷ (Proposed 1 ∷ []) ∷ [] ∷ [] ∷ [] }
{}

/// A finalization that a twin alone reported is foreign to the others. Reported by an honest member too it is none.
pub fn faulty_reports_come_out()
    ensures reported { calls_behind 21 (Run (with_last kinds.Twin) (told_to 3))
        ≡ (Append 1 Finalization ∷ Sync 1 ∷ Send channels.Certificate
        ∷ Report Finalization ∷ []) ∷ [] }
    ensures foreign { Run (with_last kinds.Twin) (told_to 3 ++ and_starts_there)
        ≡ Err (refused refusals.ForeignFloor 24) }
    ensures own { calls_behind 23 (Run (with_last kinds.Twin) (told_to 1 ++ and_starts_there))
        ≡ (Report Finalization ∷ Append 1 Finalization ∷ Sync 1 ∷ []) ∷ [] }
{}
