//! Members that answer as they are meant to. Each clause is computed.
#![tactic(auto, unfolding(crate::specs::Computed::faults))]

ghost use Rattle.std.specs.Prelude.{◌≡◌, ◌==◌, ◌+◌, ◌-◌, ◌^◌, [], ◌∷◌, None, Some, true, false, map, slice_index};
ghost use Rattle.simplex_values.specs.declared.proposal.Subject.TheVariants.{Notarize, Nullify, Finalize};
ghost use Rattle.simplex_values.specs.declared.plan.Channel.TheVariants.{Vote, Certificate, Resolver};
ghost use Rattle.simplex_values.specs.declared.plan.Recipients.TheVariants.{One, Some as Members};
ghost use Rattle.model_faults.specs.declared.behavior.Behavior.TheVariants.{Honest, CorruptSignature, RecoveryFailure};
ghost use Rattle.model_faults.specs.Words.{words_of, member_seed, list_seed};
ghost use Rattle.model_faults.specs.Conflicter.{conflicter_sends, drawn_payload, with_payload};
ghost use Rattle.model_faults.specs.Equivocator.{equivocator_sends, answered, equivocator_drew, to_members};
ghost use Rattle.model_faults.specs.Impersonator.{impersonator_sends};
ghost use Rattle.model_faults.specs.Nuller.{nuller_sends};
ghost use Rattle.model_faults.specs.NullifyOnly.{nullify_only_sends};
ghost use Rattle.model_faults.specs.Outdated.{outdated_sends};
ghost use Rattle.model_faults.specs.Reconfigurer.{reconfigurer_sends, reconfigurer_subjects};
ghost use Rattle.model_faults.specs.Wrapped.{turned, with_turned, corrupted, wrapped_attests, wrapped_recovers};
ghost use Rattle.model_faults.specs.Heard.{to_all, vote_on};
ghost use Rattle.model_faults.specs.Samples.{signs, signed, round, block, says, shows, votes, counting, leader, on_view_2, notarized, finalized};

/// Random words of a member and of a list of events, as the generator's own crate gives them.
pub fn words_come_out()
    ensures first { words_of (list_seed 7) 0 ≡ 5472644512911394057 }
    ensures second { words_of (list_seed 7) 1 ≡ 14719639211661165398 }
    ensures member { words_of (member_seed 1 3) 0 ≡ 17499926347243469136 }
{}

/// What is sent on votes.
pub fn votes_are_answered()
    ensures conflicter { conflicter_sends (signs 3) counting
        (says (Notarize (block 2 1 17)) ∷ says (Nullify (round 0 2)) ∷ [])
        (says (Finalize (block 2 1 17)))
        ≡ votes 3 (Finalize (with_payload (block 2 1 17) (drawn_payload counting 4)))
        ∷ votes 3 (Finalize (block 2 1 17)) ∷ [] }
    ensures nuller { nuller_sends (signs 3) (says (Notarize (block 2 1 17)))
        ≡ votes 3 (Nullify (round 0 2)) ∷ votes 3 (Finalize (block 2 1 17)) ∷ [] }
    ensures nuller_waits { nuller_sends (signs 3) (says (Finalize (block 2 1 17))) ≡ [] }
    ensures nullify_only { nullify_only_sends (signs 3) (says (Notarize (block 2 1 17)))
        ≡ votes 3 (Nullify (round 0 2)) ∷ [] }
    ensures impersonator { impersonator_sends (signs 3) (says (Notarize (block 2 1 17)))
        ≡ to_all (vote_on (Notarize (block 2 1 17)) (record (signed 3) { signer = 0 })) ∷ [] }
    ensures first_member { impersonator_sends (signs 0) (says (Notarize (block 2 1 17)))
        ≡ to_all (vote_on (Notarize (block 2 1 17)) (record (signed 0) { signer = 1 })) ∷ [] }
    ensures outdated { outdated_sends (signs 3) 1 (says (Notarize (block 1 0 16)) ∷ []) (says (Finalize (block 2 1 17)))
        ≡ votes 3 (Finalize (block 1 0 16)) ∷ [] }
    ensures nothing_old { outdated_sends (signs 3) 1 [] (says (Finalize (block 2 1 17))) ≡ [] }
    ensures itself { outdated_sends (signs 3) 0 [] (says (Notarize (block 2 1 17)))
        ≡ votes 3 (Notarize (block 2 1 17)) ∷ [] }
    ensures last_of_view { outdated_sends (signs 3) 5 (says (Notarize (block 0 0 18)) ∷ says (Notarize (block 0 0 16))
        ∷ []) (says (Notarize (block 2 1 17))) ≡ votes 3 (Notarize (block 0 0 18)) ∷ [] }
    ensures reconfigurer { reconfigurer_sends (signs 3) (says (Nullify (round 4 2)))
        ≡ votes 3 (Nullify (round 5 2)) ∷ [] }
    ensures proposal_too { reconfigurer_sends (signs 3) (says (Finalize (block 2 1 17)))
        ≡ votes 3 (Finalize (record (block 2 1 17) { round = round 1 2 })) ∷ [] }
    ensures last_epoch { reconfigurer_subjects (Some (Nullify (round (2 ^ 64 - 1) 2))) ≡ [] }
    // Nothing comes of another channel, nor of bytes that spell no vote.
    ensures other_channel { reconfigurer_sends (signs 3)
        (record (says (Nullify (round 4 2))) { channel = Certificate }) ≡ [] }
    ensures no_vote { reconfigurer_sends (signs 3) (record {
      channel = Vote;
      bytes = 1 ∷ 0 ∷ [];
    }) ≡ [] }
    // A vote that the scheme does not sign is not sent.
    ensures unsigned { nuller_sends (λ subject. None) (says (Notarize (block 2 1 17))) ≡ [] }
{}

/// A leader of the next view answers the first certificate of a view, and takes three words for it.
pub fn certificates_are_answered()
    ensures first { answered leader [] (shows (notarized (block 2 1 17))) ≡ Some (block 2 1 17) }
    ensures again { answered leader (shows (notarized (block 2 1 17))
        ∷ []) (shows (finalized (block 2 1 17))) ≡ None }
    ensures words { equivocator_drew leader (shows (notarized (block 3 2 17))
        ∷ shows (finalized (block 2 1 17)) ∷ shows (notarized (block 2 1 17)) ∷ []) ≡ 6 }
    ensures sends { equivocator_sends leader [] (shows (notarized (block 2 1 17)))
        ≡ to_members (One 0) (vote_on (Notarize (on_view_2
        (165 ∷ 2 ∷ 93 ∷ 36 ∷ 162 ∷ 60 ∷ 238 ∷ 78 ∷ 214 ∷ 142 ∷ 180 ∷ 219 ∷ 228 ∷ 174 ∷ 225
        ∷ 52 ∷ 115 ∷ 73 ∷ 39 ∷ 215 ∷ 255 ∷ 58 ∷ 236 ∷ 225 ∷ 253 ∷ 136 ∷ 174 ∷ 8 ∷ 73 ∷ 50 ∷ 114
        ∷ 27 ∷ []))) (signed 3))
        ∷ to_members (Members (1 ∷ 2 ∷ [])) (vote_on (Notarize (on_view_2
        (86 ∷ 184 ∷ 197 ∷ 19 ∷ 9 ∷ 64 ∷ 221 ∷ 222 ∷ 126 ∷ 26 ∷ 208 ∷ 235 ∷ 210
        ∷ 216 ∷ 16 ∷ 193 ∷ 232
        ∷ 102 ∷ 78 ∷ 144 ∷ 249 ∷ 138 ∷ 88 ∷ 194 ∷ 95 ∷ 173 ∷ 129 ∷ 9 ∷ 134 ∷ 111 ∷ 202 ∷ 158
        ∷ []))) (signed 3)) ∷ [] }
    ensures another_victim { map (λ sent. sent.recipients) (equivocator_sends (record leader {
      words = λ place. place + 5;
    }) [] (shows (finalized (block 2 1 17)))) ≡ One 2 ∷ Members (0 ∷ 1 ∷ []) ∷ [] }
    ensures other_channel { equivocator_sends leader []
        (record (shows (notarized (block 2 1 17))) { channel = Resolver }) ≡ [] }
    ensures alone { equivocator_sends (record leader { members = 1 }) [] (shows
        (notarized (block 2 1 17))) ≡ [] }
    ensures led_by_another { equivocator_sends (record leader { leader = λ round. 2 }) []
        (shows (notarized (block 2 1 17))) ≡ [] }
{}

/// The bit that is turned is counted from the lowest of the first byte. It is the one that the digest of signer
/// and signature names, or the first behind it that makes the signature fail.
pub fn bits_are_turned()
    ensures lowest { turned 0 (0 ∷ 0 ∷ []) ≡ 1 ∷ 0 ∷ [] }
    ensures highest { turned 15 (0 ∷ 255 ∷ []) ≡ 0 ∷ 127 ∷ [] }
    ensures first { corrupted (λ a. false) (signed 3) ≡ Some (with_turned (signed 3) 162) }
    ensures next { corrupted (λ a. slice_index a.signature 20 == 7) (signed 3)
        ≡ Some (with_turned (signed 3) 163) }
    ensures around { corrupted (λ a. slice_index a.signature 0 == 3) (signed 3)
        ≡ Some (with_turned (signed 3) 0) }
    ensures nothing_fails { corrupted (λ a. true) (signed 3) ≡ None }
{}

/// A wrapped scheme fails in one way alone.
pub fn wrapped_schemes_fail()
    ensures honest { wrapped_attests Honest (signs 3)
        (λ subject a. false) (Nullify (round 0 1)) ≡ Some (signed 3) }
    ensures corrupt { wrapped_attests CorruptSignature (signs 3) (λ subject a. false) (Nullify (round 0 1))
        ≡ Some (with_turned (signed 3) 162) }
    ensures unrecovering { wrapped_attests RecoveryFailure (signs 3) (λ subject a. false) (Nullify (round 0 1))
        ≡ Some (signed 3) }
    ensures unsigned { wrapped_attests CorruptSignature (λ subject. None)
        (λ subject a. false) (Nullify (round 0 1)) ≡ None }
    ensures recovers { map (λ behavior. wrapped_recovers behavior true)
        (Honest ∷ CorruptSignature ∷ RecoveryFailure ∷ []) ≡ true ∷ true ∷ false ∷ [] }
    ensures recovers_none { map (λ behavior. wrapped_recovers behavior false)
        (Honest ∷ CorruptSignature ∷ RecoveryFailure ∷ []) ≡ false ∷ false ∷ false ∷ [] }
{}
