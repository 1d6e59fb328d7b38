//! Cases that come out as the rules mean them. Each clause is computed.
#![tactic(auto, unfolding(crate::specs::Computed::rules))]

ghost use Rattle.std.specs.Prelude.{◌≡◌, [], ◌∷◌, true, false, is_some, reverse, map};
ghost use Rattle.simplex_wire.specs.declared.vote.Vote.TheVariants as votes;
ghost use Rattle.simplex_wire.specs.declared.certificate.Certificate.TheVariants as certificates;
ghost use Rattle.simplex_values.specs.declared.timeout.TimeoutReason.TheVariants.{LeaderTimeout, CertificationTimeout, StallTimeout, Inactivity, InvalidProposal, FailedCertification};
ghost use Rattle.model_rules.specs.declared.request.ProposalRequest.TheVariants.{Prepare, Propose};
ghost use Rattle.model_rules.specs.declared.request.ProposalState.TheVariants.{Preparing, Waiting};
ghost use Rattle.model_rules.specs.declared.request.Verify.TheVariants.{Ready, Resolve, Wait};
ghost use Rattle.simplex_values.specs.declared.ask.Kind.TheVariants as kind;
ghost use Rattle.model_rules.specs.declared.request.Asked.TheVariants as asks;
ghost use Rattle.simplex_wire.specs.declared.artifact.Artifact.TheVariants as artifacts;
ghost use Rattle.model_rules.specs.declared.effect.Effect.TheVariants as effect;
ghost use Rattle.simplex_types.specs.declared.floor.Floor.TheVariants.{Genesis, Finalized};
ghost use Rattle.simplex_values.specs.Terms.{next_of, term_index, term_start, term_end, next_term_start, admission_limit, admits};
ghost use Rattle.simplex_values.specs.Covers.{covers};
ghost use Rattle.model_rules.specs.Known.{finalization_of};
ghost use Rattle.model_rules.specs.Views.{current_of};
ghost use Rattle.model_rules.specs.Slot.{slot_of};
ghost use Rattle.model_rules.specs.Ancestry.{has_ancestry, greatest_parent, gap_between};
ghost use Rattle.model_rules.specs.Votes.{is_checked, is_votable, notarize_at, finalize_at};
ghost use Rattle.model_rules.specs.Deadline.{deadline_of};
ghost use Rattle.model_rules.specs.Requests.{proposal_request, verify_request, certify_requests, parent_fetches};
ghost use Rattle.model_rules.specs.Pending.{reconciled, iterated};
ghost use Rattle.model_rules.specs.Repair.{Updated, Replayed, gaps_of, produced, effects_of};
ghost use Rattle.model_rules.specs.Repair as repair;
ghost use Rattle.model_rules.specs.Best.{best_certificate};
ghost use Rattle.model_rules.specs.Calls.{SetFloor, Replay, SetProposal, Proposed, Verified, VerificationFailed, Certified, AddNotarization, AddNullification, AddFinalization, TriggerTimeout, ConstructNotarize, ConstructNullify, ConstructFinalize, TryPropose, TryVerify, ReleaseProposalRequest, construct_nullify_answer, add_notarization_answer, replay_answer, unsent_finalization};
ghost use Rattle.model_rules.specs.Samples.{example, follower, own, block, notarized, finalized, nullified, context, after, desk, having_proposed, having_certified};

/// A nullify in a term keeps later views of it from being finalized, until finality has passed it.
pub fn gate_comes_out()
    ensures closed { let made = example 5 0 in
        finalize_at made (after made
        (AddNotarization (notarized (block 1 0 1)) 1 ∷ Certified 1 true 1
        ∷ AddNotarization (notarized (block 2 1 2)) 2 ∷ Certified 2 true 2
        ∷ ConstructNullify 3 LeaderTimeout 3
        ∷ AddNotarization (notarized (block 3 2 3)) 4 ∷ Certified 3 true 4
        ∷ AddNotarization (notarized (block 4 3 4)) 5 ∷ Certified 4 true 5 ∷ [])) 4 ≡ None }
    ensures open { let made = example 5 0 in
        finalize_at made (after made
        (AddNotarization (notarized (block 1 0 1)) 1 ∷ Certified 1 true 1
        ∷ AddNotarization (notarized (block 2 1 2)) 2 ∷ Certified 2 true 2
        ∷ ConstructNullify 3 LeaderTimeout 3
        ∷ AddNotarization (notarized (block 3 2 3)) 4 ∷ Certified 3 true 4
        ∷ AddNotarization (notarized (block 4 3 4)) 5 ∷ Certified 4 true 5 ∷ ConstructFinalize 4
        ∷ AddFinalization (finalized (block 3 2 3)) 6
        ∷ AddNotarization (notarized (block 5 4 5)) 7 ∷ Certified 5 true 7 ∷ [])) 5
        ≡ Some (record { proposal = block 5 4 5; attestation = own }) }
    // A nullify is a repeat the second time, and the next term's views are free of it.
    ensures first { let made = example 5 0 in construct_nullify_answer made [] 1
        ≡ Some (false, record { round = record { epoch = 0; view = 1 }; attestation = own }) }
    ensures again { let made = example 5 0 in
        construct_nullify_answer made (after made (ConstructNullify 1 LeaderTimeout 3 ∷ [])) 1
        ≡ Some (true, record { round = record { epoch = 0; view = 1 }; attestation = own }) }
{}

/// One member: propose, notarize, the notarization, its verdict, finalize, and the next proposal.
pub fn path_comes_out()
    ensures asks { let made = example 1 0 in proposal_request made []
        ≡ Some (Propose (context 1 0 7)) }
    ensures once { let made = example 1 0 in proposal_request made (after made
        (TryPropose ∷ [])) ≡ None }
    ensures votes { let made = example 1 0 in
        notarize_at made (after made (TryPropose ∷ Proposed (context 1 0 7) (9 ∷ []) ∷ [])) 1
        ≡ Some (record { proposal = block 1 0 9; attestation = own }) }
    ensures votes_once { let made = example 1 0 in
        notarize_at made (after made (having_proposed [])) 1 ≡ None }
    ensures certifies { let made = example 1 0 in
        certify_requests (after made
        (having_proposed (AddNotarization (notarized (block 1 0 9)) 5 ∷ [])))
        ≡ block 1 0 9 ∷ [] }
    ensures finalizes { let made = example 1 0 in
        finalize_at made (after made having_certified) 1
        ≡ Some (record { proposal = block 1 0 9; attestation = own }) }
    ensures moves { let made = example 1 0 in
        current_of made (after made having_certified) ≡ 2 }
    ensures asks_again { let made = example 1 0 in
        proposal_request made (after made having_certified) ≡ Some (Propose (context 2 1 9)) }
    ensures waits { let made = example 1 0 in
        deadline_of made (after made having_certified) ≡ (1006, LeaderTimeout) }
    ensures shows { let made = example 1 0 in
        best_certificate made (after made having_certified)
        ≡ Some (certificates.Notarization (notarized (block 1 0 9))) }
{}

/// Deadlines, with ties: the expiry before the view's own moment, and this before the term's.
pub fn deadlines_come_out()
    ensures leader { let made = record (example 5 0) { stall_timeout = Some 1000 } in
        deadline_of made [] ≡ (1000, LeaderTimeout) }
    ensures expiry { let made = record (example 5 0) { stall_timeout = Some 1000 } in
        deadline_of made (after made (TriggerTimeout 1 Inactivity 1000 ∷ [])) ≡ (1000, Inactivity) }
    ensures budget { let made = record (example 5 0) { skip_budget = 0 } in
        deadline_of made (after made (TriggerTimeout 1 Inactivity 3 ∷ [])) ≡ (1000, LeaderTimeout) }
    ensures proposed { let made = record (example 5 0) { stall_timeout = Some 2000 } in
        deadline_of made (after made
        (SetProposal 1 (block 1 0 1) ∷ TriggerTimeout 1 Inactivity 3 ∷ []))
        ≡ (2000, CertificationTimeout) }
    ensures stalled { let made = record (example 5 0) { stall_timeout = Some 1500 } in
        deadline_of made (after made
        (AddNotarization (notarized (block 1 0 1)) 900 ∷ Certified 1 true 900 ∷ []))
        ≡ (1500, StallTimeout) }
    ensures published { let made = example 5 0 in
        deadline_of made (after made (TriggerTimeout 1 Inactivity 3
        ∷ ConstructNullify 1 Inactivity 4 ∷ ConstructNullify 1 Inactivity 600 ∷ []))
        ≡ (1100, LeaderTimeout) }
    // A verify answer that fails ahead of time counts on entry. A replayed false verdict expires at once.
    ensures ahead { let made = example 5 2 in
        deadline_of made (after made (VerificationFailed 2 InvalidProposal 5
        ∷ AddNotarization (notarized (block 1 0 1)) 8 ∷ Certified 1 true 9 ∷ []))
        ≡ (9, InvalidProposal) }
    ensures false_verdict { let made = example 5 2 in
        deadline_of made (after made
        (AddNotarization (notarized (block 1 0 1)) 8 ∷ Certified 1 false 9 ∷ []))
        ≡ (9, FailedCertification) }
{}

/// Ancestry over nullifications.
pub fn ancestry_comes_out()
    ensures term { let made = example 5 0 in
        greatest_parent made (after made (AddNullification (nullified 1) 1 ∷ [])) 6 ≡ Some 0 }
    ensures over { let made = example 5 0 in
        greatest_parent made (after made (AddNotarization (notarized (block 1 0 1)) 1
        ∷ Certified 1 true 1 ∷ AddNullification (nullified 2) 1 ∷ [])) 6 ≡ Some 1 }
    ensures gap { let made = example 5 0 in
        gap_between made (after made (AddNotarization (notarized (block 1 0 1)) 1
        ∷ Certified 1 true 1 ∷ AddNullification (nullified 2) 1 ∷ [])) 0 6 ≡ Some 1 }
    ensures none { let made = example 5 0 in
        greatest_parent made (after made (AddNullification (nullified 2) 1 ∷ [])) 6 ≡ None }
    // A final view is the least parent.
    ensures passed { let made = example 5 0 in
        has_ancestry made
        (after made (AddNullification (nullified 1) 1
        ∷ AddFinalization (finalized (block 6 0 6)) 2 ∷ [])) 0 7 ≡ false }
{}

/// What a member's own vote and an own nullify mean for the next view, and what a finalization renews.
pub fn own_votes_come_out()
    ensures met { let made = example 1 0 in
        has_ancestry made (after made (having_proposed [])) 1 2 ≡ true }
    ensures not_further { let made = example 1 0 in
        has_ancestry made (after made (having_proposed [])) 1 3 ≡ false }
    ensures given_up { let made = example 1 0 in
        has_ancestry made
        (after made (having_proposed (ConstructNullify 1 LeaderTimeout 3 ∷ []))) 1 2 ≡ false }
    ensures another_slot { let made = follower 1 0 in
        is_votable made (after made (SetProposal 2 (block 2 1 2) ∷ [])) 2 ≡ false }
    ensures own_slot { let made = example 1 0 in
        is_votable made (after made (Proposed (context 2 1 9) (2 ∷ []) ∷ [])) 2 ≡ true }
    // A proposal that a certificate opposes is not checked any more, and a true answer is on what was asked.
    ensures checked { let made = follower 1 0 in
        is_checked (after made
        (SetProposal 1 (block 1 0 1) ∷ TryVerify ∷ Verified 1 ∷ [])) 1 ≡ true }
    ensures opposed { let made = follower 1 0 in
        is_checked (after made (SetProposal 1 (block 1 0 1) ∷ TryVerify
        ∷ Verified 1 ∷ ConstructNotarize 1
        ∷ AddNotarization (notarized (block 1 0 2)) 3 ∷ [])) 1 ≡ false }
    ensures changed { let made = follower 1 0 in
        is_checked (after made (SetProposal 1 (block 1 0 1) ∷ TryVerify
        ∷ AddNotarization (notarized (block 1 0 2)) 3 ∷ Verified 1 ∷ [])) 1 ≡ false }
    // An own nullify of the last final view itself keeps nothing from being finalized.
    ensures at_final { let made = example 5 0 in
        is_some (finalize_at made (after made
        (AddNotarization (notarized (block 1 0 1)) 1 ∷ Certified 1 true 1
        ∷ ConstructNullify 2 LeaderTimeout 3
        ∷ AddNotarization (notarized (block 2 1 2)) 4 ∷ Certified 2 true 4
        ∷ AddFinalization (finalized (block 2 1 2)) 5
        ∷ AddNotarization (notarized (block 3 2 3)) 6 ∷ Certified 3 true 6 ∷ [])) 3) ≡ true }
    // The budget of inactivity is one here, until a finalization.
    ensures used_up { let made = example 1 0 in
        deadline_of made (after made
        (TriggerTimeout 1 Inactivity 3 ∷ AddNotarization (notarized (block 1 0 1)) 4
        ∷ Certified 1 true 4 ∷ TriggerTimeout 2 Inactivity 5 ∷ [])) ≡ (1004, LeaderTimeout) }
    ensures renewed { let made = example 1 0 in
        deadline_of made (after made (TriggerTimeout 1 Inactivity 3
        ∷ AddFinalization (finalized (block 1 0 1)) 4 ∷ TriggerTimeout 2 Inactivity 5
        ∷ [])) ≡ (5, Inactivity) }
    // A Prepare whose parent no longer serves, where another does, is dropped for it, and its view stays asked for.
    ensures superseded { let made = record (example 1 0) { handoff = true } in
        (iterated made 6 (desk (after made
        (having_proposed (TryPropose ∷ ConstructNullify 1 LeaderTimeout 5
        ∷ AddNullification (nullified 1) 6 ∷ [])))
        (Some (record {
          number = 1;
          context = context 2 1 9;
          state = Preparing;
          is_answered = true;
        })))).dropped
        ≡ 1 ∷ [] }
    ensures not_asked_again { let made = record (example 1 0) { handoff = true } in
        (iterated made 6 (desk (after made
        (having_proposed (TryPropose ∷ ConstructNullify 1 LeaderTimeout 5
        ∷ AddNullification (nullified 1) 6 ∷ [])))
        (Some (record {
          number = 1;
          context = context 2 1 9;
          state = Preparing;
          is_answered = true;
        })))).asked ≡ [] }
    ensures missing_met { let made = follower 5 2 in
        verify_request made (after made (SetProposal 1 (block 1 0 1) ∷ TryVerify
        ∷ Verified 1 ∷ ConstructNotarize 1 ∷ SetProposal 3 (block 3 1 3) ∷ []))
        ≡ Resolve 3 1 kind.Notarization 1 }
{}

/// With a window a member votes ahead of its current view, on its own vote.
pub fn window_comes_out()
    ensures first { let made = follower 5 2 in
        verify_request made (after made (SetProposal 1 (block 1 0 1) ∷ []))
        ≡ Ready (record (context 1 0 7) { leader = 1 }) (block 1 0 1) }
    ensures unchecked { let made = follower 5 2 in
        notarize_at made (after made (SetProposal 1 (block 1 0 1) ∷ TryVerify ∷ [])) 1 ≡ None }
    ensures ahead { let made = follower 5 2 in
        notarize_at made (after made
        (SetProposal 1 (block 1 0 1) ∷ TryVerify ∷ Verified 1 ∷ ConstructNotarize 1
        ∷ SetProposal 2 (block 2 1 2) ∷ TryVerify ∷ Verified 2 ∷ [])) 2
        ≡ Some (record { proposal = block 2 1 2; attestation = own }) }
    ensures not_past { let made = follower 5 2 in
        slot_of (after made (SetProposal 4 (block 4 3 4) ∷ [])) 4 ≡ None }
    ensures next_term { let made = follower 5 2 in
        slot_of (after made (SetProposal 6 (block 6 5 6) ∷ [])) 6 ≡ Some (block 6 5 6) }
    ensures missing { let made = follower 5 2 in
        verify_request made (after made (SetProposal 2 (block 2 1 2) ∷ []))
        ≡ Resolve 2 1 kind.Notarization 1 }
    ensures missing_once { let made = follower 5 2 in
        verify_request made (after made (SetProposal 2 (block 2 1 2) ∷ TryVerify ∷ [])) ≡ Wait }
    ensures uncovered { let made = follower 5 2 in
        verify_request made (after made (SetProposal 2 (block 2 0 2) ∷ []))
        ≡ Resolve 2 1 kind.Nullification 1 }
{}

/// A handoff is prepared before its parent is certified, and becomes an ordinary request.
pub fn handoff_comes_out()
    ensures prepares { let made = record (example 1 0) { handoff = true } in
        proposal_request made (after made (having_proposed [])) ≡ Some (Prepare (context 2 1 9)) }
    ensures without { let made = example 1 0 in
        proposal_request made (after made (having_proposed [])) ≡ None }
    ensures pending { let made = record (example 1 0) { handoff = true } in
        proposal_request made
        (after made
        (having_proposed (TryPropose ∷ AddNotarization (notarized (block 1 0 9)) 5
        ∷ Certified 1 true 6 ∷ []))) ≡ None }
    ensures freed { let made = record (example 1 0) { handoff = true } in
        proposal_request made
        (after made (having_proposed (TryPropose ∷ AddNotarization (notarized (block 1 0 9)) 5
        ∷ Certified 1 true 6 ∷ ReleaseProposalRequest 2 ∷ [])))
        ≡ Some (Propose (context 2 1 9)) }
    // The same by one pass: Waiting ends, and the view is asked for again.
    ensures waited { let made = record (example 1 0) { handoff = true } in
        (reconciled made 6
        (desk (after made
        (having_proposed (TryPropose ∷ AddNotarization (notarized (block 1 0 9)) 5
        ∷ Certified 1 true 6 ∷ [])))
        (Some (record {
          number = 1;
          context = context 2 1 9;
          state = Waiting;
          is_answered = false;
        })))).asked
        ≡ asks.Propose (context 2 1 9) ∷ [] }
    // A Prepare is given up with its parent, and dropped.
    ensures given_up { let made = record (example 1 0) { handoff = true } in
        (reconciled made 6
        (desk (after made (having_proposed (TryPropose ∷ ConstructNullify 1 LeaderTimeout 5 ∷ [])))
        (Some (record {
          number = 1;
          context = context 2 1 9;
          state = Preparing;
          is_answered = false;
        })))).dropped
        ≡ 1 ∷ [] }
{}

/// Gaps: the first uncovered view of each term above the floor, and failed views.
pub fn gaps_come_out()
    ensures before { gaps_of 5 (Updated
        (certificates.Notarization (notarized (block 8 0 8))) ∷ []) ≡ [] }
    ensures terms { gaps_of 5 (reverse (Replayed ∷ Updated (certificates.Notarization (notarized (block 8 0 8))) ∷ []))
        ≡ 1 ∷ 6 ∷ [] }
    ensures covered { gaps_of 5 (reverse (Replayed ∷ Updated (certificates.Notarization (notarized (block 8 0 8)))
        ∷ Updated (certificates.Nullification (nullified 3))
        ∷ Updated (certificates.Nullification (nullified 1)) ∷ []))
        ≡ 6 ∷ [] }
    ensures failed { gaps_of 5 (reverse (Replayed ∷ repair.Certified (notarized (block 8 0 8)) false
        ∷ Updated (certificates.Nullification (nullified 1)) ∷ [])) ≡ 6 ∷ 8 ∷ [] }
    ensures failed_covered { gaps_of 5 (reverse (Replayed ∷ repair.Certified (notarized (block 8 0 8)) false
        ∷ Updated (certificates.Nullification (nullified 1))
        ∷ Updated (certificates.Nullification (nullified 7)) ∷ []))
        ≡ 6 ∷ [] }
    ensures floor { gaps_of 5 (reverse (Replayed ∷ repair.Certified (notarized (block 8 0 8)) false
        ∷ Updated (certificates.Nullification (nullified 7))
        ∷ repair.Certified (notarized (block 9 0 9)) true ∷ []))
        ≡ [] }
    ensures produced { produced 5 (reverse (Updated (certificates.Nullification (nullified 3))
        ∷ Updated (certificates.Nullification (nullified 2)) ∷ [])) 4
        ≡ Some (certificates.Nullification (nullified 2)) }
    ensures below { produced 5 (repair.Certified (notarized (block 9 0 9)) true ∷ []) 4
        ≡ Some (certificates.Notarization (notarized (block 9 0 9))) }
{}

/// Terms, and what stops at the greatest u64.
pub fn terms_come_out()
    ensures zero { map (term_index 5) (0 ∷ 1 ∷ 5 ∷ 6 ∷ []) ≡ 0 ∷ 1 ∷ 1 ∷ 2 ∷ [] }
    ensures starts { map (term_start 5) (0 ∷ 1 ∷ 5 ∷ 6 ∷ []) ≡ 0 ∷ 1 ∷ 1 ∷ 6 ∷ [] }
    ensures ends { map (term_end 5) (0 ∷ 1 ∷ 5 ∷ 6 ∷ []) ≡ 0 ∷ 5 ∷ 5 ∷ 10 ∷ [] }
    ensures next { map (next_term_start 5) (0 ∷ 1 ∷ 5 ∷ 6 ∷ []) ≡ 1 ∷ 6 ∷ 6 ∷ 11 ∷ [] }
    ensures top { next_of 18446744073709551615 ≡ 18446744073709551615 }
    ensures top_term { next_term_start 2 18446744073709551615 ≡ 18446744073709551615 }
    ensures covered { map (covers 5 3) (2 ∷ 3 ∷ 5 ∷ 6 ∷ []) ≡ false ∷ true ∷ true ∷ false ∷ [] }
    ensures limits { map (admission_limit 5 2) (1 ∷ 4 ∷ 5 ∷ []) ≡ 3 ∷ 5 ∷ 5 ∷ [] }
    ensures admitted { map (admits 5 2 1) (0 ∷ 1 ∷ 2 ∷ 3 ∷ 4 ∷ 6 ∷ 7 ∷ [])
        ≡ true ∷ true ∷ true ∷ true ∷ false ∷ true ∷ false ∷ [] }
{}

/// What a start makes known: the floor, and the records of the journal.
pub fn replay_comes_out()
    // The floor's finalization is known, and need not be sent; its payload is the parent's.
    ensures floor { let made = example 1 0 in
        let known = after made (SetFloor (Finalized (finalized (block 4 3 4))) 9 ∷ []) in
        map (λ v. is_some (finalization_of known v)) (3 ∷ 4 ∷ []) ≡ false ∷ true ∷ [] }
    ensures parent { let made = example 1 0 in
        proposal_request made (after made (SetFloor (Finalized (finalized (block 4 3 4))) 9 ∷ []))
        ≡ Some (Propose (context 5 4 4)) }
    ensures unsent { let made = example 1 0 in
        unsent_finalization
        (after made (SetFloor (Finalized (finalized (block 4 3 4))) 9 ∷ [])) 4 ≡ None }
    ensures genesis { let made = example 1 0 in
        proposal_request made (after made (SetFloor (Genesis (8 ∷ [])) 9 ∷ []))
        ≡ Some (Propose (context 1 0 8)) }
    // An own vote is own again. A verdict counts behind its notarization alone, and the first one.
    ensures own { let made = example 1 0 in
        notarize_at made (after made
        (Replay (artifacts.Notarize
        (record { proposal = block 1 0 1; attestation = own })) 9 ∷ [])) 1 ≡ None }
    ensures verdict { let made = example 1 0 in
        current_of made (after made (Replay (artifacts.Notarization (notarized (block 1 0 1))) 9
        ∷ Replay (artifacts.Certification (record { epoch = 0; view = 1 }) true) 9 ∷ [])) ≡ 2 }
    ensures too_early { let made = example 1 0 in
        current_of made (after made
        (Replay (artifacts.Certification (record { epoch = 0; view = 1 }) true) 9
        ∷ Replay (artifacts.Notarization (notarized (block 1 0 1))) 9 ∷ [])) ≡ 1 }
    ensures first_verdict { let made = example 1 0 in
        deadline_of made (after made (Replay (artifacts.Notarization (notarized (block 1 0 1))) 9
        ∷ Replay (artifacts.Certification (record { epoch = 0; view = 1 }) false) 9
        ∷ Certified 1 true 10 ∷ []))
        ≡ (9, FailedCertification) }
    // Of two records of one view and kind the first is the known one.
    ensures first_record { let made = example 1 0 in
        slot_of (after made (Replay (artifacts.Notarization (notarized (block 1 0 1))) 9
        ∷ Replay (artifacts.Notarization (notarized (block 1 0 2))) 9 ∷ [])) 1
        ≡ Some (block 1 0 1) }
    // The leader is named where a certificate contradicts the slot, and not at a nullification.
    ensures blamed { let made = follower 1 0 in
        replay_answer made (after made (Replay (artifacts.Notarize (record {
          proposal = block 1 0 1;
          attestation = own;
        })) 9 ∷ [])) (artifacts.Notarization (notarized (block 1 0 2))) ≡ Some 1 }
    ensures not_blamed { let made = follower 1 0 in
        replay_answer made (after made (Replay (artifacts.Notarize (record {
          proposal = block 1 0 1;
          attestation = own;
        })) 9 ∷ [])) (artifacts.Notarization (notarized (block 1 0 1))) ≡ None }
    ensures added { let made = follower 1 0 in
        add_notarization_answer made (after made (SetProposal 1 (block 1 0 1) ∷ []))
        (notarized (block 1 0 2))
        ≡ (true, Some 1) }
    ensures not_added { let made = follower 1 0 in
        add_notarization_answer made (after made (AddNotarization (notarized (block 1 0 1)) 1 ∷ []))
        (notarized (block 1 0 2)) ≡ (false, None) }
{}

/// What a call on a repair state leads to.
pub fn effects_come_out()
    ensures nullified { effects_of 5 (Replayed ∷ []) (Updated (certificates.Nullification (nullified 3)))
        ≡ effect.Settled kind.Nullification 3 5 ∷ effect.Fetch 1 ∷ [] }
    ensures again { effects_of 5 (reverse (Replayed ∷ Updated (certificates.Nullification (nullified 3)) ∷ []))
        (Updated (certificates.Nullification (nullified 3))) ≡ [] }
    ensures good { effects_of 5 (Replayed ∷ []) (repair.Certified (notarized (block 8 0 8)) true)
        ≡ effect.Settled kind.Notarization 8 8 ∷ effect.Raised 8 ∷ [] }
    ensures failed { effects_of 5 (Replayed ∷ []) (repair.Certified (notarized (block 8 0 8)) false)
        ≡ effect.Settled kind.Notarization 8 8 ∷ effect.Fetch 1 ∷ effect.Fetch 6
        ∷ effect.Fetch 8 ∷ [] }
    ensures finalized { effects_of 5 (Replayed ∷ []) (Updated (certificates.Finalization (finalized (block 8 0 8))))
        ≡ effect.Finalized 8 ∷ effect.Raised 8 ∷ [] }
    ensures replayed { effects_of 5 (Updated (certificates.Notarization (notarized (block 8 0 8))) ∷ []) Replayed
        ≡ effect.Fetch 1 ∷ effect.Fetch 6 ∷ [] }
{}
