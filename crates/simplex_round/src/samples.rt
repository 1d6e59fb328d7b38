//! Cases that come out as the rules mean them. Each clause is computed.
#![tactic(auto, unfolding(crate::specs::Computed::rounds))]

ghost use Rattle.std.specs.Prelude.{◌≡◌, [], ◌∷◌, true, false, Some, None};
ghost use Rattle.simplex_types.specs.declared.activity.Activity.TheVariants as activity;
ghost use Rattle.simplex_types.specs.declared.cause.BlockCause.TheVariants.{WrongSender, ConflictingVotes, NullifyAndFinalize};
ghost use Rattle.simplex_round.specs.Acceptance.{heard_from};
ghost use Rattle.simplex_round.specs.Forwarding.{proposal_of, gives_proposal, forwarded_to_voter, missing_voters};
ghost use Rattle.simplex_round.specs.Assembly.{constructed};
ghost use Rattle.simplex_round.specs.Calls.{known_after, AddNetwork, AcceptVote, SetLeader, RecordCertificate, TryConstruct, TryForward};
ghost use Rattle.simplex_round.specs.Samples.{block, signed, forged, scheme, made, notarize, nullify, finalize, notarization, nullification};

/// Which votes are accepted, and what they are evidence of.
pub fn votes_come_out()
    ensures accepted { let h = heard_from (known_after made []) 3 (notarize (block 17) (signed 3)) in
        (h.accepted ≡ true)
        × (h.reports ≡ activity.Notarize
        (record { proposal = block 17; attestation = signed 3 }) ∷ [])
        × (h.blocks ≡ []) }
    ensures another_sender { let h = heard_from (known_after made []) 3 (notarize (block 17) (signed 0)) in
        (h.accepted ≡ false) × (h.reports ≡ []) × (h.blocks ≡ (3, WrongSender) ∷ []) }
    ensures conflict { let h = heard_from (known_after made (AddNetwork 3 (notarize (block 17) (signed 3)) ∷ []))
        3 (notarize (block 18) (signed 3)) in
        (h.accepted ≡ false) × (h.blocks ≡ (3, ConflictingVotes) ∷ [])
        × (h.reports ≡ activity.ConflictingNotarize (record {
          first = record { proposal = block 17; attestation = signed 3 };
          second = record { proposal = block 18; attestation = signed 3 };
        }) ∷ []) }
    ensures conflict_once { let h = heard_from (known_after made (AddNetwork 3 (notarize (block 18) (signed 3))
        ∷ AddNetwork 3 (notarize (block 17) (signed 3)) ∷ []))
        3 (notarize (block 19) (signed 3)) in
        (h.accepted ≡ false) × (h.reports ≡ []) × (h.blocks ≡ []) }
    ensures nullify_finalize { let h =
        heard_from (known_after made (AddNetwork 3 (finalize (block 17) (signed 3)) ∷ [])) 3
        (nullify (signed 3)) in
        (h.accepted ≡ false) × (h.blocks ≡ (3, NullifyAndFinalize) ∷ [])
        × (h.reports ≡ activity.NullifyFinalize (record {
          nullify = record { round = record { epoch = 0; view = 1 }; attestation = signed 3 };
          finalize = record { proposal = block 17; attestation = signed 3 };
        }) ∷ []) }
{}

/// Certificates of a quorum, of one short and then enough, and of a scheme that recovers none.
pub fn certificates_come_out()
    ensures quorum { let vote = notarize (block 17) in
        let calls = AddNetwork 3 (vote (signed 3)) ∷ AddNetwork 1 (vote (forged 1))
        ∷ AcceptVote (vote (signed 0)) ∷ AddNetwork 2 (vote (signed 2)) ∷ SetLeader 2 ∷ [] in
        (constructed made scheme (known_after made calls)
        ≡ Some (record {
          processed = 4;
          invalid = 1 ∷ [];
          certificate = Some (notarization (block 17) (0 ∷ 2 ∷ 3 ∷ []));
        }))
        × (constructed made scheme (known_after made (TryConstruct scheme ∷ calls)) ≡ None) }
    ensures one_short { let calls = AddNetwork 3 (nullify (signed 3)) ∷ AddNetwork 1 (nullify (forged 1))
        ∷ AcceptVote (nullify (signed 0)) ∷ [] in
        (constructed made scheme (known_after made calls)
        ≡ Some (record { processed = 3; invalid = 1 ∷ []; certificate = None }))
        × (constructed made scheme (known_after made (TryConstruct scheme ∷ calls)) ≡ None)
        × (constructed made scheme
        (known_after made (AddNetwork 2 (nullify (signed 2)) ∷ TryConstruct scheme ∷ calls))
        ≡ Some (record {
          processed = 1;
          invalid = [];
          certificate = Some (nullification (0 ∷ 2 ∷ 3 ∷ []));
        })) }
    ensures no_recovery { let broken = record scheme { recovers = false } in
        let calls = AddNetwork 3 (nullify (signed 3)) ∷ AddNetwork 1 (nullify (signed 1))
        ∷ AcceptVote (nullify (signed 0)) ∷ [] in
        (constructed made broken (known_after made calls)
        ≡ Some (record { processed = 3; invalid = []; certificate = None }))
        × (constructed made broken (known_after made (TryConstruct broken ∷ calls)) ≡ None) }
{}

/// The proposal that is handed on, and who did not notarize it.
pub fn proposals_come_out()
    ensures once { let calls = AddNetwork 2 (notarize (block 17) (signed 2)) ∷ SetLeader 2 ∷ [] in
        let other = notarization (block 18) (1 ∷ 2 ∷ 3 ∷ []) in
        (forwarded_to_voter (known_after made calls) 0 ≡ Some (block 17))
        × (forwarded_to_voter (known_after made calls) 2 ≡ None)
        × (gives_proposal (known_after made calls) other ≡ true)
        × (proposal_of (known_after made (RecordCertificate other ∷ calls)) ≡ Some (block 18))
        × (forwarded_to_voter
        (known_after made (RecordCertificate other ∷ TryForward 0 ∷ calls)) 0 ≡ None) }
    ensures missing { missing_voters made (known_after made (AddNetwork 2 (notarize (block 17) (forged 2))
        ∷ AddNetwork 3 (notarize (block 18) (signed 3)) ∷ [])) (block 17)
        ≡ 0 ∷ 1 ∷ 3 ∷ [] }
{}
