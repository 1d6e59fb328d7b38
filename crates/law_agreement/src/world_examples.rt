//! That no premise is empty, and none there for nothing.
ghost use Rattle.std.specs.Prelude.{[], ◌∷◌, All};
ghost use Rattle.simplex_values.specs.declared.proposal.Subject.TheVariants.{Notarize, Nullify, Finalize};
ghost use Rattle.law_agreement.specs.World.{World, IsLawful, IsBacked};
ghost use Rattle.law_agreement.specs.WorldExamples.{Property, OneProposal, FinalStays, NullifiedStays, ParentIsNext, NotarizedFirst, KnownIsBacked, FewAreFaulty, world_of, signed, round_of, first, rival, skipping, third, good_votes, two_proposals, nullify_behind, finalize_behind, parent_skipped, not_notarized, not_backed, crowded, IsLawfulBut, IsNeeded};

/// A lawful world has certificates of each kind.
pub fn lawful_world_exists()
    ensures lawful { IsLawful (world_of good_votes) }
    ensures backed { All (IsBacked (world_of good_votes))
        (signed (Notarize first) ∷ signed (Finalize first) ∷ signed (Nullify (round_of 2))
        ∷ signed (Notarize third) ∷ signed (Finalize third) ∷ []) }
{}

/// For each property there is a world that lacks it alone, in which two backed certificates conflict.
pub fn each_property_is_needed()
    ensures weaker { (property : Property) (w : World) → IsLawful w → IsLawfulBut property w }
    ensures one_proposal { IsNeeded OneProposal (world_of two_proposals)
        (signed (Notarize first)) (signed (Notarize rival)) }
    ensures final_stays { IsNeeded FinalStays (world_of nullify_behind)
        (signed (Finalize first)) (signed (Nullify (round_of 1))) }
    ensures nullified_stays { IsNeeded NullifiedStays (world_of finalize_behind)
        (signed (Nullify (round_of 1))) (signed (Finalize first)) }
    ensures parent_is_next { IsNeeded ParentIsNext (world_of parent_skipped)
        (signed (Finalize first)) (signed (Notarize skipping)) }
    ensures notarized_first { IsNeeded NotarizedFirst (world_of not_notarized)
        (signed (Notarize first)) (signed (Finalize rival)) }
    ensures known_is_backed { IsNeeded KnownIsBacked (world_of not_backed)
        (signed (Finalize first)) (signed (Notarize skipping)) }
    ensures few_are_faulty { IsNeeded FewAreFaulty crowded
        (record { subject = Notarize first; signers = 0 ∷ 2 ∷ 3 ∷ [] })
        (record { subject = Notarize rival; signers = 1 ∷ 2 ∷ 3 ∷ [] }) }
{}
