//! What the members of a sample do, computed.
#![tactic(auto, unfolding(crate::specs::Computed::samples))]

ghost use Rattle.std.specs.Prelude.{◌≡◌, [], ◌∷◌, true};
ghost use Rattle.law_cluster.specs.Lives.{IsVerifying};
ghost use Rattle.law_cluster.specs.Samples.{acts_of, are_histories, are_typed, came_on, finals, four, subjects_voted, voted_on};
ghost use Rattle.law_cluster.specs.Samples.{block, group, notarized, rival};
ghost use Rattle.law_cluster.specs.TornSamples.{are_blank, came_of_pairs, forged, forgetful, forgetful_acts};
ghost use Rattle.law_cluster.specs.TornSamples.{heard_by, hears_both, pairs_are_voted};

/// The first member acts by itself, votes for the block and reports it as final; only signatures of such votes come to it.
pub fn killed_member_finalizes()
    ensures history { are_histories 0 (acts_of 0) ≡ true }
    ensures typed { are_typed (four.lives 0) ≡ true }
    ensures came { came_on subjects_voted (four.lives 0) ≡ true }
    ensures voted { voted_on subjects_voted (four.lives 0) ≡ true }
    ensures finals { finals 0 ≡ 1 ∷ [] }
{}

/// So does the second one, which leads.
pub fn leader_finalizes()
    ensures history { are_histories 1 (acts_of 1) ≡ true }
    ensures typed { are_typed (four.lives 1) ≡ true }
    ensures came { came_on subjects_voted (four.lives 1) ≡ true }
    ensures voted { voted_on subjects_voted (four.lives 1) ≡ true }
    ensures finals { finals 1 ≡ 1 ∷ [] }
{}

/// And so does the third one.
pub fn follower_finalizes()
    ensures history { are_histories 2 (acts_of 2) ≡ true }
    ensures typed { are_typed (four.lives 2) ≡ true }
    ensures came { came_on subjects_voted (four.lives 2) ≡ true }
    ensures voted { voted_on subjects_voted (four.lives 2) ≡ true }
    ensures finals { finals 2 ≡ 1 ∷ [] }
{}

/// A member hears two certificates that verify.
pub fn rivals_are_heard()
    ensures history { are_histories 0 (hears_both ∷ []) ≡ true }
    ensures typed { are_typed (forged.lives 0) ≡ true }
    ensures heard { heard_by (forged.lives 0)
        ≡ notarized rival (0 ∷ 1 ∷ 2 ∷ []) ∷ notarized block (0 ∷ 1 ∷ 2 ∷ []) ∷ [] }
    ensures block { IsVerifying group (notarized block (0 ∷ 1 ∷ 2 ∷ [])) }
    ensures rival { IsVerifying group (notarized rival (0 ∷ 1 ∷ 2 ∷ [])) }
{}

/// A member that lost its journal votes for a block and for its rival, two others vote for one of them each, and hear that it is
/// notarized.
pub fn votes_are_forgotten()
    ensures first { are_blank 0 (forgetful_acts 0) ≡ true }
    ensures first_typed { are_typed (forgetful.lives 0) ≡ true }
    ensures first_came { came_of_pairs (forgetful.lives 0) ≡ true }
    ensures third { are_blank 2 (forgetful_acts 2) ≡ true }
    ensures third_typed { are_typed (forgetful.lives 2) ≡ true }
    ensures third_came { came_of_pairs (forgetful.lives 2) ≡ true }
    ensures third_heard { heard_by (forgetful.lives 2) ≡ notarized block (0 ∷ 1 ∷ 2 ∷ []) ∷ [] }
    ensures fourth { are_blank 3 (forgetful_acts 3) ≡ true }
    ensures fourth_typed { are_typed (forgetful.lives 3) ≡ true }
    ensures fourth_came { came_of_pairs (forgetful.lives 3) ≡ true }
    ensures fourth_heard { heard_by (forgetful.lives 3) ≡ notarized rival (0 ∷ 1 ∷ 3 ∷ []) ∷ [] }
    ensures voted { pairs_are_voted ≡ true }
    ensures verifies { IsVerifying group (notarized rival (0 ∷ 1 ∷ 3 ∷ [])) }
{}
