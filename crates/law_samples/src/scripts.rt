//! Twins that follow a script.
#![tactic(auto, unfolding(crate::specs::Computed::samples))]

ghost use Rattle.std.specs.Prelude.{◌≡◌, [], ◌∷◌, Ok, Err, true, false, map};
ghost use Rattle.simplex_transcript.specs.declared.field.Field.TheVariants as fields;
ghost use Rattle.simplex_transcript.specs.declared.refusal.RunError.TheVariants as refusals;
ghost use Rattle.model_run.specs.Run.{Run, refused};
ghost use Rattle.model_run.specs.Twins.{is_in_part, elected};
ghost use Rattle.model_run.specs.Routing.{is_routed};
ghost use Rattle.law_samples.specs.Lists.{scripted, round_with, node, second};

/// A round of terms of one view: the halves talk with members 0, 1 and 3, and with 1 and 2. Behind it all talk.
pub fn parts_come_out()
    ensures first { map (is_in_part (scripted 1 (round_with 3 11 6 ∷ [])) 1 0) (0 ∷ 1 ∷ 2 ∷ 3 ∷ [])
        ≡ true ∷ true ∷ false ∷ true ∷ [] }
    ensures other { map (is_in_part (scripted 1 (round_with 3 11 6 ∷ [])) 1 1) (0 ∷ 1 ∷ 2 ∷ 3 ∷ [])
        ≡ false ∷ true ∷ true ∷ false ∷ [] }
    ensures behind { map (is_in_part (scripted 1 (round_with 3 11 6 ∷ [])) 2 1) (0 ∷ 1 ∷ 2 ∷ 3 ∷ [])
        ≡ true ∷ true ∷ true ∷ true ∷ [] }
    ensures leads { elected (scripted 1 (round_with 3 11 6 ∷ []))
        (record { epoch = 0; view = 1 }) ≡ 3 }
{}

/// A packet goes where the member at the other end talks with that half: to both halves, to one, and from one.
pub fn routes_come_out()
    ensures to_both { map (is_routed (scripted 1 (round_with 3 11 6 ∷ [])) 1 (node 1)) (node 3 ∷ second 3 ∷ [])
        ≡ true ∷ true ∷ [] }
    ensures to_first { map (is_routed (scripted 1 (round_with 3 11 6 ∷ [])) 1 (node 0)) (node 3 ∷ second 3 ∷ [])
        ≡ true ∷ false ∷ [] }
    ensures to_other { map (is_routed (scripted 1 (round_with 3 11 6 ∷ [])) 1 (node 2)) (node 3 ∷ second 3 ∷ [])
        ≡ false ∷ true ∷ [] }
    ensures from_other { map (is_routed (scripted 1 (round_with 3 11 6 ∷ [])) 1 (second 3))
        (node 0 ∷ node 1 ∷ node 2 ∷ []) ≡ false ∷ true ∷ true ∷ [] }
{}

/// A round is one term's: view 7 is in the second term of five views, and view 4 in the second of three.
pub fn terms_of_scripts_come_out()
    ensures of_five { map (is_in_part (scripted 5 (round_with 3 15 15 ∷ round_with 3 3 12 ∷ [])) 7 0)
        (0 ∷ 1 ∷ 2 ∷ 3 ∷ []) ≡ true ∷ true ∷ false ∷ false ∷ [] }
    ensures other_of_five { map (is_in_part (scripted 5 (round_with 3 15 15 ∷ round_with 3 3 12 ∷ [])) 7 1)
        (0 ∷ 1 ∷ 2 ∷ 3 ∷ []) ≡ false ∷ false ∷ true ∷ true ∷ [] }
    ensures of_three { map (is_in_part (scripted 3 (round_with 3 3 12 ∷ round_with 3 0 15 ∷ [])) 4 0)
        (0 ∷ 1 ∷ 2 ∷ 3 ∷ []) ≡ false ∷ false ∷ false ∷ false ∷ [] }
    ensures other_of_three { map (is_in_part (scripted 3 (round_with 3 3 12 ∷ round_with 3 0 15 ∷ [])) 4 1)
        (0 ∷ 1 ∷ 2 ∷ 3 ∷ []) ≡ true ∷ true ∷ true ∷ true ∷ [] }
{}

/// A script whose leader neither half hears, whose leader is no member, or whose mask has none, is refused.
pub fn bad_scripts_come_out()
    ensures good { Run (scripted 1 (round_with 3 11 6 ∷ [])) [] ≡ Ok [] }
    ensures leader_unseen { Run (scripted 1 (round_with 3 6 6 ∷ [])) []
        ≡ Err (refused (refusals.BadSetup fields.Scenario) 0) }
    ensures no_leader { Run (scripted 1 (round_with 4 15 6 ∷ [])) []
        ≡ Err (refused (refusals.BadSetup fields.Scenario) 0) }
    ensures no_mask { Run (scripted 1 (round_with 3 11 16 ∷ [])) []
        ≡ Err (refused (refusals.BadSetup fields.Scenario) 0) }
{}
