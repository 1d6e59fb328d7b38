//! The definitions at small histories.
ghost use Rattle.std.specs.Prelude.{◌≡◌, ◌∷◌, [], true, Some, None};
ghost use Rattle.simplex_values.specs.declared.feedback.Feedback.TheVariants as feedback;
ghost use Rattle.simplex_shared.specs.declared.op.Op.TheVariants.{Put, Took, Shut};
ghost use Rattle.simplex_shared.specs.Calls.{calls_by, places_by};
ghost use Rattle.simplex_shared.specs.History.{caller_of, is_shut};
ghost use Rattle.simplex_shared.specs.Samples.{IsLegalHere, four_calls};

/// Two puts, a take and a close are legal, and of two passes each has two of these calls. A put behind a close, a
/// message that nobody put, and one that is forgotten are not.
pub fn small_histories()
    ensures legal { IsLegalHere four_calls }
    ensures shut { is_shut four_calls ≡ true }
    ensures calls { calls_by caller_of 1 four_calls ≡ Took 1 (Some 2) ∷ Shut 1 ∷ [] }
    ensures places { places_by caller_of 1 0 four_calls ≡ 2 ∷ 3 ∷ [] }
    ensures put_behind_a_shut { ¬ IsLegalHere (Shut 1 ∷ Put 0 5 feedback.Ok ∷ []) }
    ensures invented { ¬ IsLegalHere (Took 1 (Some 3) ∷ []) }
    ensures forgotten { ¬ IsLegalHere (Put 0 2 feedback.Ok ∷ Took 1 None ∷ []) }
{}
