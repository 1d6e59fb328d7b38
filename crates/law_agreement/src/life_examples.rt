//! That lives are not empty, and what two of the conditions on calls are for.
ghost use Rattle.std.specs.Prelude.{◌≡◌, [], ◌∷◌};
ghost use Rattle.simplex_values.specs.declared.proposal.Subject.TheVariants.{Notarize, Nullify, Finalize};
ghost use Rattle.law_agreement.specs.WorldExamples.{first, rival, third, round_of};
ghost use Rattle.law_agreement.specs.Artifacts.{Own};
ghost use Rattle.law_agreement.specs.Member.{newborn, run, IsLegal};
ghost use Rattle.law_agreement.specs.LifeExamples.{sends, good_life, lost_vote, left_vote, early_send, early_prune};

/// A legal life has votes of each kind, over crashes. A vote that was lost was not sent, and one that was left is known.
pub fn legal_lives_exist()
    ensures good { IsLegal 2 newborn good_life }
    ensures good_sends { sends good_life ≡ Notarize first ∷ Finalize first
        ∷ Nullify (round_of 2) ∷ Nullify (round_of 2) ∷ Notarize third ∷ [] }
    ensures lost { IsLegal 2 newborn lost_vote }
    ensures lost_sends { sends lost_vote ≡ Notarize rival ∷ [] }
    ensures left { IsLegal 2 newborn left_vote }
    ensures left_knows { (run newborn left_vote).known ≡ Own (Notarize first) ∷ [] }
    ensures left_sends { sends left_vote ≡ [] }
{}

/// A member that sends before it syncs, or prunes what is not final, may vote for two rivals.
pub fn conditions_are_needed()
    ensures sync { sends early_send ≡ Notarize first ∷ Notarize rival ∷ [] }
    ensures prune { sends early_prune ≡ Notarize first ∷ Notarize rival ∷ [] }
{}
