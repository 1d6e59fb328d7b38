//! Cases that come out as the definitions mean them. Each clause is computed.
#![tactic(auto, unfolding(crate::specs::Answers::bad_answer_from, crate::specs::Answers::request_at))]

ghost use Rattle.std.specs.Prelude.{◌≡◌, [], ◌∷◌, Some, None, true, false};
ghost use Rattle.simplex_values.specs.declared.answer.Answer.TheVariants as answers;
ghost use Rattle.model_run.specs.Samples.{alone};
ghost use Rattle.law_ledger.specs.Answers.{bad_answer};
ghost use Rattle.law_ledger.specs.Samples.{asking, answering};

/// The first answer for a payload without a sound block.
pub fn answers_come_out()
    ensures sound { bad_answer (λ _. true) alone (asking (7 ∷ [])
        ∷ []) (answering 0 (answers.Verdict true) ∷ []) ≡ None }
    ensures verdict { bad_answer (λ _. false) alone (asking (7 ∷ [])
        ∷ []) (answering 0 (answers.Closed) ∷ answering 0 (answers.Verdict true) ∷ []) ≡ Some 2 }
    ensures refused { bad_answer (λ _. false) alone (asking (7 ∷ [])
        ∷ []) (answering 0 (answers.Verdict false) ∷ []) ≡ None }
    ensures payload { bad_answer
        (λ _. false) alone [] (answering 0 (answers.Payload (7 ∷ [])) ∷ []) ≡ Some 1 }
    ensures nobody { bad_answer
        (λ _. false) alone [] (answering 1 (answers.Payload (7 ∷ [])) ∷ []) ≡ None }
{}
