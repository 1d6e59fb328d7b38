//! What goes and what waits on, for numbers as messages. Each clause is computed.
#![tactic(auto, unfolding(crate::specs::Computed::mail))]

ghost use Rattle.std.specs.Prelude.{◌≡◌, ℕ, ◌==◌, [], ◌∷◌, false, Some};
ghost use Rattle.simplex_values.specs.declared.feedback.Feedback.TheVariants as feedback;
ghost use Rattle.simplex_mailbox.specs.Waiting.{only_rest, put_last, drained, undrained};
ghost use Rattle.simplex_mailbox.specs.Mail.{feedback_of, enqueued, received, after_recv, after_close};
ghost use Rattle.simplex_mailbox.specs.Samples.{of_two};

/// The place goes first, then the rest in order of arrival without what is skipped.
pub fn waiting_goes_in_turn()
    ensures place_first { drained {M = ℕ}
        (λ _. false) 2 (record { place = Some 9; rest = 1 ∷ 2 ∷ [] }) ≡ 9 ∷ 1 ∷ [] }
    ensures waits_on { undrained {M = ℕ} (λ _. false) 2 (record { place = Some 9; rest = 1 ∷ 2 ∷ [] })
        ≡ only_rest (2 ∷ []) }
    ensures skipped { drained {M = ℕ}
        (λ message. message == 1) 1 (only_rest (1 ∷ 2 ∷ 3 ∷ [])) ≡ 2 ∷ [] }
    ensures skipped_is_gone { undrained {M = ℕ} (λ message. message == 1) 1 (only_rest (1 ∷ 2 ∷ 3 ∷ []))
        ≡ only_rest (3 ∷ []) }
    ensures no_room { undrained {M = ℕ} (λ _. false) 0 (record { place = Some 9; rest = 1 ∷ [] })
        ≡ record { place = Some 9; rest = 1 ∷ [] } }
{}

/// A mailbox of two: the third message waits, and is made ready when one is taken; a closed one takes none.
pub fn mail_comes_and_goes()
    ensures room { feedback_of (of_two (1 ∷ [])) ≡ feedback.Ok }
    ensures full { feedback_of (of_two (1 ∷ 2 ∷ [])) ≡ feedback.Backoff }
    ensures closed { feedback_of (after_close (of_two [])) ≡ feedback.Closed }
    ensures first { received (of_two (1 ∷ 2 ∷ 3 ∷ [])) ≡ Some 1 }
    ensures refilled { after_recv (λ _. false) (of_two (1 ∷ 2 ∷ 3 ∷ [])) ≡ of_two (2 ∷ 3 ∷ []) }
    ensures closed_takes_none { enqueued put_last (after_close (of_two [])) 1
        ≡ after_close (of_two []) }
{}
