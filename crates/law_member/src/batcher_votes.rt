//! Accepted votes, and what is reported of them.
ghost use Rattle.std.specs.Prelude.{◌≡◌, ℕ, List, ◌∷◌, Some, All};
ghost use Rattle.simplex_wire.specs.declared.vote.Vote.{Vote};
ghost use Rattle.model_steps.specs.Batcher.{Made, Timed, RoundHistory, standing_after, known_in, step_out};
ghost use Rattle.law_member.specs.BatcherVotes.{Accepted, Came, HoldsOnly, IsOf};
ghost use Rattle.law_member.specs.Reports.{IsFoundedCall};
ghost use Rattle.law_member.specs.Blocks.{IsFoundedBlock};

/// An accepted vote came from its signer: in a packet that the signer sent, or, as an own vote, from the voter.
pub fn accepted_votes_came_from_their_signers()
    ensures { (made : Made) (past : List Timed) (vote : Vote)
        → Accepted made past vote → Came past vote }
{}

/// Each vote that the round of a view holds is of that view and was accepted.
pub fn held_votes_were_accepted()
    ensures { (made : Made) (past : List Timed) (view : ℕ) (round : RoundHistory)
        → (standing_after made past).rounds view ≡ Some round
        → HoldsOnly (IsOf view (Accepted made past)) (known_in round) }
{}

/// A step reports votes and evidence alone. A vote that is reported was accepted. Evidence names a signer that
/// signed two votes which conflict, both of one view: each of them came from that signer, and one was accepted.
pub fn reports_are_founded()
    ensures { (made : Made) (past : List Timed) (given : Timed)
        → All (IsFoundedCall (Accepted made (given ∷ past)) (Came (given ∷ past)))
        (step_out made past given).calls }
{}

/// Whom a step blocks has done what the cause says: in the packet that the step took, or in a vote that was accepted.
pub fn blocks_are_founded()
    ensures { (made : Made) (past : List Timed) (given : Timed) → All (IsFoundedBlock made
        (Accepted made (given ∷ past)) (Came (given ∷ past)) given.input)
        (step_out made past given).calls }
{}
