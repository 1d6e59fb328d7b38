//! Quorums meet.
ghost use Rattle.std.specs.Prelude.{ℕ, ◌≤◌, ◌<◌, List, length, Contains};
ghost use Rattle.simplex_values.specs.Quorum.{max_faulty};
ghost use Rattle.law_agreement.specs.Quorums.{IsQuorum};

/// A quorum has an honest member, and any two share one.
pub fn quorums_meet()
    ensures one { (n : ℕ) (faulty a : List ℕ) → 0 < n → length faulty ≤ max_faulty n → IsQuorum n a
        → (i : ℕ) × (i < n) × Contains a i × ¬ (Contains faulty i) }
    ensures two { (n : ℕ) (faulty a b : List ℕ) → 0 < n → length faulty ≤ max_faulty n → IsQuorum n a → IsQuorum n b
        → (i : ℕ) × (i < n) × Contains a i × Contains b i × ¬ (Contains faulty i) }
{}
