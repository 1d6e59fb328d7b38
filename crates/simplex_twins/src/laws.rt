//! What the definition of every scenario says in other words.
ghost use Rattle.std.specs.Prelude.{◌≡◌, ℕ, List, None, IsTrue, All, Contains, length};
ghost use Rattle.simplex_twins.specs.Script.{ScriptedRound};
ghost use Rattle.simplex_twins.specs.Faults.{fault_of};
ghost use Rattle.simplex_twins.specs.Every.{every_round, every_script, are_good};

/// Every round that [`RoundScenario::new`](crate::RoundScenario::new) takes is among every round, and no
/// other; and every script of such rounds is among the scripts of its size.
#[tactic(auto, using(crate::proofs::Listed::listed_round, crate::proofs::Listed::listed_script, crate::proofs::Listed::listed_rounds))]
pub fn every_good_scenario_is_given()
    ensures rounds { (n : ℕ) (round : ScriptedRound) → fault_of round n ≡ None
        → Contains (every_round n) round }
    ensures no_other { (n : ℕ) → All (λ round. fault_of round n ≡ None) (every_round n) }
    ensures scripts { (n : ℕ) (script : List ScriptedRound) → IsTrue (are_good n script)
        → Contains (every_script n (length script)) script }
{}
