//! What the definition of gaps says in the words of the rule.
ghost use Rattle.std.specs.Prelude.{◌≡◌, ℕ, ◌<◌, ◌==◌, ◌↔◌, true, List};
ghost use Rattle.std.specs.List.{list_any};
ghost use Rattle.model_rules.specs.Repair.{RepairCall, is_replayed_in, is_gap, gaps_of};
ghost use Rattle.simplex_repair.specs.Laws.{IsLacking};

/// After the replay the gaps are the views that the rule names, and these are all that are listed.
pub fn gaps_are_what_is_lacking()
    ensures each { (length : ℕ) (calls : List RepairCall) (view : ℕ) → 0 < length → list_any is_replayed_in calls ≡ true
        → ((is_gap length calls view ≡ true) ↔ IsLacking length calls view) }
    ensures listed { (length : ℕ) (calls : List RepairCall) (view : ℕ)
        → list_any (λ v. v == view) (gaps_of length calls) ≡ is_gap length calls view }
{}
