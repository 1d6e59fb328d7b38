//! What a resolver asks for.
ghost use Rattle.std.specs.Prelude.{◌≡◌, ◌↔◌, ◌≤◌, ◌<◌, ℕ, true, false, List, ◌∷◌, Contains};
ghost use Rattle.simplex_values.specs.declared.ask.Kind.TheVariants as kinds;
ghost use Rattle.simplex_values.specs.Terms.{greatest_view};
ghost use Rattle.model_rules.specs.declared.effect.Effect.TheVariants.{Fetch};
ghost use Rattle.model_rules.specs.Repair.{RepairCall, is_gap, is_settled, effects_of};
ghost use Rattle.model_resolver.specs.Resolver.{Made, Given, standing_after};
ghost use Rattle.law_member.specs.Resolver.{IsUnsettled, IsForGap, AllAsks};

/// The views that are to be fetched behind a call of the repair state are those that became gaps by it, and the
/// nullification of none of them is settled.
pub fn fetches_are_of_unsettled_gaps()
    ensures new { (length : ℕ) (held : List RepairCall) (call : RepairCall) (view : ℕ)
        → (Contains (effects_of length held call) (Fetch view)
        ↔ ((is_gap length (call ∷ held) view ≡ true) × (is_gap length held view ≡ false))) }
    ensures unsettled { (length : ℕ) (held : List RepairCall) (call : RepairCall) (view : ℕ)
        → Contains (effects_of length held call) (Fetch view)
        → is_settled length (call ∷ held) view kinds.Nullification ≡ false }
{}

/// Whatever came: of all that a resolver gave its fetcher to ask for, what still stands behind the step is not settled,
/// and what is to stand until the floor is the nullification of a gap. This is said of views up to the greatest, in terms
/// that have views.
pub fn asks_are_of_what_is_not_settled()
    ensures unsettled { (made : Made) (past : List Given) (view : ℕ) → 0 < made.term → view ≤ greatest_view
        → AllAsks made (standing_after made past) view IsUnsettled }
    ensures gap { (made : Made) (past : List Given) (view : ℕ) → 0 < made.term → view ≤ greatest_view
        → AllAsks made (standing_after made past) view IsForGap }
{}
