//! What one more call leaves as it was.
ghost use Rattle.std.specs.Prelude.{◌≡◌, ◌≤◌, ℕ, Bool, true, List, [], ◌∷◌, ◌++◌, is_some, Some};
ghost use Rattle.simplex_wire.specs.declared.certificate.Notarization.{Notarization};
ghost use Rattle.simplex_wire.specs.declared.certificate.Nullification.{Nullification};
ghost use Rattle.simplex_wire.specs.declared.certificate.Finalization.{Finalization};
ghost use Rattle.model_rules.specs.Known.{Made, Fact, view_of, notarization_of, nullification_of, finalization_of, verdict_of};
ghost use Rattle.model_rules.specs.Views.{last_finalized, current_of};
ghost use Rattle.model_rules.specs.Calls.{Call, AddNotarization, AddNullification, AddFinalization, facts_of, known_of};
ghost use Rattle.law_member.specs.Growth.{after};

/// Neither one more fact, nor one more call, nor any more calls make the last final view or the current one fall.
pub fn views_never_fall()
    ensures fact_final { (known : List Fact) (fact : Fact)
        → last_finalized known ≤ last_finalized (fact ∷ known) }
    ensures fact_current { (made : Made) (known : List Fact) (fact : Fact)
        → current_of made known ≤ current_of made (fact ∷ known) }
    ensures call_final { (made : Made) (known : List Fact) (call : Call)
        → last_finalized known ≤ last_finalized (after made known call) }
    ensures call_current { (made : Made) (known : List Fact) (call : Call)
        → current_of made known ≤ current_of made (after made known call) }
    ensures calls_final { (made : Made) (before later : List Call)
        → last_finalized (known_of made before) ≤ last_finalized (known_of made (later ++ before)) }
    ensures calls_current { (made : Made) (before later : List Call)
        → current_of made (known_of made before) ≤ current_of made
        (known_of made (later ++ before)) }
{}

/// The certificate that is known of a view and kind stays the one, and so does the verdict of a view.
pub fn certificates_stay()
    ensures notarization { (made : Made) (known : List Fact) (call : Call) (view : ℕ) (n : Notarization)
        → notarization_of known view ≡ Some n
        → notarization_of (after made known call) view ≡ Some n }
    ensures nullification { (made : Made) (known : List Fact) (call : Call) (view : ℕ) (n : Nullification)
        → nullification_of known view ≡ Some n
        → nullification_of (after made known call) view ≡ Some n }
    ensures finalization { (made : Made) (known : List Fact) (call : Call) (view : ℕ) (f : Finalization)
        → finalization_of known view ≡ Some f
        → finalization_of (after made known call) view ≡ Some f }
    ensures verdict { (made : Made) (known : List Fact) (call : Call) (view : ℕ) (good : Bool)
        → verdict_of known view ≡ Some good → verdict_of (after made known call) view ≡ Some good }
{}

/// Where a certificate of the view and kind is known, no other is added.
#[tactic(auto, unfolding(crate::specs::Opened::added))]
pub fn certificates_are_added_once()
    ensures notarization { (made : Made) (known : List Fact) (n : Notarization) (now : ℕ)
        → is_some (notarization_of known (view_of n.proposal)) ≡ true
        → facts_of made known (AddNotarization n now) ≡ [] }
    ensures nullification { (made : Made) (known : List Fact) (n : Nullification) (now : ℕ)
        → is_some (nullification_of known n.round.view) ≡ true
        → facts_of made known (AddNullification n now) ≡ [] }
    ensures finalization { (made : Made) (known : List Fact) (f : Finalization) (now : ℕ)
        → is_some (finalization_of known (view_of f.proposal)) ≡ true
        → facts_of made known (AddFinalization f now) ≡ [] }
{}
