//! What follows from the definitions alone.
ghost use Rattle.std.specs.Prelude.{◌≡◌, ℕ, true, List, Some};
ghost use Rattle.std.specs.List.{All};
ghost use Rattle.simplex_values.specs.Covers.{covers};
ghost use Rattle.simplex_wire.specs.declared.certificate.Nullification.{Nullification};
ghost use Rattle.simplex_wire.specs.declared.certificate.Certificate.TheVariants as certificates;
ghost use Rattle.simplex_messages.specs.declared.resolver.ResolverInput.{ResolverInput};
ghost use Rattle.model_resolver.specs.Resolver.{Made, Given, Standing, validated, step, step_out};
ghost use Rattle.model_resolver.specs.Laws.{Verifies, falls};

/// A nullification is an answer only for the views that it covers.
pub fn nullifications_answer_what_they_cover()
    ensures { (made : Made) (view : ℕ) (bytes : List ℕ) (it : Nullification)
        → validated made view bytes ≡ Some (certificates.Nullification it)
        → covers made.term it.round.view view ≡ true }
{}

/// Each certificate that a step hands to the voter verifies.
pub fn handed_certificates_verify()
    ensures { (made : Made) (past : List Given) (input : ResolverInput) (now : ℕ)
        → All (Verifies made) (step_out made past input now).handed }
{}

/// Of the sends of a step, the last first, no view is later than the one before it.
pub fn sends_rise_by_view()
    ensures { (made : Made) (standing : Standing) (input : ResolverInput) (now : ℕ)
        → falls (step made standing input now).sends ≡ true }
{}
