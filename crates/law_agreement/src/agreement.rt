//! No two certificates conflict.
ghost use Rattle.std.specs.Prelude.{ℕ, ◌≡◌, List, All, Contains};
ghost use Rattle.simplex_values.specs.declared.proposal.Subject.{Subject};
ghost use Rattle.law_agreement.specs.World.{World, Certificate, HasSent, IsLawful, IsBacked};
ghost use Rattle.law_agreement.specs.Conflict.{Conflict};

/// In a lawful world no two backed certificates conflict.
pub fn no_conflict()
    ensures { (w : World) (certificates : List Certificate) (a b : Certificate)
        → IsLawful w → All (IsBacked w) certificates → Contains certificates a
        → Contains certificates b
        → ¬ (Conflict w.term_length a.subject b.subject) }
{}

/// As members send more, what is backed stays backed.
pub fn backing_lasts()
    ensures { (w later : World) (certificate : Certificate) → w.members ≡ later.members → w.faulty ≡ later.faulty
        → ((i : ℕ) (s : Subject) → HasSent w i s → HasSent later i s)
        → IsBacked w certificate → IsBacked later certificate }
{}
