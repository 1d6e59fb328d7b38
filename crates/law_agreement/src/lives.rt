//! The votes of a member over all its lives.
ghost use Rattle.std.specs.Prelude.{ℕ, ◌<◌, ◌≤◌, List, length, All, AllPairs};
ghost use Rattle.simplex_values.specs.Quorum.{max_faulty};
ghost use Rattle.law_agreement.specs.World.{Certificate, World, MayFollow, MayStand, IsBacked, IsHonest, IsLawful};
ghost use Rattle.law_agreement.specs.Conflict.{Conflict};
ghost use Rattle.law_agreement.specs.Invariant.{KeepsInvariant, floor_from};
ghost use Rattle.law_agreement.specs.Member.{Call, newborn, run, IsLegal, brought, HonestLive};

/// Whatever calls come, the votes that a member sent over all its lives have the five properties.
pub fn lives_are_honest()
    ensures order { (length : ℕ) (calls : List Call) → 0 < length → IsLegal length newborn calls
        → AllPairs (λ s t. MayFollow length s.subject t.subject t.known) (run newborn calls).sent }
    ensures alone { (length : ℕ) (calls : List Call) → 0 < length → IsLegal length newborn calls
        → All (λ s. MayStand length s.subject s.known) (run newborn calls).sent }
    ensures backed { (w : World) (calls : List Call) → All (IsBacked w) (brought calls)
        → All (λ s. All (IsBacked w) s.known) (run newborn calls).sent }
    ensures honest { (w : World) (calls : List Call) → 0 < w.term_length
        → IsLegal w.term_length newborn calls → All (IsBacked w) (brought calls)
        → IsHonest w (run newborn calls).sent }
{}

/// Where all but f members live such lives on backed certificates, no two backed certificates conflict.
pub fn lives_agree()
    ensures lawful { (w : World) → 0 < w.members → 0 < w.term_length → length w.faulty ≤ max_faulty w.members
        → HonestLive w → IsLawful w }
    ensures agree { (w : World) (a b : Certificate)
        → 0 < w.members → 0 < w.term_length → length w.faulty ≤ max_faulty w.members → HonestLive w
        → IsBacked w a → IsBacked w b → ¬ (Conflict w.term_length a.subject b.subject) }
{}

/// At every moment of its lives, behind whatever calls, a member keeps the invariant.
pub fn lives_keep_the_invariant()
    ensures { (length : ℕ) (calls : List Call) → 0 < length → IsLegal length newborn calls
        → KeepsInvariant (floor_from 0 calls) (run newborn calls) }
{}
