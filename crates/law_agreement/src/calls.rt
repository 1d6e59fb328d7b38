//! Lists of calls.
ghost use Rattle.std.specs.Prelude.{ℕ, ◌≡◌, ◌++◌, List, take, Contains};
ghost use Rattle.law_agreement.specs.World.{Sent};
ghost use Rattle.law_agreement.specs.Member.{Member, Call, run, IsLegal, brought};

/// Legal calls may be cut anywhere and go on with legal ones, and what was sent stays sent.
pub fn calls_compose()
    ensures joined { (length : ℕ) (m : Member) (xs ys : List Call)
        → IsLegal length m xs → IsLegal length (run m xs) ys → IsLegal length m (xs ++ ys) }
    ensures cut { (length : ℕ) (m : Member) (k : ℕ) (xs : List Call)
        → IsLegal length m xs → IsLegal length m (take k xs) }
    ensures runs { (m : Member) (xs ys : List Call) → run m (xs ++ ys) ≡ run (run m xs) ys }
    ensures brought { (xs ys : List Call) → brought (xs ++ ys) ≡ brought xs ++ brought ys }
    ensures sent { (m : Member) (xs : List Call) (s : Sent) → Contains m.sent s
        → Contains (run m xs).sent s }
{}
