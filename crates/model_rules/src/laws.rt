//! What the rules give to the proof of agreement.
ghost use Rattle.std.specs.Prelude.{◌≡◌, ℕ, List, Some};
ghost use Rattle.simplex_wire.specs.declared.vote.Notarize.{Notarize};
ghost use Rattle.simplex_wire.specs.declared.vote.Finalize.{Finalize};
ghost use Rattle.model_rules.specs.Known.{Made, Fact, view_of};
ghost use Rattle.model_rules.specs.Slot.{slot_of};
ghost use Rattle.model_rules.specs.Votes.{notarize_at, finalize_at};
ghost use Rattle.model_rules.specs.Laws.{Notarizable, Finalizable};

/// Each vote is for the slot of its view, and keeps its rule.
pub fn votes_are_sound()
    ensures notarize { (made : Made) (known : List Fact) (view : ℕ) (n : Notarize)
        → notarize_at made known view ≡ Some n
        → (view_of n.proposal ≡ view) × (slot_of known view ≡ Some n.proposal)
        × Notarizable made known n.proposal }
    ensures finalize { (made : Made) (known : List Fact) (view : ℕ) (f : Finalize)
        → finalize_at made known view ≡ Some f
        → (view_of f.proposal ≡ view) × (slot_of known view ≡ Some f.proposal)
        × Finalizable made known view }
{}
