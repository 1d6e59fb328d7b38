//! What follows from the definitions alone.
ghost use Rattle.std.specs.Prelude.{◌≡◌, ◌-◌, ◌∷◌, ◌++◌, [], List, length};
ghost use Rattle.simplex_shared.specs.declared.op.Op.{Op};
ghost use Rattle.simplex_shared.specs.Calls.{calls_by, places_by};
ghost use Rattle.simplex_shared.specs.History.{caller_of};
ghost use Rattle.simplex_shared.specs.Passes.{Viewer, GoesOn, EndsWith, calls_of, places_of};

/// A history that goes on without a call of a pass has of the pass what the pass has seen, at the same places. One
/// that ends with a call of it has this call more, at its end. So a pass always has just its own calls, each once
/// and in order.
pub fn own_calls_stay_in_order<M>()
    ensures goes_on { (pass : Viewer M) (history : List (Op M)) → GoesOn pass history
        → (calls_by caller_of pass.number history ≡ calls_of pass)
        × (places_by caller_of pass.number 0 history ≡ places_of pass) }
    ensures ends { (pass : Viewer M) (call : Op M) (history : List (Op M)) → caller_of call ≡ pass.number
        → EndsWith pass call history
        → (calls_by caller_of pass.number history ≡ calls_of pass ++ call ∷ [])
        × (places_by caller_of pass.number 0 history
        ≡ places_of pass ++ (length history - 1) ∷ []) }
{}
