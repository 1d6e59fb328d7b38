//! Values that keep the history of what was done to them.

/// A value that keeps the list of the calls that were made on it.
pub trait Logged<E> {
    ghost use Rattle.std.specs.Prelude.{ℕ, List};

    ghost log: { Self → List E };

    ghost capacity: { Self → ℕ };

    // The number of the pass that made the call.
    ghost caller: { E → ℕ };

    // Which histories a value of this capacity may have.
    ghost legal: { ℕ → List E → Type 0 };
}
