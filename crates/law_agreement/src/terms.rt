//! The arithmetic of terms.
ghost use Rattle.std.specs.Prelude.{ℕ, ◌≡◌, ◌+◌, ◌*◌, ◌≤◌, ◌<◌, ◌↔◌, min, IsTrue};
ghost use Rattle.simplex_values.specs.Terms.{greatest_view, term_index, term_start, term_end, next_term_start};
ghost use Rattle.simplex_values.specs.Covers.{covers};
ghost use Rattle.law_agreement.specs.Terms.{Covers};

/// Terms follow one another, and a view covers itself and what is left of its term.
#[tactic(auto, unfolding(crate::specs::Opened::terms))]
pub fn terms_hold()
    ensures genesis { (length : ℕ) → 0 < length
        → (term_index length 0 ≡ 0) × (term_start length 0 ≡ 0)
        × (term_end length 0 ≡ 0) × (next_term_start length 0 ≡ 1) }
    ensures place { (length k j : ℕ) → j < length
        → (term_index length (k * length + j + 1) ≡ k + 1)
        × (term_start length (k * length + j + 1) ≡ k * length + 1)
        × (term_end length (k * length + j + 1) ≡ min ((k + 1) * length) greatest_view) }
    ensures start { (length view : ℕ) → 0 < length → term_start length view ≤ view }
    ensures end { (length view : ℕ) → 0 < length → view ≤ greatest_view
        → view ≤ term_end length view }
    ensures next { (length view : ℕ) → 0 < length → term_end length view < greatest_view
        → (next_term_start length view ≡ term_end length view + 1)
        × (term_index length (next_term_start length view) ≡ term_index length view + 1) }
    ensures test { (length u w : ℕ) → IsTrue (covers length u w) ↔ Covers length u w }
    ensures covers { (length u w : ℕ) → 0 < length → w ≤ greatest_view
        → Covers length u w ↔ ((u ≤ w) × (w ≤ term_end length u)) }
    ensures itself { (length u : ℕ) → Covers length u u }
    ensures transitive { (length u w x : ℕ) → Covers length u w
        → Covers length w x → Covers length u x }
    ensures between { (length u w x : ℕ) → 0 < length → Covers length u w
        → u ≤ x → x ≤ w → Covers length u x × Covers length x w }
    ensures join { (length u w x : ℕ) → Covers length u w → Covers length u x
        → w ≤ x → Covers length w x }
    ensures past { (length u w : ℕ) → 0 < length → u ≤ w → ¬ (Covers length u w)
        → next_term_start length u ≤ w }
{}
