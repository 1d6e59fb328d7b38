//! Cases that come out as the formats mean them. Each clause is computed.
#![tactic(auto, unfolding(crate::specs::Number::varint_by, crate::specs::Number::number_from, crate::specs::Certified::is_certified))]

ghost use Rattle.std.specs.Prelude.{◌≡◌, ◌-◌, ◌^◌, [], ◌∷◌, true, false, Ok, Err};
ghost use Rattle.simplex_wire.specs.declared.error.DecodeError.TheVariants.{Fault};
ghost use Rattle.simplex_wire.specs.declared.error.DecodeCause.TheVariants.{LongNumber, Short};
ghost use Rattle.simplex_wire.specs.Number.{varint, number_from};
ghost use Rattle.simplex_wire.specs.Certified.{is_certified};
ghost use Rattle.simplex_wire.specs.Samples.{by, greatest_text};

/// Numbers from the least to the greatest, as they are spelled and read.
pub fn numbers_come_out()
    ensures least { varint 0 ≡ 0 ∷ [] }
    ensures one_byte { varint 127 ≡ 127 ∷ [] }
    ensures two_bytes { varint 300 ≡ 172 ∷ 2 ∷ [] }
    ensures greatest { varint (2 ^ 64 - 1) ≡ greatest_text }
    ensures read_again { number_from 0 (2 ^ 64 - 1) greatest_text ≡ Ok (2 ^ 64 - 1, []) }
    ensures too_large { number_from 0 (2 ^ 32 - 1) greatest_text ≡ Err (Fault LongNumber 0) }
    ensures longer_form { number_from 0 (2 ^ 32 - 1) (128 ∷ 0 ∷ []) ≡ Err (Fault LongNumber 0) }
    ensures cut_short { number_from 0 (2 ^ 32 - 1) (172 ∷ []) ≡ Err (Fault Short 0) }
{}

/// Three of four members are a quorum, two are not, and none of three may be a stranger or fail to verify.
pub fn quorums_come_out()
    ensures quorum { is_certified (λ _. true) 4 (by 0 ∷ by 1 ∷ by 3 ∷ []) ≡ true }
    ensures one_short { is_certified (λ _. true) 4 (by 0 ∷ by 3 ∷ []) ≡ false }
    ensures stranger { is_certified (λ _. true) 4 (by 0 ∷ by 1 ∷ by 4 ∷ []) ≡ false }
    ensures forged { is_certified (λ _. false) 4 (by 0 ∷ by 1 ∷ by 3 ∷ []) ≡ false }
{}
