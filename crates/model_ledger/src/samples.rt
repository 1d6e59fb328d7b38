//! Cases that come out as the definitions mean them. Each clause is computed.
#![tactic(auto, unfolding(crate::specs::Computed::ledgers))]

ghost use Rattle.std.specs.Prelude.{◌≡◌, [], ◌∷◌, Ok, Err};
ghost use Rattle.simplex_wire.specs.declared.error.DecodeError.TheVariants.{Fault};
ghost use Rattle.simplex_wire.specs.declared.error.DecodeCause.TheVariants.{Short, LongNumber, Rest};
ghost use Rattle.model_ledger.specs.Balances.{moved, after_all};
ghost use Rattle.model_ledger.specs.Blocks.{decoded};
ghost use Rattle.model_ledger.specs.Samples.{moves};

/// Blocks of bytes, and the faults.
pub fn blocks_come_out()
    ensures one { decoded (1 ∷ 0 ∷ 1 ∷ 10 ∷ []) ≡ Ok (moves 0 1 10 ∷ []) }
    ensures long { decoded (1 ∷ 0 ∷ 1 ∷ 200 ∷ 1 ∷ []) ≡ Ok (moves 0 1 200 ∷ []) }
    ensures none { decoded (0 ∷ []) ≡ Ok [] }
    ensures empty { decoded [] ≡ Err (Fault Short 0) }
    ensures short { decoded (2 ∷ 0 ∷ 1 ∷ 10 ∷ []) ≡ Err (Fault Short 4) }
    ensures long_number { decoded (1 ∷ 128 ∷ 0 ∷ 1 ∷ 10 ∷ []) ≡ Err (Fault LongNumber 1) }
    ensures rest { decoded (0 ∷ 0 ∷ []) ≡ Err (Fault Rest 1) }
{}

/// Transfers that move their amount, and such that do nothing.
pub fn balances_come_out()
    ensures moves { moved (100 ∷ 5 ∷ []) (moves 0 1 10) ≡ 90 ∷ 15 ∷ [] }
    ensures too_much { moved (100 ∷ 5 ∷ []) (moves 0 1 200) ≡ 100 ∷ 5 ∷ [] }
    ensures all { moved (100 ∷ 5 ∷ []) (moves 0 1 100) ≡ 0 ∷ 105 ∷ [] }
    ensures no_sender { moved (100 ∷ 5 ∷ []) (moves 2 1 0) ≡ 100 ∷ 5 ∷ [] }
    ensures no_receiver { moved (100 ∷ 5 ∷ []) (moves 0 2 10) ≡ 100 ∷ 5 ∷ [] }
    ensures itself { moved (100 ∷ 5 ∷ []) (moves 0 0 10) ≡ 100 ∷ 5 ∷ [] }
    ensures in_order { after_all (100 ∷ 5 ∷ []) (moves 1 0 6 ∷ moves 0 1 1 ∷ moves 1 0 6
        ∷ []) ≡ 105 ∷ 0 ∷ [] }
{}
