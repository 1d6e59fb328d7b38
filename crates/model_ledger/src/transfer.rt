//! What a block holds, and what is wrong with a ledger's values.
ghost use Rattle.std.specs.Prelude.{◌≡◌};
ghost use Rattle.model_ledger.specs.declared.transfer.LedgerError.TheVariants.{Memory};

use std::alloc::AllocError;

/// An amount that goes from one account to another.
#[derive(Clone, Copy, Debug, PartialEq, Eq)]
pub struct Transfer {
    /// The account that sends, counted from 0.
    pub from: u32,
    /// The account that receives, counted from 0.
    pub to: u32,
    /// How much goes from the one to the other.
    pub amount: u64,
}

/// Why there is no ledger. Places of blocks count from 0, events from 1.
#[derive(Clone, Copy, Debug, PartialEq, Eq)]
pub enum LedgerError {
    /// There are no accounts, more than 65,536, or their sum passes 2^63.
    BadAccounts,
    /// Two blocks have one digest: of all such pairs the least second place, and then the least first.
    Double { first: u64, second: u64 },
    /// The first event that answers an honest node with a payload, or finds one good, whose block is not there or does not decode.
    BadAnswer { event: u64 },
    /// Out of memory.
    Memory,
}

impl From<AllocError> for LedgerError {
    ghost from_gives = { λ _ e. e ≡ Memory };

    fn from(_e: AllocError) -> LedgerError {
        LedgerError::Memory
    }
}
