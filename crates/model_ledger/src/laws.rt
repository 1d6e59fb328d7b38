//! What transfers keep.
ghost use Rattle.std.specs.Prelude.{◌≡◌, ℕ, List, length, sum};
ghost use Rattle.model_log.specs.declared.entry.LogEntry.{LogEntry};
ghost use Rattle.model_ledger.specs.Ledger.{balances_at};

/// At each height of a log the total is that of the accounts that were given, and so is the number of accounts.
pub fn totals_are_kept()
    ensures total { (blocks : List (List ℕ)) (accounts : List ℕ) (log : List LogEntry) (height : ℕ)
        → sum (balances_at blocks accounts log height) ≡ sum accounts }
    ensures count { (blocks : List (List ℕ)) (accounts : List ℕ) (log : List LogEntry) (height : ℕ)
        → length (balances_at blocks accounts log height) ≡ length accounts }
{}
