//! Accounts over the finalized log: blocks of transfers, what they make of the accounts, the lines of a run's members, and the
//! program that writes these.
pub use simplex_ledger::{
    Blocks, Ledger, LedgerError, Transfer, are_accounts, decode_block, encode_block,
};
pub use simplex_ledgers::{
    LedgerDone, LedgerEnd, LedgerInput, LedgerWork, check_answers, end_text, ledger_program, lines,
    read_ledger_input,
};
