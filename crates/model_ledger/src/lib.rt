//! Accounts over the log, as definitions: blocks of transfers as bytes, what transfers make of balances, and the balances that
//! a log gives.
#![tactic(auto)]

mod laws;
mod samples;
mod transfer;

pub use laws::totals_are_kept;
pub use samples::{balances_come_out, blocks_come_out};
pub use transfer::{LedgerError, Transfer};
