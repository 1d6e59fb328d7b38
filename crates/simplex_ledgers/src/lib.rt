//! The ledger of a run: the input with its accounts and blocks, whether its answers are for sound blocks, the lines of each honest
//! node's balances, and the program that writes these.
#![tactic(auto)]

mod answers;
mod end;
mod form;
mod judging;
mod text;
mod work;

pub use answers::check_answers;
pub use end::{LedgerEnd, end_text};
pub use form::{LedgerInput, read_ledger_input};
pub use text::lines;
pub use work::{LedgerDone, LedgerWork, ledger_program};
