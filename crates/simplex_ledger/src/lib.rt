//! A ledger: accounts, and what the transfers of a finalized log's blocks make of them.
//!
//! A block is bytes that spell transfers ([`decode_block`], [`encode_block`]), and its digest is their SHA-256. [`Blocks`] finds a
//! block by its digest. A [`Ledger`] applies the blocks that a log names, part by part as the log grows.
#![tactic(auto)]

mod applying;
mod block;
mod blocks;
mod index;
mod ledger;

pub use block::{decode_block, encode_block};
pub use blocks::Blocks;
pub use ledger::{Ledger, are_accounts};
pub use model_ledger::{LedgerError, Transfer};
