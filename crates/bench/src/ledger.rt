//! A ledger of 65,536 accounts, over blocks of a thousand transfers.
use model_log::LogEntry;
use sha2::{Digest as Hash, Sha256};
use simplex_ledger::{Blocks, Ledger, LedgerError, Transfer, encode_block};
use simplex_types::{Bytes, Digest, Sequence, View};
use std::alloc::{AllocError, Global};

const ACCOUNTS: usize = 65_536;

const TRANSFERS: u64 = 1_000;

/// The transfer of this number, between accounts that lie far apart.
fn transfer(number: u64) -> Transfer {
    Transfer {
        from: (number.wrapping_mul(7_919) % 65_536) as u32,
        to: (number.wrapping_mul(104_729) % 65_536) as u32,
        amount: number % 1_000,
    }
}

/// The block of this number.
fn block(alloc: Global, number: u64) -> Result<Bytes, AllocError> {
    let mut transfers = Vec::new(alloc);
    for place in 0..TRANSFERS {
        let of_all = number.wrapping_mul(TRANSFERS).wrapping_add(place);
        transfers.push(transfer(of_all))?;
    }
    encode_block(alloc, &transfers)
}

/// The entry of the log that names the block.
fn entry(number: u64, block: &Bytes) -> LogEntry {
    LogEntry {
        view: View(number.saturating_add(1)),
        parent: View(number),
        payload: Digest(Sha256::digest(block.as_slice())),
    }
}

/// So many blocks, and the log that names them.
fn chain(alloc: Global, size: u32) -> Result<(Sequence<Bytes>, Vec<LogEntry>), AllocError> {
    let mut blocks = Sequence::new(alloc);
    let mut log = Vec::new(alloc);
    for number in 0..u64::from(size) {
        let block = block(alloc, number)?;
        log.push(entry(number, &block))?;
        blocks.push(block)?;
    }
    Ok((blocks, log))
}

fn accounts(alloc: Global) -> Result<Vec<u64>, AllocError> {
    let mut accounts = Vec::new(alloc);
    accounts.resize(ACCOUNTS, 1_000)?;
    Ok(accounts)
}

/// A ledger over the whole log, of which each block is there: its height.
fn height(alloc: Global, blocks: &Blocks, log: &[LogEntry]) -> Result<u64, LedgerError> {
    let accounts = accounts(alloc)?;
    let mut ledger = Ledger::new(alloc, &accounts)?;
    if blocks.covers(log) {
        ledger.extend(alloc, blocks, log)?;
    }
    Ok(ledger.height())
}

/// So many ledgers over the same log of so many blocks.
fn heights(alloc: Global, size: u32, times: u32) -> Result<u64, LedgerError> {
    let (blocks, log) = chain(alloc, size)?;
    let blocks = Blocks::new(alloc, blocks)?;
    let mut heights = 0u64;
    for _ in 0..times {
        heights = heights.saturating_add(height(alloc, &blocks, &log)?);
    }
    Ok(heights)
}

/// So many ledgers, each over so many blocks. Where there is none, no height comes out.
pub fn turns(alloc: Global, size: u32, times: u32) -> Result<u64, AllocError> {
    match heights(alloc, size, times) {
        Ok(heights) => Ok(heights),
        Err(LedgerError::Memory) => Err(AllocError),
        Err(_) => Ok(0),
    }
}
