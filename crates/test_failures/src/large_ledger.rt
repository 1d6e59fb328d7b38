//! A ledger of 65,536 accounts over a thousand blocks of a thousand transfers each.
ghost use Rattle.std.specs.Prelude.{◌≡◌, []};

use model_log::LogEntry;
use sha2::{Digest as Hash, Sha256};
use simplex_ledger::{Blocks, Ledger, Transfer, encode_block};
use simplex_types::{Bytes, Digest, Sequence, View};
use std::alloc::Global;
use std::process::Abort;

fn ledger(rt: &impl Abort, alloc: Global, accounts: &[u64]) -> Ledger
    ensures { result ≡ record { accounts = accounts.now; applied = [] } }
{
    Ledger::new(alloc, accounts).expect(rt, "accounts of a ledger")
}

fn entry(view: u64, payload: Digest) -> LogEntry {
    LogEntry {
        view: View(view),
        parent: View(view.saturating_sub(1)),
        payload,
    }
}

/// The transfer of this number between accounts of a large ledger, one of which may be missing.
fn numbered(number: u64, amount: u64) -> Transfer {
    Transfer {
        from: (number.wrapping_mul(7_919) % 65_537) as u32,
        to: (number.wrapping_mul(104_729) % 65_537) as u32,
        amount,
    }
}

/// The block of this number, with a thousand transfers.
fn large_block(rt: &impl Abort, alloc: Global, number: u64) -> Bytes {
    let mut transfers = Vec::new(alloc);
    for place in 0..1_000_u64 {
        let of_all = number.wrapping_mul(1_000).wrapping_add(place);
        let amount = number.wrapping_add(place) % 1_000;
        transfers
            .push(numbered(of_all, amount))
            .expect(rt, "memory");
    }
    encode_block(alloc, &transfers).expect(rt, "memory")
}

#[test]
#[tactic(auto, using(simplex_ledger::proofs::Extending::none_begins))]
fn a_large_ledger(rt: HostRuntime) {
    let alloc = rt.alloc();
    let mut blocks = Sequence::new(alloc);
    let mut log = Vec::new(alloc);
    for number in 0..1_000_u64 {
        let block = large_block(&rt, alloc, number);
        let payload = Digest(Sha256::digest(block.as_slice()));
        log.push(entry(number.wrapping_add(1), payload))
            .expect(&rt, "memory");
        blocks.push(block).expect(&rt, "memory");
    }
    let blocks = Blocks::new(alloc, blocks).expect(&rt, "blocks of different digests");
    let mut ledger = ledger(&rt, alloc, &[1_000; 65_536]);
    assert!(rt; blocks.covers(&log));
    ledger.extend(alloc, &blocks, &log).expect(&rt, "memory");
    assert!(rt; ledger.height() == 1_000 && ledger.total() == 65_536_000);
    let balances = ledger.balances();
    assert!(rt; balances.get(..3) == Some([1_000, 1_339, 248].as_slice()));
    assert!(rt; balances.last() == Some(&626));
    let mut sum: u64 = 0;
    for balance in balances {
        sum = sum.wrapping_mul(31).wrapping_add(*balance) % (1 << 32);
    }
    assert!(rt; sum == 3_793_982_204);
}
