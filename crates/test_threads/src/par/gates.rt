//! Gates that hold a worker, and that count.
use simplex_par::Gate;
use std::sync::atomic::{AtomicU64, Ordering};
use std::thread;

/// So often a worker looks whether the other came.
const TURNS: u32 = 1_000_000;

/// Holds one place of a group until another has passed.
#[derive(Drop)]
pub(crate) struct Holds {
    held: u32,
    until: u32,
    passed: AtomicU64,
    gave_up: AtomicU64,
}

impl Holds {
    pub(crate) fn new(held: u32, until: u32) -> Holds {
        Holds {
            held,
            until,
            passed: AtomicU64::new(0),
            gave_up: AtomicU64::new(0),
        }
    }

    /// How many waited in vain.
    pub(crate) fn gave_up(&self) -> u64 {
        self.gave_up.load(Ordering::SeqCst)
    }

    fn await_pass(&self) {
        for _ in 0..TURNS {
            if self.passed.load(Ordering::SeqCst) == 1 {
                return;
            }
            thread::yield_now();
        }
        self.gave_up.fetch_add(1, Ordering::SeqCst);
    }
}

impl Gate for Holds {
    fn pass(&self, who: u32, _turn: u64) {
        if who == self.until {
            self.passed.store(1, Ordering::SeqCst);
        }
        if who == self.held {
            self.await_pass();
        }
    }
}

/// Counts the passes at each place of the groups whose first event has this number, and all others.
#[derive(Drop)]
pub(crate) struct Counts {
    turn: u64,
    first: AtomicU64,
    second: AtomicU64,
    others: AtomicU64,
}

impl Counts {
    pub(crate) fn new(turn: u64) -> Counts {
        Counts {
            turn,
            first: AtomicU64::new(0),
            second: AtomicU64::new(0),
            others: AtomicU64::new(0),
        }
    }

    /// The passes at place 0 and place 1 of the group, and all others.
    pub(crate) fn counted(&self) -> (u64, u64, u64) {
        (
            self.first.load(Ordering::SeqCst),
            self.second.load(Ordering::SeqCst),
            self.others.load(Ordering::SeqCst),
        )
    }
}

impl Gate for Counts {
    fn pass(&self, who: u32, turn: u64) {
        let counter = match who {
            0 if turn == self.turn => &self.first,
            1 if turn == self.turn => &self.second,
            _ => &self.others,
        };
        counter.fetch_add(1, Ordering::SeqCst);
    }
}
