//! Gates that hold a thread until another has come as far.
use simplex_threads::Gate;
use std::sync::atomic::{AtomicU64, Ordering};
use std::thread;

/// So often a thread looks whether the other came.
const LOOKS: u32 = 1_000_000;

pub(super) const BATCHER: u32 = 0;

pub(super) const VOTER: u32 = 1;

pub(super) const RESOLVER: u32 = 2;

/// How far the actors have come: the number of the turn before which each stands, and that of the last where it made all.
#[derive(Drop)]
pub(super) struct Progress {
    batcher: AtomicU64,
    voter: AtomicU64,
    resolver: AtomicU64,
    met: AtomicU64,
    gave_up: AtomicU64,
}

impl Progress {
    fn new() -> Progress {
        Progress {
            batcher: AtomicU64::new(0),
            voter: AtomicU64::new(0),
            resolver: AtomicU64::new(0),
            met: AtomicU64::new(0),
            gave_up: AtomicU64::new(0),
        }
    }

    /// How far the batcher, the voter and the resolver came, if each passed the gate before each of its turns.
    pub(super) fn turns(&self) -> (u64, u64, u64) {
        (
            self.batcher.load(Ordering::SeqCst),
            self.voter.load(Ordering::SeqCst),
            self.resolver.load(Ordering::SeqCst),
        )
    }

    /// How many stood at the gate until the one came for whom they waited.
    pub(super) fn met(&self) -> u64 {
        self.met.load(Ordering::SeqCst)
    }

    /// How many waited in vain.
    pub(super) fn gave_up(&self) -> u64 {
        self.gave_up.load(Ordering::SeqCst)
    }

    fn turn_of(&self, who: u32) -> &AtomicU64 {
        if who == BATCHER {
            &self.batcher
        } else if who == VOTER {
            &self.voter
        } else {
            &self.resolver
        }
    }

    /// The actor comes to its next turn. One that leaves out a turn comes no further.
    fn come(&self, who: u32, turn: u64) {
        let last = self.turn_of(who).load(Ordering::SeqCst);
        if last.saturating_add(1) == turn {
            self.turn_of(who).store(turn, Ordering::SeqCst);
        }
    }

    /// Waits until this actor stands before this turn or a later one.
    fn await_turn(&self, who: u32, turn: u64) {
        for _ in 0..LOOKS {
            if self.turn_of(who).load(Ordering::SeqCst) >= turn {
                self.met.fetch_add(1, Ordering::SeqCst);
                return;
            }
            thread::yield_now();
        }
        self.gave_up.fetch_add(1, Ordering::SeqCst);
    }
}

/// Holds the batcher's first turn until the voter comes to its own, and the voter's until the batcher does.
#[derive(Drop)]
pub(super) struct Meets {
    pub(super) progress: Progress,
}

impl Meets {
    pub(super) fn new() -> Meets {
        Meets {
            progress: Progress::new(),
        }
    }
}

impl Gate for Meets {
    fn pass(&self, who: u32, turn: u64) {
        self.progress.come(who, turn);
        if turn == 1 && who == BATCHER {
            self.progress.await_turn(VOTER, 1);
        }
        if turn == 1 && who == VOTER {
            self.progress.await_turn(BATCHER, 1);
        }
    }
}

/// The voter makes a turn, then the batcher, and so on, up to this turn, which nobody waits for.
#[derive(Drop)]
pub(super) struct InStep {
    last: u64,
    pub(super) progress: Progress,
}

impl InStep {
    pub(super) fn new(last: u64) -> InStep {
        InStep {
            last,
            progress: Progress::new(),
        }
    }
}

impl Gate for InStep {
    fn pass(&self, who: u32, turn: u64) {
        self.progress.come(who, turn);
        if turn >= self.last {
            return;
        }
        if who == BATCHER {
            self.progress.await_turn(VOTER, turn + 1);
        }
        if who == VOTER {
            self.progress.await_turn(BATCHER, turn);
        }
    }
}

/// One actor comes to this turn before another makes its first.
#[derive(Drop)]
pub(super) struct Leads {
    who: u32,
    turn: u64,
    pub(super) progress: Progress,
}

impl Leads {
    pub(super) fn new(who: u32, turn: u64) -> Leads {
        Leads {
            who,
            turn,
            progress: Progress::new(),
        }
    }
}

impl Gate for Leads {
    fn pass(&self, who: u32, turn: u64) {
        self.progress.come(who, turn);
        if who != self.who {
            self.progress.await_turn(self.who, self.turn);
        }
    }
}
