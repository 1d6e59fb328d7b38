//! Where two threads wait for each other, for a while.
use std::sync::atomic::{AtomicU64, Ordering};
use std::thread;

/// So often a thread looks whether the other came.
const TURNS: u32 = 1_000_000;

/// Two threads, of which each tells that it made its call.
#[derive(Drop)]
pub struct Gate {
    leader_called: AtomicU64,
    follower_called: AtomicU64,
    gave_up: AtomicU64,
}

impl Gate {
    /// No thread made its call.
    pub fn new() -> Gate {
        Gate {
            leader_called: AtomicU64::new(0),
            follower_called: AtomicU64::new(0),
            gave_up: AtomicU64::new(0),
        }
    }

    /// The leader made its call, and stays until the follower did.
    pub fn lead(&self) {
        self.leader_called.store(1, Ordering::SeqCst);
        self.await_call(&self.follower_called);
    }

    /// The follower makes its call once the leader did.
    pub fn follow(&self) {
        self.await_call(&self.leader_called);
    }

    /// The follower made its call.
    pub fn followed(&self) {
        self.follower_called.store(1, Ordering::SeqCst);
    }

    /// How many threads waited in vain.
    pub fn gave_up(&self) -> u64 {
        self.gave_up.load(Ordering::SeqCst)
    }

    fn await_call(&self, called: &AtomicU64) {
        for _ in 0..TURNS {
            if called.load(Ordering::SeqCst) == 1 {
                return;
            }
            thread::yield_now();
        }
        self.gave_up.fetch_add(1, Ordering::SeqCst);
    }
}
