//! Where those sleep whose turn is not near.
use std::sync::Wait;
use std::sync::atomic::{AtomicU64, Ordering};

/// So many bells there are. Tickets that are so far apart have the same one.
const BELLS: u64 = 8;

/// Someone sleeps at the bell, or is about to.
const AWAITED: u64 = 1;

/// A bell for each ticket, so that who passes the turn wakes the next one alone. Nothing is promised of them: a ring
/// may come for no reason.
#[derive(Drop)]
pub struct Bells {
    bells: [AtomicU64; 8],
}

impl Bells {
    /// Nobody sleeps.
    pub fn new() -> Bells {
        Bells {
            bells: [
                AtomicU64::new(0),
                AtomicU64::new(0),
                AtomicU64::new(0),
                AtomicU64::new(0),
                AtomicU64::new(0),
                AtomicU64::new(0),
                AtomicU64::new(0),
                AtomicU64::new(0),
            ],
        }
    }

    /// Tells that one is about to sleep at the bell of its ticket. It looks once more whether its turn came, and then
    /// calls `sleep`.
    pub fn announce(&self, ticket: u64) {
        self.bell(ticket).store(AWAITED, Ordering::SeqCst);
    }

    /// Sleeps until the bell of this ticket rings, if it did not since `announce`.
    pub fn sleep<R: Wait>(&self, rt: &R, ticket: u64) {
        self.bell(ticket).park(rt, AWAITED as u32);
    }

    /// Wakes those who sleep at the bell of this ticket. Call it once the turn has passed to it.
    pub fn ring(&self, ticket: u64) {
        let bell = self.bell(ticket);
        if bell.load(Ordering::SeqCst) == AWAITED {
            bell.store(0, Ordering::SeqCst);
            bell.wake_all();
        }
    }

    fn bell(&self, ticket: u64) -> &AtomicU64 {
        &self.bells[(ticket % BELLS) as usize]
    }
}
