//! The clock of a member.
ghost use Rattle.std.specs.Prelude.{◌≡◌, ◌<◌, ◌^◌, IfSome, IfNone};

/// A time in milliseconds, below 2^63: so that no sum of it and a timeout wraps.
#[derive(Clone, Copy, Debug, PartialEq, Eq, PartialOrd, Ord)]
pub struct Time {
    ms: u64,
    ghost in_time: { ms < 2 ^ 63 },
}

impl Time {
    /// The time of so many milliseconds. None from 2^63 on.
    pub fn new(ms: u64) -> Option<Time>
        ensures within { IfSome result (λ time. time.ms ≡ ms) }
        ensures past { IfNone result (ms < 2 ^ 63 → ⊥) }
    {
        if ms < 1 << 63 {
            Some(Time { ms })
        } else {
            None
        }
    }

    /// The time 0.
    pub fn zero() -> Time
        ensures { result.ms ≡ 0 }
    {
        Time { ms: 0 }
    }

    /// Milliseconds.
    pub fn ms(self) -> u64
        ensures same { result ≡ self.ms }
        ensures below { result < 2 ^ 63 }
    {
        self.ms
    }
}
