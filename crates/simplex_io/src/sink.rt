//! Where bytes go.
ghost use Rattle.std.specs.Prelude.{◌≡◌, ◌≤◌, List, ℕ, Option, length, take, IfOk, OnErr, IsErrOf};
ghost use Rattle.simplex_io.specs.Io.{Adds, Stays, Rose};

use thiserror::Error;

/// Why a write took no bytes.
#[derive(Clone, Copy, Debug, PartialEq, Eq, Error)]
pub enum SinkError {
    /// Want of memory.
    #[error("out of memory")]
    Memory,
    /// The sink failed, and its count of faults rose.
    #[error("the write failed")]
    Failed,
}

/// Where bytes go.
pub trait Sink {
    /// The bytes that were written so far, if the sink tells them.
    ghost written: { Self → Option (List ℕ) };

    /// How many writes have failed. The count stops at the greatest `u64`, and rises where one fails
    /// alone.
    ghost fault_count: { Self → ℕ };

    /// Writes the first of the bytes, at least one, and answers how many. A write that fails writes
    /// nothing, and one that could write nothing fails.
    fn write(&mut self, bytes: &[u8]) -> Result<u32, SinkError>
        requires { 1 ≤ length bytes.now }

        ensures some { IfOk result (λ n. 1 ≤ n) }
        ensures within { IfOk result (λ n. n ≤ length bytes.now) }
        ensures bytes { IfOk result (λ n.
            Adds (written self.old) (take n bytes.now) (written self.new)) }
        ensures err { OnErr result (Stays (written self.old) (written self.new)) }

        ensures later { fault_count self.old ≤ fault_count self.new }
        ensures failed { IsErrOf result SinkError.Failed
            → Rose (fault_count self.old) (fault_count self.new) }
        ensures quiet { ¬ IsErrOf result SinkError.Failed
            → fault_count self.new ≡ fault_count self.old };

    /// How many writes have failed.
    fn faults(&self) -> u64
        ensures { result ≡ fault_count self.now };
}
