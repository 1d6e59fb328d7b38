//! Where bytes come from.
ghost use Rattle.std.specs.Prelude.{◌≡◌, ◌≤◌, List, [], ℕ, Option, IfOk, OnErr, IsErrOf, vec_len};
ghost use Rattle.simplex_io.specs.Io.{Takes, TakesAll, Stays, Rose};

use thiserror::Error;

/// Why a read gave no bytes.
#[derive(Clone, Copy, Debug, PartialEq, Eq, Error)]
pub enum SourceError {
    /// Want of memory.
    #[error("out of memory")]
    Memory,
    /// The source failed, and its count of faults rose.
    #[error("the read failed")]
    Failed,
}

/// Where bytes come from. An empty read is the end. [bytes-untold]
pub trait Source {
    /// The bytes that are still to come, if the source tells them.
    ghost left: { Self → Option (List ℕ) };

    /// How many reads have failed. The count stops at the greatest `u64`, and rises where one fails
    /// alone.
    ghost fault_count: { Self → ℕ };

    /// Takes the next bytes, at most `max`, and none only at the end. A read that fails takes nothing.
    fn read(&mut self, max: u32) -> Result<Vec<u8>, SourceError>
        requires { 1 ≤ max }

        ensures bytes { IfOk result (λ bytes. Takes (left self.old) bytes.items (left self.new)) }
        ensures few { IfOk result (λ bytes. vec_len bytes ≤ max) }
        ensures end { IfOk result (λ bytes. bytes.items ≡ []
            → TakesAll (left self.old) [] (left self.new)) }
        ensures err { OnErr result (Stays (left self.old) (left self.new)) }

        ensures later { fault_count self.old ≤ fault_count self.new }
        ensures failed { IsErrOf result SourceError.Failed
            → Rose (fault_count self.old) (fault_count self.new) }
        ensures quiet { ¬ IsErrOf result SourceError.Failed
            → fault_count self.new ≡ fault_count self.old };

    /// How many reads have failed.
    fn faults(&self) -> u64
        ensures { result ≡ fault_count self.now };
}
