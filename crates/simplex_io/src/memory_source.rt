//! A source in memory, whose reads fail as it is told.
ghost use Rattle.std.specs.Prelude.{◌≡◌, ◌≤◌, ◌+◌, ◌↔◌, ◌++◌, Some, [], length, take, drop, vec_len, IfOk, OnErr, IsErrOf, IsTrue};
ghost use Rattle.simplex_io.specs.Io.{Takes, TakesAll, Stays, Rose};
ghost use Rattle.simplex_io.specs.Memory.{SourceContent, no_calls, next_fails, after_call};

use crate::calls::Calls;
use crate::source::{Source, SourceError};
use std::marker::Model;

// The most bytes that one read gives, so that a long input comes in several reads.
const PIECE: usize = 4096;

// The n bytes from a place on.
fn piece(bytes: &[u8], at: usize, n: usize) -> &[u8]
    requires { at + n ≤ length bytes.now }
    ensures piece { result.now ≡ take n (drop at bytes.now) }
    ensures rest { drop at bytes.now ≡ result.now ++ drop (at + n) bytes.now }
{
    &bytes[at..at + n]
}

/// Bytes to be read, up to 4,096 at a time. The reads whose numbers are listed fail; the first read has
/// number 1.
#[derive(Drop)]
pub struct MemorySource {
    bytes: Vec<u8>,
    at: usize,
    reads: Calls,
}

impl Model for MemorySource {
    ghost Value = { SourceContent };

    ghost view = { λ source. record { left = drop source.at source.bytes.items; reads = source.reads } };

    ghost invariant = { λ source. source.at ≤ vec_len source.bytes };
}

impl MemorySource {
    /// A source of these bytes, of which these reads will fail.
    pub fn new(bytes: Vec<u8>, failing: Vec<u64>) -> Self
        ensures { result ≡ record { left = bytes.items; reads = no_calls failing.items } }
    {
        MemorySource {
            bytes,
            at: 0,
            reads: Calls::new(failing),
        }
    }
}

impl Source for MemorySource {
    ghost left = { λ source. Some source.left };

    ghost fault_count = { λ source. source.reads.faults };

    fn read(&mut self, max: u32) -> Result<Vec<u8>, SourceError>
        requires { 1 ≤ max }

        ensures bytes { IfOk result
            (λ bytes. Takes (Some self.old.left) bytes.items (Some self.new.left)) }
        ensures few { IfOk result (λ bytes. vec_len bytes ≤ max) }
        ensures end { IfOk result (λ bytes. bytes.items ≡ []
            → TakesAll (Some self.old.left) [] (Some self.new.left)) }
        ensures err { OnErr result (Stays (Some self.old.left) (Some self.new.left)) }

        ensures later { self.old.reads.faults ≤ self.new.reads.faults }
        ensures failed { IsErrOf result SourceError.Failed
            → Rose self.old.reads.faults self.new.reads.faults }
        ensures quiet { ¬ IsErrOf result SourceError.Failed
            → self.new.reads.faults ≡ self.old.reads.faults }

        // It fails exactly where it was told to.
        ensures listed { IsErrOf result SourceError.Failed ↔ IsTrue (next_fails self.old.reads) }
        ensures counted { self.new.reads ≡ after_call self.old.reads }
    {
        if self.reads.next_fails() {
            return Err(SourceError::Failed);
        }
        let left = self.bytes.len() - self.at;
        let n = left.min(max as usize).min(PIECE);
        let bytes = piece(&self.bytes, self.at, n)
            .to_vec(*self.bytes.allocator())
            .map_err(|_| SourceError::Memory)?;
        self.at += n;
        Ok(bytes)
    }

    fn faults(&self) -> u64 {
        self.reads.faults()
    }
}
