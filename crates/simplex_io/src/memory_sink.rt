//! A sink in memory, whose writes fail as it is told.
ghost use Rattle.std.specs.Prelude.{◌≡◌, ◌≤◌, ◌↔◌, Some, [], length, take, IfOk, OnErr, IsErrOf, IsTrue};
ghost use Rattle.simplex_io.specs.Io.{Adds, Stays, Rose};
ghost use Rattle.simplex_io.specs.Memory.{SinkContent, no_calls, next_fails, after_call};

use crate::calls::Calls;
use crate::sink::{Sink, SinkError};
use std::alloc::Global;
use std::marker::Model;

// The most bytes that one write takes, so that a short text too is written in several.
const PIECE: usize = 16;

// The first bytes, as many as one write takes.
fn first_piece(bytes: &[u8]) -> &[u8]
    requires { 1 ≤ length bytes.now }
    ensures some { 1 ≤ length result.now }
    ensures few { length result.now ≤ PIECE }
    ensures within { length result.now ≤ length bytes.now }
    ensures first { result.now ≡ take (length result.now) bytes.now }
{
    &bytes[..bytes.len().min(PIECE)]
}

/// Keeps what is written, up to sixteen bytes at a time. The writes whose numbers are listed fail; the
/// first write has number 1.
#[derive(Drop)]
pub struct MemorySink {
    bytes: Vec<u8>,
    writes: Calls,
}

impl Model for MemorySink {
    ghost Value = { SinkContent };

    ghost view = { λ sink. record { written = sink.bytes.items; writes = sink.writes } };
}

impl MemorySink {
    /// A sink with nothing written, of which these writes will fail.
    pub fn new(alloc: Global, failing: Vec<u64>) -> Self
        ensures { result ≡ record { written = []; writes = no_calls failing.items } }
    {
        MemorySink {
            bytes: Vec::new(alloc),
            writes: Calls::new(failing),
        }
    }

    /// What was written.
    pub fn bytes(&self) -> &[u8]
        ensures { result.now ≡ self.now.written }
    {
        &self.bytes
    }
}

impl Sink for MemorySink {
    ghost written = { λ sink. Some sink.written };

    ghost fault_count = { λ sink. sink.writes.faults };

    fn write(&mut self, bytes: &[u8]) -> Result<u32, SinkError>
        requires { 1 ≤ length bytes.now }

        ensures some { IfOk result (λ n. 1 ≤ n) }
        ensures within { IfOk result (λ n. n ≤ length bytes.now) }
        ensures bytes { IfOk result (λ n.
            Adds (Some self.old.written) (take n bytes.now) (Some self.new.written)) }
        ensures err { OnErr result (Stays (Some self.old.written) (Some self.new.written)) }

        ensures later { self.old.writes.faults ≤ self.new.writes.faults }
        ensures failed { IsErrOf result SinkError.Failed
            → Rose self.old.writes.faults self.new.writes.faults }
        ensures quiet { ¬ IsErrOf result SinkError.Failed
            → self.new.writes.faults ≡ self.old.writes.faults }

        // It fails exactly where it was told to.
        ensures listed { IsErrOf result SinkError.Failed ↔ IsTrue (next_fails self.old.writes) }
        ensures counted { self.new.writes ≡ after_call self.old.writes }
    {
        if self.writes.next_fails() {
            return Err(SinkError::Failed);
        }
        let first = first_piece(bytes);
        self.bytes
            .extend_from_slice(first)
            .map_err(|_| SinkError::Memory)?;
        Ok(first.len() as u32)
    }

    fn faults(&self) -> u64 {
        self.writes.faults()
    }
}
