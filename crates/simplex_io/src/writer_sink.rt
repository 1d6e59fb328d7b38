//! A writer of the standard library as a sink.
ghost use Rattle.std.specs.Prelude.{◌≡◌, ◌≤◌, length, take};

use crate::sink::{Sink, SinkError};
use std::io::{Stdout, Write};

// The most bytes that one write is given.
const PIECE: usize = 65_536;

// The first bytes, as many as one write is given.
fn first_piece(bytes: &[u8]) -> &[u8]
    ensures few { length result.now ≤ PIECE }
    ensures within { length result.now ≤ length bytes.now }
    ensures first { result.now ≡ take (length result.now) bytes.now }
{
    &bytes[..bytes.len().min(PIECE)]
}

/// A writer as a sink. It tells the bytes that the writer tells; of standard output nothing is known. Each error
/// counts as a fault, an interrupted write too, and so does a write that takes nothing. No write that failed is
/// tried again. [streams-tell-no-bytes]
#[derive(Drop)]
pub struct WriterSink<W: Write + Drop> {
    writer: W,
    faults: u64,
}

/// Standard output as a sink.
pub type StdoutSink = WriterSink<Stdout>;

impl<W: Write + Drop> WriterSink<W> {
    /// The writer as a sink, with no fault yet.
    pub fn new(writer: W) -> Self
        ensures { ⟦<WriterSink<W> as Sink>⟧.fault_count result ≡ 0 }
    {
        WriterSink { writer, faults: 0 }
    }
}

impl<W: Write + Drop> Sink for WriterSink<W> {
    ghost written = { λ sink. W.contents sink.writer };

    ghost fault_count = { λ sink. sink.faults };

    fn write(&mut self, bytes: &[u8]) -> Result<u32, SinkError> {
        match self.writer.write(first_piece(bytes)) {
            Ok(n) if n > 0 => Ok(n as u32),
            _ => {
                self.faults = self.faults.saturating_add(1);
                Err(SinkError::Failed)
            }
        }
    }

    fn faults(&self) -> u64 {
        self.faults
    }
}
