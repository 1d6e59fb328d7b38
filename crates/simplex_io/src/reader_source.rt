//! A reader of the standard library as a source.
ghost use Rattle.std.specs.Prelude.{◌≡◌};

use crate::source::{Source, SourceError};
use std::alloc::Global;
use std::io::{Read, Stdin};

/// A reader as a source. It tells the bytes that the reader tells; of standard input nothing is known. Each
/// error counts as a fault, an interrupted read too, and no read that failed is tried again. [streams-tell-no-bytes]
#[derive(Drop)]
pub struct ReaderSource<R: Read + Drop> {
    alloc: Global,
    reader: R,
    faults: u64,
}

/// Standard input as a source.
pub type StdinSource = ReaderSource<Stdin>;

impl<R: Read + Drop> ReaderSource<R> {
    /// The reader as a source, with no fault yet.
    pub fn new(alloc: Global, reader: R) -> Self
        ensures { ⟦<ReaderSource<R> as Source>⟧.fault_count result ≡ 0 }
    {
        ReaderSource {
            alloc,
            reader,
            faults: 0,
        }
    }
}

impl<R: Read + Drop> Source for ReaderSource<R> {
    ghost left = { λ source. R.remaining source.reader };

    ghost fault_count = { λ source. source.faults };

    fn read(&mut self, max: u32) -> Result<Vec<u8>, SourceError> {
        let Ok(mut bytes) = vec![in self.alloc; 0u8; max as usize] else {
            return Err(SourceError::Memory);
        };
        match self.reader.read(&mut bytes) {
            Ok(n) => {
                bytes.truncate(n);
                Ok(bytes)
            }
            Err(_) => {
                self.faults = self.faults.saturating_add(1);
                Err(SourceError::Failed)
            }
        }
    }

    fn faults(&self) -> u64 {
        self.faults
    }
}
