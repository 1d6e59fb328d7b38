//! A source that keeps what is read of it.
ghost use Rattle.std.specs.Prelude.{◌≡◌};

use simplex_io::{Source, SourceError};
use std::alloc::Global;

/// How many bytes are kept at most: the inputs that people write are shorter, and those that programs write need no explanation.
const MOST: usize = 4_194_304;

/// A source, and what was read of it. Of more than 4 MiB, and where memory is short, nothing is kept; what is read stays the same.
#[derive(Drop)]
pub struct KeptSource<S: Source + Drop> {
    source: S,
    kept: Option<Vec<u8>>,
}

impl<S: Source + Drop> KeptSource<S> {
    /// The source, of which nothing was read.
    pub fn new(alloc: Global, source: S) -> Self
        ensures { ⟦<KeptSource<S> as Source>⟧.fault_count result ≡ S.fault_count source }
    {
        KeptSource {
            source,
            kept: Some(Vec::new(alloc)),
        }
    }

    /// What was read, if all of it was kept.
    pub fn bytes(&self) -> Option<&[u8]> {
        match &self.kept {
            Some(kept) => Some(kept.as_slice()),
            None => None,
        }
    }

    /// Keeps these bytes too, if there is room.
    fn keep(&mut self, bytes: &[u8])
        ensures { self.new.source ≡ self.old.source }
    {
        let fits = match &mut self.kept {
            Some(kept) => {
                kept.len().saturating_add(bytes.len()) <= MOST
                    && kept.extend_from_slice(bytes).is_ok()
            }
            None => false,
        };
        if !fits {
            self.kept = None;
        }
    }
}

impl<S: Source + Drop> Source for KeptSource<S> {
    ghost left = { λ kept. S.left kept.source };

    ghost fault_count = { λ kept. S.fault_count kept.source };

    fn read(&mut self, max: u32) -> Result<Vec<u8>, SourceError> {
        let read = self.source.read(max);
        if let Ok(bytes) = &read {
            self.keep(bytes);
        }
        read
    }

    fn faults(&self) -> u64 {
        self.source.faults()
    }
}
