//! A program over memory, as the tests of several programs need it: its words, what it reads, and where it writes.
#![tactic(auto)]

use simplex_io::{MemorySink, MemorySource};
use std::alloc::{AllocError, Global};

/// What a program over memory takes, where no read and no write fails.
#[derive(Drop)]
pub struct Desk {
    /// Its words.
    pub words: Vec<String>,
    /// What it reads.
    pub source: MemorySource,
    /// Where it writes.
    pub sink: MemorySink,
}

/// These words, each owned.
pub fn words_of(alloc: Global, words: &[&str]) -> Result<Vec<String>, AllocError> {
    let mut owned = Vec::new(alloc);
    for &word in words {
        let word = String::from_str(alloc, word)?;
        owned.push(word)?;
    }
    Ok(owned)
}

/// These words, this input, and nothing written yet.
pub fn desk_of(alloc: Global, words: &[&str], input: &[u8]) -> Result<Desk, AllocError> {
    let words = words_of(alloc, words)?;
    let bytes = input.to_vec(alloc)?;
    Ok(Desk {
        words,
        source: MemorySource::new(bytes, Vec::new(alloc)),
        sink: MemorySink::new(alloc, Vec::new(alloc)),
    })
}
