//! Bytes in words: each two digits, and where a byte stands often, how often: `07*32`.
use std::alloc::{AllocError, Global};

/// So many equal bytes are told by how many they are.
const MANY: usize = 3;

/// The byte of a word, and how often it stands.
fn run_of(word: &str) -> Option<(u8, u64)> {
    let (byte, count) = match word.split_once('*') {
        Some((byte, count)) => (byte, count.parse::<u64>().ok()?),
        None => (word, 1),
    };
    Some((u8::from_str_radix(byte, 16).ok()?, count))
}

/// The bytes that the words are, if they are bytes.
pub fn bytes_in(alloc: Global, words: &[&str]) -> Result<Option<Vec<u8>>, AllocError> {
    let mut bytes = Vec::new(alloc);
    for word in words {
        let Some((byte, count)) = run_of(word) else {
            return Ok(None);
        };
        for _ in 0..count {
            bytes.push(byte)?;
        }
    }
    Ok(Some(bytes))
}

/// Adds a byte that stands so often.
fn push_run(alloc: Global, text: &mut String, byte: u8, count: usize) -> Result<(), AllocError> {
    if count >= MANY {
        return text.push_str(format!(in alloc; " {byte:02x}*{count}")?.as_str());
    }
    for _ in 0..count {
        text.push_str(format!(in alloc; " {byte:02x}")?.as_str())?;
    }
    Ok(())
}

/// The bytes in words.
pub fn bytes_text(alloc: Global, bytes: &[u8]) -> Result<String, AllocError> {
    let mut text = String::new(alloc);
    let mut run = 0usize;
    let mut last = 0;
    for &byte in bytes {
        if byte != last {
            push_run(alloc, &mut text, last, run)?;
            run = 0;
        }
        last = byte;
        run = run.saturating_add(1);
    }
    push_run(alloc, &mut text, last, run)?;
    if text.is_empty() {
        return String::from_str(alloc, "no bytes");
    }
    String::from_str(alloc, text.as_str().trim_start())
}
