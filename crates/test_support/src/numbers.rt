//! Numbers and times that words of scripts name, and the names of payloads.
use crate::reading::number;
use simplex_values::Digest;
use std::alloc::{AllocError, Global};

/// The number below 2^32 that the word is, as members have.
pub fn member(word: &str) -> Option<u32> {
    word.parse::<u32>().ok()
}

/// The time of a line that begins with `at TIME`, else the one that it was; and the words behind it.
pub fn timed<'a>(words: &'a [&'a str], before: u64) -> Option<(u64, &'a [&'a str])> {
    match words {
        ["at", time, words @ ..] => Some((number(time)?, words)),
        _ => Some((before, words)),
    }
}

/// The name of a payload: its byte, where all its bytes are the same.
pub fn payload_text(alloc: Global, payload: &Digest) -> Result<String, AllocError> {
    match payload.0.as_slice() {
        [first, rest @ ..] if rest.iter().all(|byte| byte == first) => {
            format!(in alloc; "{first:02x}")
        }
        _ => format!(in alloc; "{payload}"),
    }
}
