//! Reading a source to its end.
ghost use Rattle.std.specs.Prelude.{◌≡◌, ◌≤◌, ◌+◌, IfOk, IsErrOf, vec_len};
ghost use Rattle.simplex_io.specs.Io.{TakesAll, TakesOver, TakesWithin, Rose};

use crate::source::{Source, SourceError};
use std::alloc::Global;
use thiserror::Error;

/// How many bytes an input may have.
pub const LIMIT: u32 = 67_108_864;

/// Why the input was not read to its end.
#[derive(Clone, Copy, Debug, PartialEq, Eq, Error)]
pub enum InputEnd {
    /// More bytes than [`LIMIT`] were taken.
    #[error("the input is longer than its limit")]
    TooLong,
    /// A read failed.
    #[error("the input could not be read")]
    ReadFault,
    /// Want of memory.
    #[error("out of memory")]
    Memory,
}

impl From<SourceError> for InputEnd {
    ghost use Rattle.simplex_io.specs.Errors.{input_end_of};

    ghost from_gives = { λ error result. result ≡ input_end_of error };

    fn from(error: SourceError) -> InputEnd {
        match error {
            SourceError::Memory => InputEnd::Memory,
            SourceError::Failed => InputEnd::ReadFault,
        }
    }
}

// The most bytes that one read asks for.
const CHUNK: usize = 65_536;

// How many bytes to ask for behind the first ones: one past the limit at most.
fn next_read(limit: u32, read: usize) -> u32
    requires { read ≤ limit }
    ensures some { 1 ≤ result }
    ensures room { read + result ≤ limit + 1 }
{
    let room = limit as usize + 1 - read;
    room.min(CHUNK) as u32
}

/// Reads a source to its end, which comes after at most `limit` bytes. Of a longer input it takes
/// one byte more, and of one that fails what came before.
pub fn read_to_end<S: Source>(
    alloc: Global,
    source: &mut S,
    limit: u32,
) -> Result<Vec<u8>, InputEnd>
    ensures ok { IfOk result (λ bytes.
        TakesAll (S.left source.old) bytes.items (S.left source.new)) }
    ensures within { IfOk result (λ bytes. vec_len bytes ≤ limit) }

    // It is too long exactly where more than the limit was taken, which is never more than one byte more.
    ensures too_long { IsErrOf result InputEnd.TooLong
        → TakesOver limit (S.left source.old) (S.left source.new) }
    ensures not_too_long { ¬ IsErrOf result InputEnd.TooLong
        → TakesWithin limit (S.left source.old) (S.left source.new) }
    ensures one_past { TakesWithin (limit + 1) (S.left source.old) (S.left source.new) }

    ensures failed { IsErrOf result InputEnd.ReadFault
        → Rose (S.fault_count source.old) (S.fault_count source.new) }
    ensures quiet { ¬ IsErrOf result InputEnd.ReadFault
        → S.fault_count source.new ≡ S.fault_count source.old }
    ensures later { S.fault_count source.old ≤ S.fault_count source.new }
{
    let mut input = Vec::new(alloc);
    loop {
        let bytes = source.read(next_read(limit, input.len()))?;
        if bytes.is_empty() {
            return Ok(input);
        }
        if input.len() + bytes.len() > limit as usize {
            return Err(InputEnd::TooLong);
        }
        input
            .extend_from_slice(&bytes)
            .map_err(|_| InputEnd::Memory)?;
    }
}

/// Reads a source to its end, which comes after at most [`LIMIT`] bytes.
pub fn read_bytes<S: Source>(alloc: Global, source: &mut S) -> Result<Vec<u8>, InputEnd>
    ensures ok { IfOk result (λ bytes.
        TakesAll (S.left source.old) bytes.items (S.left source.new)) }
    ensures within { IfOk result (λ bytes. vec_len bytes ≤ LIMIT) }
    ensures too_long { IsErrOf result InputEnd.TooLong
        → TakesOver LIMIT (S.left source.old) (S.left source.new) }
    ensures not_too_long { ¬ IsErrOf result InputEnd.TooLong
        → TakesWithin LIMIT (S.left source.old) (S.left source.new) }
    ensures one_past { TakesWithin (LIMIT + 1) (S.left source.old) (S.left source.new) }

    ensures failed { IsErrOf result InputEnd.ReadFault
        → Rose (S.fault_count source.old) (S.fault_count source.new) }
    ensures quiet { ¬ IsErrOf result InputEnd.ReadFault
        → S.fault_count source.new ≡ S.fault_count source.old }
    ensures later { S.fault_count source.old ≤ S.fault_count source.new }
{
    read_to_end(alloc, source, LIMIT)
}
