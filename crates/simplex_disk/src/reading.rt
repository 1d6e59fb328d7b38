//! Records in the bytes of a file.
ghost use Rattle.std.specs.Prelude.{◌≡◌, ◌≤◌, ◌++◌, IfOk, OnOk, length};
ghost use Rattle.std.specs.Option.{option_map};
ghost use Rattle.simplex_wire.specs.Format.{GivesBy};
ghost use Rattle.simplex_wire.specs.Number.{IsLimit, number_from};
ghost use Rattle.simplex_disk.specs.Chain.{block, taken, walked};
ghost use Rattle.simplex_disk.specs.Reading.{GivesByUnlessMemory};

use simplex_wire::{Artifact, DecodeCause, DecodeError};
use std::alloc::{AllocError, Global};

/// The number of at most `most` at the front, in its shortest form.
#[tactic(auto, unfolding(simplex_wire::specs::Number::number_from), using(simplex_wire::proofs::Numbers::limit_above))]
fn number_at(most: u64, bytes: &[u8]) -> Result<(u64, &[u8]), DecodeError>
    requires { IsLimit most }
    ensures read { GivesBy (λ x. (x.0, x.1.now)) result (number_from 0 most bytes.now) }
    ensures bound { IfOk result (λ x. x.0 ≤ most) }
    ensures shorter { IfOk result (λ x. length x.1.now ≤ length bytes.now) }
{
    let long = DecodeError::Fault {
        cause: DecodeCause::LongNumber,
        place: 0,
    };
    let [byte, rest @ ..] = bytes else {
        return Err(DecodeError::Fault {
            cause: DecodeCause::Short,
            place: 0,
        });
    };
    let byte = *byte;
    if byte < 128 {
        let value = u64::from(byte);
        return if most < value {
            Err(long)
        } else {
            Ok((value, rest))
        };
    }
    if most < 128 {
        return Err(long);
    }
    let (high, rest) = number_at(most / 128, rest)?;
    if high == 0 {
        return Err(long);
    }
    Ok((u64::from(byte - 128) + 128 * high, rest))
}

/// The record behind a gate, and what stands behind it.
#[tactic(auto, unfolding(crate::specs::Chain::block))]
fn block_at(alloc: Global, bytes: &[u8]) -> Result<(Artifact, &[u8]), DecodeError>
    ensures { GivesByUnlessMemory (λ x. (x.0, x.1.now)) result (block bytes.now) }
{
    let (len, rest) = number_at(u64::MAX, bytes)?;
    let len = len as usize;
    if rest.len() < len {
        return Err(DecodeError::Fault {
            cause: DecodeCause::Short,
            place: 0,
        });
    }
    let artifact = Artifact::decode(alloc, &rest[..len])?;
    Ok((artifact, &rest[len..]))
}

/// The record behind the gate at the front, whatever that gate is, and what stands behind it.
#[tactic(auto, unfolding(crate::specs::Chain::taken))]
pub(crate) fn take_record(
    alloc: Global,
    bytes: &[u8],
) -> Result<Option<(Artifact, &[u8])>, AllocError>
    ensures { IfOk result (λ found. option_map (λ x. (x.0, x.1.now)) found ≡ taken bytes.now) }
{
    let [_, rest @ ..] = bytes else {
        return Ok(None);
    };
    match block_at(alloc, rest) {
        Ok(found) => Ok(Some(found)),
        Err(DecodeError::Fault { .. }) => Ok(None),
        Err(DecodeError::Memory) => Err(AllocError),
    }
}

/// Puts so many records from the front behind those that are there, whatever their gates are.
pub(crate) fn walk(
    alloc: Global,
    bytes: &[u8],
    count: u64,
    records: &mut Vec<Artifact>,
) -> Result<(), AllocError>
    ensures { OnOk result (records.new.items ≡ records.old.items ++ walked count bytes.now) }
{
    let mut rest = bytes;
    let mut left = count;
    while left > 0 {
        let Some((artifact, behind)) = take_record(alloc, rest)? else {
            return Ok(());
        };
        records.push(artifact)?;
        rest = behind;
        left -= 1;
    }
    Ok(())
}
