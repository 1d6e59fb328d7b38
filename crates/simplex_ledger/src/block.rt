//! A block's bytes.
ghost use Rattle.std.specs.Prelude.{◌≡◌, ◌++◌, ◌<◌, ◌^◌, List, Ok, IfOk, OnOk, length, flat_map};
ghost use Rattle.std.specs.List.{AllByRecursion};
ghost use Rattle.simplex_wire.specs.Format.{Gives, GivesItemsUnlessMemory, IsUnlessMemory, whole};
ghost use Rattle.model_ledger.specs.declared.transfer.Transfer.{Transfer};
ghost use Rattle.model_ledger.specs.Blocks.{transfer, transfers_from, block, decoded};
ghost use Rattle.simplex_ledger.specs.Fits.{FitsBlock, FitsTransfer};

use model_ledger::Transfer;
use simplex_values::{Bytes, Sequence};
use simplex_wire::{DecodeCause, DecodeError, Reader, push_number};
use std::alloc::{AllocError, Global};

#[tactic(auto, unfolding(model_ledger::specs::Blocks::transfer))]
fn read_transfer(reader: &mut Reader<'_>) -> Result<Transfer, DecodeError>
    ensures { Gives reader.new result (transfer.reading reader.old) }
{
    let from = reader.u32()?;
    let to = reader.u32()?;
    let amount = reader.u64()?;
    Ok(Transfer { from, to, amount })
}

fn read_transfers(
    alloc: Global,
    reader: &mut Reader<'_>,
    count: u32,
) -> Result<Vec<Transfer>, DecodeError>
    ensures { GivesItemsUnlessMemory reader.new result (transfers_from count reader.old) }
{
    let mut transfers = Vec::new(alloc);
    for _ in 0..count {
        let transfer = read_transfer(reader)?;
        transfers.push(transfer)?;
    }
    Ok(transfers)
}

#[tactic(auto, unfolding(model_ledger::specs::Blocks::block))]
fn read_block(alloc: Global, reader: &mut Reader<'_>) -> Result<Vec<Transfer>, DecodeError>
    ensures { GivesItemsUnlessMemory reader.new result (block.reading reader.old) }
{
    let count = reader.u32()?;
    read_transfers(alloc, reader, count)
}

fn whole_block(alloc: Global, bytes: &[u8]) -> Result<Sequence<Transfer>, DecodeError>
    ensures { IsUnlessMemory result (whole block bytes.now) }
{
    let mut reader = Reader::new(bytes);
    let transfers = read_block(alloc, &mut reader)?;
    if !reader.is_empty() {
        return Err(reader.fault(DecodeCause::Rest));
    }
    Ok(Sequence::from_vec(transfers))
}

/// The transfers that the bytes spell, all of the bytes. Else the first fault in reading order, and the place of the byte at which
/// the faulty number begins: it is cut off (`Short`), is not in its shortest form or too great (`LongNumber`), or bytes are left
/// behind the last transfer (`Rest`).
pub fn decode_block(alloc: Global, bytes: &[u8]) -> Result<Sequence<Transfer>, DecodeError>
    // What is read is spelled so.
    ensures found { IfOk result (λ transfers. FitsBlock transfers
        × (bytes.now ≡ block.spelling transfers)) }
    // What is spelled so is read.
    ensures only { (transfers : List Transfer) → FitsBlock transfers → bytes.now ≡ block.spelling transfers
        → IsUnlessMemory result (Ok transfers) }
    // Which fault it is, and where.
    ensures exact { IsUnlessMemory result (decoded bytes.now) }
{
    whole_block(alloc, bytes)
}

#[tactic(auto, unfolding(model_ledger::specs::Blocks::transfer))]
fn push_transfer(out: &mut Vec<u8>, written: &Transfer) -> Result<(), AllocError>
    ensures spelled { OnOk result (out.new.items ≡ out.old.items ++ transfer.spelling written.now) }
    ensures fits { OnOk result (FitsTransfer written.now) }
{
    push_number(out, u64::from(written.from))?;
    push_number(out, u64::from(written.to))?;
    push_number(out, written.amount)
}

fn push_transfers(out: &mut Vec<u8>, transfers: &[Transfer]) -> Result<(), AllocError>
    ensures spelled { OnOk result (out.new.items
        ≡ out.old.items ++ flat_map transfer.spelling transfers.now) }
    ensures fits { OnOk result (AllByRecursion FitsTransfer transfers.now) }
{
    for written in transfers {
        push_transfer(out, written)?;
    }
    Ok(())
}

/// The bytes that spell the transfers.
#[tactic(auto, unfolding(model_ledger::specs::Blocks::block))]
pub fn encode_block(alloc: Global, transfers: &[Transfer]) -> Result<Bytes, AllocError>
    ensures spelled { IfOk result (λ bytes. bytes ≡ block.spelling transfers.now) }
    // They are read again.
    ensures again { IfOk result (λ bytes. length transfers.now < 2 ^ 32
        → decoded bytes ≡ Ok transfers.now) }
{
    let mut out = Vec::new(alloc);
    push_number(&mut out, transfers.len() as u64)?;
    push_transfers(&mut out, transfers)?;
    Ok(Bytes::from_vec(out))
}
