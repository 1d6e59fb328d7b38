//! Blocks that are found by their digests.
ghost use Rattle.std.specs.Prelude.{◌≡◌, ◌↔◌, ◌∷◌, ◌++◌, ◌⊎◌, IsTrue, [], ℕ, List, Some, None, true, length, IfOk, IfErr, OnOk};
ghost use Rattle.sha2.specs.Sha256.{sha256};
ghost use Rattle.model_ledger.specs.declared.transfer.LedgerError.TheVariants.{Double, Memory};
ghost use Rattle.model_ledger.specs.Blocks.{decoded, is_sound, transfers_of};
ghost use Rattle.model_ledger.specs.Doubles.{double_fault, place_from};
ghost use Rattle.model_ledger.specs.Failing.{FailsBy};
ghost use Rattle.simplex_ledger.specs.Book.{AreSound};
ghost use Rattle.simplex_ledger.specs.Decoding.{transfers_if_any};
ghost use Rattle.simplex_ledger.specs.Index.{IsIndexOf};

use crate::block::decode_block;
use crate::index::{Found, Index};
use model_ledger::{LedgerError, Transfer};
use model_log::LogEntry;
use sha2::{Digest as Hash, Sha256};
use simplex_values::{Bytes, Digest, Sequence};
use simplex_wire::DecodeError;
use std::alloc::{AllocError, Global};
use std::marker::Model;

/// Blocks, no two of which have one digest. Contracts see them as the list of their bytes.
#[derive(Debug, Drop)]
pub struct Blocks {
    blocks: Sequence<Bytes>,
    index: Index,
}

impl Model for Blocks {
    ghost use Rattle.std.specs.Prelude.{List, ℕ};
    ghost use Rattle.simplex_ledger.specs.Index.{IsIndexOf};

    ghost Value = { List (List ℕ) };

    ghost view = { λ blocks. blocks.blocks };

    ghost invariant = { λ blocks. IsIndexOf blocks.index blocks.blocks };
}

/// The block's digest.
fn digest_of(bytes: &[u8]) -> [u8; 32]
    ensures { result ≡ sha256 bytes.now }
{
    Sha256::digest(bytes)
}

/// The block's transfers, where it decodes.
fn transfers_in(alloc: Global, bytes: &[u8]) -> Result<Option<Sequence<Transfer>>, AllocError>
    ensures { IfOk result (λ transfers. transfers ≡ transfers_if_any (decoded bytes.now)) }
{
    match decode_block(alloc, bytes) {
        Ok(transfers) => Ok(Some(transfers)),
        Err(DecodeError::Memory) => Err(AllocError),
        Err(DecodeError::Fault { .. }) => Ok(None),
    }
}

/// Takes one more block into the index, whose place is this, where no block in it has its digest.
fn add_block(alloc: Global, index: &mut Index, place: u64, bytes: &[u8]) -> Result<(), LedgerError>
    ensures added { OnOk result ((before : List (List ℕ)) → length before ≡ place → IsIndexOf index.old before
        → IsIndexOf index.new (before ++ bytes.now ∷ [])) }
    ensures first { OnOk result ((before : List (List ℕ)) → IsIndexOf index.old before
        → place_from 0 before (sha256 bytes.now) ≡ None) }
    ensures fault { IfErr result (λ e. (e ≡ Memory) ⊎ ((first : ℕ) × (e ≡ Double first place)
        × ((before : List (List ℕ)) → IsIndexOf index.old before
        → place_from 0 before (sha256 bytes.now) ≡ Some first))) }
{
    let digest = digest_of(bytes);
    if let Some(found) = index.get(&digest) {
        return Err(LedgerError::Double {
            first: found.place,
            second: place,
        });
    }
    let transfers = transfers_in(alloc, bytes)?;
    index.insert(digest, Found { place, transfers })?;
    Ok(())
}

/// The index of the blocks.
fn index_of(alloc: Global, blocks: &[Bytes]) -> Result<Index, LedgerError>
    ensures index { IfOk result (λ index. IsIndexOf index blocks.now) }
    ensures fault { FailsBy (double_fault blocks.now) result }
{
    let mut index = Index::new(alloc);
    for (place, bytes) in blocks.iter().enumerate() {
        add_block(alloc, &mut index, place as u64, bytes.as_slice())?;
    }
    Ok(index)
}

impl Blocks {
    /// Takes the blocks, whose places count from 0. Two of them with one digest are an error.
    pub fn new(alloc: Global, blocks: Sequence<Bytes>) -> Result<Blocks, LedgerError>
        ensures blocks { IfOk result (λ taken. taken ≡ blocks) }
        ensures fault { FailsBy (double_fault blocks) result }
    {
        let index = index_of(alloc, blocks.as_slice())?;
        Ok(Blocks { blocks, index })
    }

    /// Whether a block has this digest and decodes. Takes no memory.
    pub fn sound(&self, digest: &Digest) -> bool
        ensures { result ≡ is_sound self.now digest.now }
    {
        match self.index.get(&digest.0) {
            Some(found) => found.transfers.is_some(),
            None => false,
        }
    }

    /// Whether each payload of the log has a block here that decodes. Takes no memory.
    pub fn covers(&self, log: &[LogEntry]) -> bool
        ensures { IsTrue result ↔ AreSound self.now log.now }
    {
        for entry in log {
            if !self.sound(&entry.payload) {
                return false;
            }
        }
        true
    }

    /// The transfers of the block with this digest. Takes no memory.
    pub fn transfers(&self, digest: &Digest) -> &[Transfer]
        requires { is_sound self.now digest.now ≡ true }
        ensures { result.now ≡ transfers_of self.now digest.now }
    {
        match self.index.get(&digest.0) {
            Some(
                Found {
                    transfers: Some(transfers),
                    ..
                },
            ) => transfers.as_slice(),
            _ => &[],
        }
    }
}
