//! Who voted for what.
#![tactic(auto, unfolding(crate::specs::Kept::has_cast, crate::specs::Kept::has_pair), using(crate::proofs::Keys::cast_at, crate::proofs::Keys::pair_at))]

ghost use Rattle.std.specs.Prelude.{◌≡◌, ◌==◌, ◌||◌, ◌&&◌, ℕ, List, false, filter, IfOk, OnOk, OnErr};
ghost use Rattle.std.specs.List.{range_with_len};
ghost use Rattle.simplex_recording.specs.Kept.{has_cast, has_pair};
ghost use Rattle.simplex_recording.specs.Recording.{is_for};

use simplex_types::{Digest, Participant, Proposal, View};
use std::alloc::{AllocError, Global};
use std::collections::BTreeSet;

/// Votes for payloads: the view, the payload and the member of each.
pub(crate) type Casts = BTreeSet<(u64, [u8; 32], u32)>;

/// Votes that give views up: the view and the member of each.
pub(crate) type Pairs = BTreeSet<(u64, u32)>;

/// No votes.
pub(crate) fn no_casts(alloc: Global) -> Casts
    ensures { (view : ℕ) (payload : List ℕ) (signer : ℕ)
        → has_cast result view payload signer ≡ false }
{
    BTreeSet::new(alloc)
}

/// No votes.
pub(crate) fn no_pairs(alloc: Global) -> Pairs
    ensures { (view signer : ℕ) → has_pair result view signer ≡ false }
{
    BTreeSet::new(alloc)
}

/// The member voted for the proposal.
pub(crate) fn add_cast(
    casts: &mut Casts,
    proposal: &Proposal,
    by: Participant,
) -> Result<(), AllocError>
    ensures ok { OnOk result ((view : ℕ) (payload : List ℕ) (signer : ℕ) → has_cast casts.new view payload signer
        ≡ (is_for proposal.now by view payload signer || has_cast casts.old view payload signer)) }
    ensures err { OnErr result ((view : ℕ) (payload : List ℕ) (signer : ℕ)
        → has_cast casts.new view payload signer ≡ has_cast casts.old view payload signer) }
{
    casts.insert((proposal.round.view.0, proposal.payload.0, by.0))?;
    Ok(())
}

/// The member gave the view up.
pub(crate) fn add_pair(pairs: &mut Pairs, of: View, by: Participant) -> Result<(), AllocError>
    ensures ok { OnOk result ((view signer : ℕ)
        → has_pair pairs.new view signer
        ≡ ((of == view && by == signer) || has_pair pairs.old view signer)) }
    ensures err { OnErr result ((view signer : ℕ)
        → has_pair pairs.new view signer ≡ has_pair pairs.old view signer) }
{
    pairs.insert((of.0, by.0))?;
    Ok(())
}

/// Those of the first `n` members that voted for the payload in the view, in rising order.
pub(crate) fn signers_of(
    alloc: Global,
    casts: &Casts,
    n: u32,
    view: View,
    payload: &Digest,
) -> Result<Vec<Participant>, AllocError>
    ensures { IfOk result (λ signers. signers.items
        ≡ filter (λ signer. has_cast casts.now view payload.now signer) (range_with_len 0 n)) }
{
    (0..n)
        .filter(|signer| casts.contains(&(view.0, payload.0, *signer)))
        .map(|signer| Participant(signer))
        .collect(alloc)
}

/// Those of the first `n` members that gave the view up, in rising order.
pub(crate) fn signers_at(
    alloc: Global,
    pairs: &Pairs,
    n: u32,
    view: View,
) -> Result<Vec<Participant>, AllocError>
    ensures { IfOk result (λ signers. signers.items
        ≡ filter (λ signer. has_pair pairs.now view signer) (range_with_len 0 n)) }
{
    (0..n)
        .filter(|signer| pairs.contains(&(view.0, *signer)))
        .map(|signer| Participant(signer))
        .collect(alloc)
}
