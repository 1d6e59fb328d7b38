//! Members as the bits of a number.
#![tactic(auto, unfolding(crate::specs::Masks::has, crate::specs::Masks::reaches), using(crate::proofs::Bits::no_bits_past))]

ghost use Rattle.std.specs.Prelude.{◌≡◌, ◌<◌, ◌≤◌, ◌+◌, ◌^◌, IfOk};
ghost use Rattle.simplex_twins.specs.Masks.{has, reaches, part, raised};

use simplex_values::Participant;
use std::alloc::{AllocError, Global};

/// Whether the mask has the place.
pub(crate) fn has(mask: u64, place: usize) -> bool
    ensures { result ≡ has mask place }
{
    place < 64 && (mask >> place) % 2 == 1
}

/// Whether the mask has a place that is not below this one.
pub(crate) fn reaches(mask: u64, place: u32) -> bool
    ensures { result ≡ reaches mask place }
{
    place < 64 && (mask >> place) > 0
}

/// The members whose places the mask has, in their order.
pub(crate) fn part(
    alloc: Global,
    mask: u64,
    members: &[Participant],
) -> Result<Vec<Participant>, AllocError>
    ensures { IfOk result (λ found. found.items ≡ part mask members.now) }
{
    members
        .iter()
        .enumerate()
        .filter(|(place, _)| has(mask, *place))
        .map(|(_, member)| *member)
        .collect(alloc)
}

/// The mask that has all of so many places.
#[tactic(auto, using(crate::proofs::Bits::last_mask_is))]
pub(crate) fn last_mask(places: u32) -> u64
    requires some { 0 < places }
    requires most { places ≤ 64 }
    ensures { result + 1 ≡ 2 ^ places }
{
    u64::MAX >> (64 - places)
}

/// The least mask above this one that has the place, which this one has not.
pub(crate) fn raised(mask: u64, place: u32) -> u64
    requires within { place < 64 }
    requires fits { raised mask place < 2 ^ 64 }
    ensures { result ≡ raised mask place }
{
    let bit = 1u64 << place;
    (mask / bit + 1) * bit
}
