//! The other members.
ghost use Rattle.std.specs.Prelude.{◌≡◌, ◌++◌, ◌∷◌, [], ℕ, ◌+◌, ◌^◌, ◌<◌, ◌==◌, not, filter, slice_index, IfOk, OnOk};
ghost use Rattle.model_faults.specs.Equivocator.{others_than};

use simplex_types::{Members, Participant};
use std::alloc::{AllocError, Global};

/// The other member of this place, in rising order.
pub(crate) fn other_at(me: Participant, place: u32) -> Participant
    requires { place + 1 < 2 ^ 32 }
    ensures { (n : ℕ) → me < n → place + 1 < n → slice_index (others_than n me) place ≡ result }
{
    if place < me.0 {
        Participant(place)
    } else {
        Participant(place + 1)
    }
}

/// Puts the member last, unless it is one of these two.
fn push_unless(
    others: &mut Members,
    member: u32,
    me: Participant,
    victim: Participant,
) -> Result<(), AllocError>
    ensures { OnOk result (others.new
        ≡ others.old ++ filter
        (λ m. not (m == victim)) (filter (λ m. not (m == me)) (member ∷ []))) }
{
    if member == me.0 || member == victim.0 {
        return Ok(());
    }
    others.push(Participant(member))
}

/// The members below `n` but these two, in rising order.
#[tactic(auto, using(crate::proofs::Without::but_more))]
pub(crate) fn others_but(
    alloc: Global,
    n: u32,
    me: Participant,
    victim: Participant,
) -> Result<Members, AllocError>
    ensures { IfOk result (λ list. list ≡ filter (λ m. not (m == victim)) (others_than n me)) }
{
    let mut others = Members::new(alloc);
    for member in 0..n {
        push_unless(&mut others, member, me, victim)?;
    }
    Ok(others)
}
