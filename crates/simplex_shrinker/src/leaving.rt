//! Leaves events out.
ghost use Rattle.std.specs.Prelude.{◌≡◌, ◌<◌, ◌≤◌, true, IfOk, length};
ghost use Rattle.simplex_shrinker.specs.Part.{IsPartOf};

use crate::probe::Probe;
use crate::without::without;
use simplex_transcript::Event;
use simplex_types::Sequence;
use std::alloc::{AllocError, Global};

// Leaves out each stretch of this length, the last one first, without which it stays so.
#[tactic(auto, using(crate::proofs::Parts::part_itself, crate::proofs::Parts::part_of_part))]
fn pass<P: Probe>(
    alloc: Global,
    probe: &P,
    events: Sequence<Event>,
    size: usize,
) -> Result<Sequence<Event>, AllocError>
    requires some { 0 < size }
    requires so { P.stays probe.now events ≡ true }
    ensures so { IfOk result (λ left. P.stays probe.now left ≡ true) }
    ensures few { IfOk result (λ left. length left ≤ length events) }
    ensures part { IfOk result (λ left. IsPartOf left events) }
{
    let mut best = events;
    let mut end = best.len();
    while end > 0 {
        let from = end.saturating_sub(size);
        let shorter = without(alloc, best.as_slice(), from, end)?;
        if probe.try_on(alloc, shorter.as_slice())? {
            best = shorter;
        }
        end = from;
    }
    Ok(best)
}

// Leaves out single events until there is none without which it stays so.
#[tactic(auto, using(crate::proofs::Parts::part_itself, crate::proofs::Parts::part_of_part))]
fn settle<P: Probe>(
    alloc: Global,
    probe: &P,
    events: Sequence<Event>,
) -> Result<Sequence<Event>, AllocError>
    requires { P.stays probe.now events ≡ true }
    ensures so { IfOk result (λ left. P.stays probe.now left ≡ true) }
    ensures few { IfOk result (λ left. length left ≤ length events) }
    ensures part { IfOk result (λ left. IsPartOf left events) }
{
    let mut best = events;
    let mut count = best.len();
    loop {
        best = pass(alloc, probe, best, 1)?;
        if best.len() >= count {
            return Ok(best);
        }
        count = best.len();
    }
}

/// The shortest list that is found of which it is so too: some of the events, in their order, under their new numbers.
#[tactic(auto, using(crate::proofs::Parts::part_itself, crate::proofs::Parts::part_of_part))]
pub fn shrink<P: Probe>(
    alloc: Global,
    probe: &P,
    events: Sequence<Event>,
) -> Result<Sequence<Event>, AllocError>
    requires { P.stays probe.now events ≡ true }
    ensures so { IfOk result (λ left. P.stays probe.now left ≡ true) }
    ensures few { IfOk result (λ left. length left ≤ length events) }
    ensures part { IfOk result (λ left. IsPartOf left events) }
{
    let mut best = events;
    let mut size = best.len() / 2;
    while size > 1 {
        best = pass(alloc, probe, best, size)?;
        size /= 2;
    }
    settle(alloc, probe, best)
}
