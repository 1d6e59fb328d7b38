//! Halves that part with the views, without a script.
ghost use Rattle.std.specs.Prelude.{◌≡◌, ◌<◌, IfOk, length};
ghost use Rattle.simplex_twins.specs.Partitions.{cut_at, view_partitions};
ghost use Rattle.simplex_twins.specs.Routes.{view_route};

use crate::scenario::{Partitions, target_of};
use simplex_values::{Participant, SplitTarget, TermLength, View};
use std::alloc::{AllocError, Global};

/// Cuts the list at the place of the first view of the view's term, counted round and round: what is before
/// it talks with the first half of a twin, the rest with the second.
#[tactic(auto, unfolding(crate::specs::Partitions::view_partitions))]
pub fn view_partitions(
    alloc: Global,
    view: View,
    term: TermLength,
    members: &[Participant],
) -> Result<Partitions, AllocError>
    requires { 0 < length members.now }
    ensures { IfOk result (λ parts. (parts.0.items, parts.1.items)
        ≡ view_partitions term view members.now) }
{
    let (first, rest) = members.split_at(cut_at(view, term, members));
    Ok((
        Vec::from_slice(alloc, first)?,
        Vec::from_slice(alloc, rest)?,
    ))
}

/// Which halves of a twin a message of the sender reaches at the view: those in whose parts of
/// [`view_partitions`] it is. One who is not in the list reaches none.
#[tactic(auto, unfolding(crate::specs::Partitions::view_partitions, crate::specs::Routes::view_route))]
pub fn view_route(
    view: View,
    term: TermLength,
    sender: Participant,
    members: &[Participant],
) -> SplitTarget
    requires { 0 < length members.now }
    ensures { result ≡ view_route term view sender members.now }
{
    let (first, rest) = members.split_at(cut_at(view, term, members));
    target_of(first.contains(&sender), rest.contains(&sender))
}

/// The place at which the list is cut.
#[tactic(auto, unfolding(crate::specs::Partitions::cut_at))]
fn cut_at(view: View, term: TermLength, members: &[Participant]) -> usize
    requires { 0 < length members.now }
    ensures cut { result ≡ cut_at term view members.now }
    ensures within { result < length members.now }
{
    view.term_start(term).0 as usize % members.len()
}
