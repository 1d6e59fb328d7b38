//! Whom an attempt may ask.
ghost use Rattle.std.specs.Prelude.{◌≡◌, ◌+◌, ◌%◌, ◌<◌, ◌^◌, length, slice_get, Some};
ghost use Rattle.model_resolver.specs.Asks.{holds_member};
ghost use Rattle.model_resolver.specs.Fetcher.{cyclic, unblocked, others_of};
ghost use Rattle.simplex_fetch.specs.Peers.{other_at, behind};

use model_resolver::FetchConfig;
use simplex_types::Participant;
use std::collections::BTreeSet;

/// Whether the member is among the blocked.
pub fn is_among(blocked: &BTreeSet<u32>, member: &Participant) -> bool
    ensures { result ≡ holds_member blocked.now.keys member.now }
{
    blocked.contains(&member.0)
}

/// Takes away the members that are blocked.
pub(crate) fn pass_over(members: &mut Vec<Participant>, blocked: &BTreeSet<u32>)
    ensures { members.new.items ≡ unblocked blocked.now.keys members.old.items }
{
    members.retain(|member| !is_among(blocked, member));
}

/// An item of the list, which goes round.
pub(crate) fn cyclic(list: &[Participant], place: u64) -> Option<Participant>
    ensures { result ≡ cyclic list.now place }
{
    if list.is_empty() {
        return None;
    }
    let at = place % list.len() as u64;
    list.get(at as usize).copied()
}

/// One of the other members that are not blocked, which goes round.
pub(crate) fn cyclic_other(
    config: &FetchConfig,
    blocked: &BTreeSet<u32>,
    view: u64,
    attempts: u64,
) -> Option<Participant>
    requires me { config.now.me < config.now.n }
    ensures { result ≡ cyclic (unblocked blocked.now.keys
        (others_of config.now)) (view + attempts) }
{
    let others = count_unblocked(config, blocked);
    if others == 0 {
        return None;
    }
    let place = sum_modulo(view, attempts, others);
    Some(unblocked_at(config, blocked, place))
}

/// How many other members are not blocked.
#[tactic(auto, unfolding(crate::proofs::Others::taken), using(crate::proofs::Others::length_others))]
fn count_unblocked(config: &FetchConfig, blocked: &BTreeSet<u32>) -> u32
    requires me { config.now.me < config.now.n }
    ensures { result ≡ length (unblocked blocked.now.keys (others_of config.now)) }
{
    let mut others = config.n - 1;
    for member in blocked.iter() {
        if *member < config.n && *member != config.me.0 {
            others -= 1;
        }
    }
    others
}

/// The member at this place among the others that are not blocked.
#[tactic(auto, unfolding(crate::proofs::Others::passed_over), using(crate::proofs::Others::passed_up))]
fn unblocked_at(config: &FetchConfig, blocked: &BTreeSet<u32>, place: u32) -> Participant
    requires me { config.now.me < config.now.n }
    requires within { place < length (unblocked blocked.now.keys (others_of config.now)) }
    ensures { slice_get (unblocked blocked.now.keys (others_of config.now)) place ≡ Some result }
{
    let me = config.me.0;
    let mut peer = other_at(me, place);
    for member in blocked.iter() {
        if peer < *member {
            return Participant(peer);
        }
        if *member != me {
            peer = behind(me, peer);
        }
    }
    Participant(peer)
}

/// The member at this place among the members other than `me`.
fn other_at(me: u32, place: u32) -> u32
    requires { place + 1 < 2 ^ 32 }
    ensures { result ≡ other_at me place }
{
    if place < me { place } else { place + 1 }
}

/// The next member behind this one that is not `me`.
fn behind(me: u32, member: u32) -> u32
    requires { behind me member < 2 ^ 32 }
    ensures { result ≡ behind me member }
{
    let next = member + 1;
    if next == me { next + 1 } else { next }
}

/// The sum modulo a number, also where the sum has no room.
#[tactic(auto, using(crate::proofs::Sums::sum_modulo))]
fn sum_modulo(a: u64, b: u64, n: u32) -> u32
    requires { 0 < n }
    ensures range { result < n }
    ensures value { result ≡ (a + b) % n }
{
    let n = u64::from(n);
    ((a % n + b % n) % n) as u32
}
