//! The rounds of the views but the current one, and what a vote comes to in a round.
#![tactic(auto, unfolding(crate::specs::Rounds::found, crate::specs::Rounds::round_of, simplex_round::specs::Stands::StandsFor))]

ghost use Rattle.std.specs.Prelude.{◌≡◌, ◌≤◌, ◌==◌, ◌++◌, ℕ, None, Some, false, nat_le, not, ◌&&◌, length, map, if◌then◌else◌, IfOk, OnOk};
ghost use Rattle.std.specs.BTreeMap.Range.{entries_between};
ghost use Rattle.std.specs.List.Sorted.{IsStrictlySortedBy};
ghost use Rattle.std.specs.Map.{keys_of};
ghost use Rattle.std.specs.Ordering.{nat_cmp};
ghost use Rattle.std.specs.declared.ops.Bound.TheVariants.{Included};
ghost use Rattle.simplex_round.specs.Acceptance.{heard, heard_from, has_nullify};
ghost use Rattle.std.specs.Option.{is_some};
ghost use Rattle.model_steps.specs.Batcher.{some_passes};
ghost use Rattle.simplex_batcher.specs.Hearing.{voted, heard_of};
ghost use Rattle.simplex_round.specs.Calls.{AcceptVote, SetLeader, RecordCertificate};
ghost use Rattle.simplex_round.specs.Forwarding.{gives_proposal};
ghost use Rattle.model_steps.specs.Batcher.{RoundHistory, known_in};
ghost use Rattle.simplex_batcher.specs.Rounds.{found, round_of, given, ChangesAt, TakesAt, StaysWithout, AnswersAt, HistoryAnswersAt};

use crate::kept::Kept;
use simplex_round::{Round, RoundOut};
use simplex_types::{Certificate, Participant, Vote};
use std::alloc::{AllocError, Global};
use std::collections::BTreeMap;

/// Rounds by view.
pub(crate) type Others = BTreeMap<u64, Kept>;

/// The view's round takes the leader.
pub(crate) fn set_leader(rounds: &mut Others, view: u64, leader: Participant)
    ensures stands { TakesAt (found rounds.old) (found rounds.new) view (SetLeader leader) }
    ensures none { StaysWithout (found rounds.old) (found rounds.new) view }
{
    if let Some(kept) = rounds.get_mut(&view) {
        kept.round.set_leader(leader);
    }
}

/// The round takes the leader, if there is one.
fn give(round: &mut Round, leader: &Option<Participant>)
    ensures { (history : RoundHistory) → round.old ≡ round_of history
        → round.new ≡ round_of (given leader.now history) }
{
    if let Some(leader) = leader {
        round.set_leader(*leader);
    }
}

/// What came of a vote from the network.
#[derive(Clone, Copy)]
pub(crate) struct Heard {
    /// Whether the vote is accepted.
    pub(crate) accepted: bool,
    /// Whether a nullify of the leader that the round was given is accepted, this vote counted.
    pub(crate) nullified: bool,
}

/// Whether the round accepted a nullify of the member, if there is one.
pub(crate) fn has_nullify_of(round: &Round, member: &Option<Participant>) -> bool
    ensures { (history : RoundHistory) → round.now ≡ round_of history
        → result ≡ some_passes (has_nullify (known_in history)) member.now }
{
    match member {
        None => false,
        Some(member) => round.has_nullify(*member),
    }
}

/// The round takes the leader, if there is one, and a vote from the network.
pub(crate) fn hear(
    round: &mut Round,
    leader: &Option<Participant>,
    sender: Participant,
    vote: &Vote,
    out: &mut RoundOut,
) -> Result<Heard, AllocError>
    ensures stands { OnOk result ((history : RoundHistory) → round.old ≡ round_of history
        → round.new ≡ round_of (voted leader.now sender vote.now history)) }
    ensures answer { IfOk result (λ heard. (history : RoundHistory) → round.old ≡ round_of history
        → heard ≡ heard_of leader.now sender vote.now history) }
    ensures reports { OnOk result ((history : RoundHistory) → round.old ≡ round_of history
        → out.new.reports
        ≡ out.old.reports
        ++ (heard_from (known_in (given leader.now history)) sender vote.now).reports) }
    ensures blocks { OnOk result ((history : RoundHistory) → round.old ≡ round_of history
        → out.new.blocks ≡ out.old.blocks
        ++ (heard_from (known_in (given leader.now history)) sender vote.now).blocks) }
{
    give(round, leader);
    let accepted = round.add_network(sender, *vote, out)?;
    let nullified = has_nullify_of(round, leader);
    Ok(Heard {
        accepted,
        nullified,
    })
}

/// The view's round, if there is one, takes the leader, if there is one, and a vote from the network.
pub(crate) fn add_network(
    rounds: &mut Others,
    view: u64,
    leader: &Option<Participant>,
    sender: Participant,
    vote: &Vote,
    out: &mut RoundOut,
) -> Result<Option<Heard>, AllocError>
    ensures stands { OnOk result (ChangesAt (found rounds.old) (found rounds.new) view
        (voted leader.now sender vote.now)) }
    ensures answer { IfOk result (HistoryAnswersAt (found rounds.old) view
        (λ history. Some (heard_of leader.now sender vote.now history))) }
    ensures reports { OnOk result (HistoryAnswersAt (found rounds.old) view (λ history. out.old.reports
        ++ (heard_from (known_in
        (given leader.now history)) sender vote.now).reports) out.new.reports) }
    ensures blocks { OnOk result (HistoryAnswersAt (found rounds.old) view (λ history. out.old.blocks
        ++ (heard_from (known_in
        (given leader.now history)) sender vote.now).blocks) out.new.blocks) }
    ensures some { IfOk result (λ heard. is_some heard ≡ is_some (found rounds.old view)) }
    ensures none { OnOk result (StaysWithout (found rounds.old) (found rounds.new) view) }
    ensures out { OnOk result (found rounds.old view ≡ None → out.new ≡ out.old) }
{
    match rounds.get_mut(&view) {
        None => Ok(None),
        Some(kept) => {
            let heard = hear(&mut kept.round, leader, sender, vote, out)?;
            Ok(Some(heard))
        }
    }
}

/// The view's round takes an own vote.
pub(crate) fn take_own(
    rounds: &mut Others,
    view: u64,
    vote: Vote,
    out: &mut RoundOut,
) -> Result<(), AllocError>
    ensures stands { OnOk result (TakesAt (found rounds.old)
        (found rounds.new) view (AcceptVote vote)) }
    ensures reports { OnOk result (AnswersAt (found rounds.old) view
        (λ made known. out.old.reports ++ (heard known vote).reports) out.new.reports) }
    ensures blocks { OnOk result (AnswersAt (found rounds.old) view
        (λ made known. out.old.blocks ++ (heard known vote).blocks) out.new.blocks) }
{
    match rounds.get_mut(&view) {
        None => Ok(()),
        Some(kept) => kept.round.accept_vote(vote, out),
    }
}

/// Whether the vote that this came of was accepted: it is reported, and nobody is blocked for it.
pub(crate) fn was_accepted(out: &RoundOut) -> bool
    ensures { result ≡ (not (length out.now.reports == 0) && length out.now.blocks == 0) }
{
    !out.reports.is_empty() && out.blocks.is_empty()
}

/// The view's round takes a certificate: whether it gives the round another proposal than before.
pub(crate) fn record_certificate(
    rounds: &mut Others,
    view: u64,
    alloc: Global,
    certificate: &Certificate,
) -> Result<bool, AllocError>
    ensures stands { OnOk result (TakesAt (found rounds.old) (found rounds.new) view
        (RecordCertificate certificate.now)) }
    ensures answer { IfOk result (AnswersAt (found rounds.old) view
        (λ made known. gives_proposal known certificate.now)) }
{
    match rounds.get_mut(&view) {
        None => Ok(false),
        Some(kept) => kept.round.record_certificate(alloc, certificate),
    }
}

/// Puts a round at a view.
pub(crate) fn put(rounds: &mut Others, view: u64, round: Kept) -> Result<(), AllocError>
    ensures { OnOk result ((q : ℕ)
        → found rounds.new q ≡ (if q == view then Some round else found rounds.old q)) }
{
    rounds.insert(view, round)?;
    Ok(())
}

/// Puts a round at a view, or leaves the view without one.
pub(crate) fn put_back(
    rounds: &mut Others,
    view: u64,
    round: Option<Kept>,
) -> Result<(), AllocError>
    ensures { OnOk result ((q : ℕ)
        → found rounds.new q ≡ (if q == view then round else found rounds.old q)) }
{
    match round {
        None => {
            let _none = rounds.remove(&view);
            Ok(())
        }
        Some(round) => {
            put(rounds, view, round)?;
            Ok(())
        }
    }
}

/// Drops the rounds below a view.
pub(crate) fn drop_below(rounds: &mut Others, least: u64)
    ensures { (q : ℕ) → found rounds.new q ≡ (if nat_le least q then found rounds.old q else None) }
{
    while let Some((first, _)) = rounds.first_key_value() {
        if *first >= least {
            break;
        }
        rounds.pop_first();
    }
}

/// The views from the first of these to the last that have a round, in rising order.
pub(crate) fn views_between(
    alloc: Global,
    rounds: &Others,
    first: u64,
    last: u64,
) -> Result<Vec<u64>, AllocError>
    requires { first ≤ last }
    ensures rising { IsStrictlySortedBy nat_cmp (keys_of rounds.now.entries) }
    ensures views { IfOk result (λ views. views.items
        ≡ map (λ e. e.0) (entries_between nat_cmp (Included first)
        (Included last) rounds.now.entries)) }
{
    rounds
        .range(first..=last)
        .map(|(view, _)| *view)
        .collect(alloc)
}
