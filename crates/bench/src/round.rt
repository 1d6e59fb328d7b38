//! Rounds that are given all votes, and make their certificates.
ghost use Rattle.std.specs.Prelude.{◌<◌};

use simplex_round::{Batch, Round, RoundOut};
use simplex_types::{
    Digest, Epoch, Finalize, Keyed, Notarize, Nullify, Participant, Proposal, Round as ViewRound,
    View, Vote, quorum,
};
use std::alloc::{AllocError, Global};

/// What every key is made from.
const KEY_BASE: u64 = 1;

fn round_of(view: u64) -> ViewRound {
    ViewRound {
        epoch: Epoch(3),
        view: View(view),
    }
}

/// The proposal of view 300.
fn proposal() -> Proposal {
    Proposal {
        round: round_of(300),
        parent: View(299),
        payload: Digest([17; 32]),
    }
}

/// All members' votes: view 300 is notarized and finalized, and view 301 is given up.
#[derive(Drop)]
struct Votes {
    kept: Vec<Vote>,
    given_up: Vec<Vote>,
}

impl Votes {
    /// The member's votes stand behind the others.
    fn sign(&mut self, scheme: &Keyed) -> Result<(), AllocError> {
        if let Some(vote) = Notarize::sign(scheme, proposal()) {
            self.kept.push(Vote::Notarize(vote))?;
        }
        if let Some(vote) = Finalize::sign(scheme, proposal()) {
            self.kept.push(Vote::Finalize(vote))?;
        }
        if let Some(vote) = Nullify::sign(scheme, round_of(301)) {
            self.given_up.push(Vote::Nullify(vote))?;
        }
        Ok(())
    }
}

fn signed_votes(alloc: Global, members: u32) -> Result<Votes, AllocError>
    requires { 0 < members }
{
    let mut votes = Votes {
        kept: Vec::new(alloc),
        given_up: Vec::new(alloc),
    };
    for member in 0..members {
        let scheme = Keyed::new(alloc, KEY_BASE, members, Some(Participant(member)))?;
        votes.sign(&scheme)?;
    }
    Ok(votes)
}

/// The round takes these votes, each from its signer: how many it accepts.
fn hear_each(round: &mut Round, votes: &[Vote], out: &mut RoundOut) -> Result<u64, AllocError> {
    let mut accepted = 0u64;
    for vote in votes {
        let is_new = round.add_network(vote.signer(), *vote, out)?;
        accepted = accepted.saturating_add(u64::from(is_new));
    }
    Ok(accepted)
}

/// The round takes the leader and these votes: how many it accepts.
fn take(alloc: Global, round: &mut Round, votes: &[Vote]) -> Result<u64, AllocError> {
    let mut out = RoundOut::new(alloc);
    round.set_leader(Participant(0));
    hear_each(round, votes, &mut out)
}

/// How many certificates are in it.
fn certificates(batch: &Option<Batch>) -> u64 {
    match batch {
        Some(batch) if batch.certificate.is_some() => 1,
        _ => 0,
    }
}

/// How many certificates the round makes.
fn make(alloc: Global, round: &mut Round, scheme: &Keyed) -> Result<u64, AllocError> {
    let mut made = 0u64;
    for _ in 0..3 {
        let batch = round.try_construct(alloc, scheme)?;
        made = made.saturating_add(certificates(&batch));
    }
    Ok(made)
}

/// How many of these votes the round accepts and, where it makes them, how many certificates come out.
fn work(
    alloc: Global,
    round: &mut Round,
    scheme: &Keyed,
    votes: &[Vote],
    makes: bool,
) -> Result<u64, AllocError> {
    let taken = take(alloc, round, votes)?;
    if !makes {
        return Ok(taken);
    }
    make(alloc, round, scheme)
}

/// The same of the view's round, which is made for it.
fn view(
    alloc: Global,
    scheme: &Keyed,
    of: ViewRound,
    members: u32,
    votes: &[Vote],
    makes: bool,
) -> Result<u64, AllocError>
    requires { 0 < members }
{
    let mut round = Round::new(alloc, of, members, quorum(members), true)?;
    work(alloc, &mut round, scheme, votes, makes)
}

/// The same of both views.
fn turn(
    alloc: Global,
    scheme: &Keyed,
    members: u32,
    votes: &Votes,
    makes: bool,
) -> Result<u64, AllocError>
    requires { 0 < members }
{
    let kept = view(alloc, scheme, round_of(300), members, &votes.kept, makes)?;
    let given_up = view(
        alloc,
        scheme,
        round_of(301),
        members,
        &votes.given_up,
        makes,
    )?;
    Ok(kept.saturating_add(given_up))
}

/// The same of so many turns.
pub fn turns(alloc: Global, makes: bool, members: u32, times: u32) -> Result<u64, AllocError>
    requires { 0 < members }
{
    let votes = signed_votes(alloc, members)?;
    let scheme = Keyed::new(alloc, KEY_BASE, members, None)?;
    let mut done = 0u64;
    for _ in 0..times {
        let made = turn(alloc, &scheme, members, &votes, makes)?;
        done = done.saturating_add(made);
    }
    Ok(done)
}
