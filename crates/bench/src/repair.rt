//! A repair state that is given nullifications, far ahead and one by one.
ghost use Rattle.std.specs.Prelude.{◌<◌};

use simplex_repair::RepairState;
use simplex_types::{Certificate, Epoch, Nullification, Round, Signatures, TermLength, View};
use std::alloc::{AllocError, Global};

/// How many views a term has.
const LENGTH: u64 = 5;

/// The first view of the term behind so many.
fn first_view(terms: u32) -> View {
    View(u64::from(terms) * LENGTH + 1)
}

fn nullification(alloc: Global, view: View) -> Certificate {
    Certificate::Nullification(Nullification {
        round: Round {
            epoch: Epoch(0),
            view,
        },
        certificate: Signatures::new(Vec::new(alloc)),
    })
}

/// The nullification of the term comes: how many effects it has.
fn take(alloc: Global, repair: &mut RepairState, term: u32) -> Result<u64, AllocError> {
    let certificate = nullification(alloc, first_view(term));
    let effects = repair.updated(&certificate)?;
    Ok(effects.len() as u64)
}

/// A new state, whose journal was read.
fn start(alloc: Global) -> Result<RepairState, AllocError> {
    let length = TermLength::new(LENGTH).unwrap_or(TermLength::ONE);
    let mut repair = RepairState::new(alloc, length);
    let _gaps = repair.replayed()?;
    Ok(repair)
}

/// A new state is given a nullification that many terms ahead: how many effects it has.
fn jump(alloc: Global, terms: u32) -> Result<u64, AllocError> {
    let mut repair = start(alloc)?;
    take(alloc, &mut repair, terms)
}

/// So many such states.
pub fn jumps(alloc: Global, terms: u32, times: u32) -> Result<u64, AllocError> {
    let mut effects = 0u64;
    for _ in 0..times {
        effects = effects.saturating_add(jump(alloc, terms)?);
    }
    Ok(effects)
}

/// How many bytes are handed out to one who asks for the term's last view.
fn serve(repair: &RepairState, term: u32) -> Result<u64, AllocError> {
    let last = first_view(term).term_end(repair.term_length());
    match repair.produce(last)? {
        Some(bytes) => Ok(bytes.len() as u64),
        None => Ok(0),
    }
}

/// The nullifications of the terms come, one after the other, and each is handed out: the effects, and the bytes.
fn fill(alloc: Global, repair: &mut RepairState, terms: u32, times: u32) -> Result<u64, AllocError>
    requires { 0 < terms }
{
    let mut done = take(alloc, repair, terms)?;
    for at in 0..times {
        let term = at % terms;
        done = done.saturating_add(take(alloc, repair, term)?);
        done = done.saturating_add(serve(repair, term)?);
    }
    Ok(done)
}

/// A state that was given a nullification that many terms ahead is filled.
pub fn fills(alloc: Global, terms: u32, times: u32) -> Result<u64, AllocError>
    requires { 0 < terms }
{
    let mut repair = start(alloc)?;
    fill(alloc, &mut repair, terms, times)
}
