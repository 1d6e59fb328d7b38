//! Calls of a fetcher with many open views.
ghost use Rattle.std.specs.Prelude.{◌<◌, ◌^◌, OnOk};

use simplex_fetch::{Fetch, FetchConfig, Fetcher, Retire};
use simplex_types::{
    Ask, Bytes, Kind, Outcome, Participant, Resolution, ResolverBody, ResolverMessage, Sequence,
    View,
};
use std::alloc::{AllocError, Global};

/// How many members there are. The fetcher is that of the first.
const MEMBERS: u32 = 100;

/// What a turn calls.
#[derive(Clone, Copy)]
pub enum Work {
    /// `fetch` of one more view, and `retain`.
    Ask,
    /// `hear`, `verdict` and `expire`.
    Answer,
    /// `hear` and `serve`.
    Serve,
    /// `expire`, by one millisecond.
    Expire,
    /// `retain`, which reaches all views and retires no ask.
    Sweep,
}

/// Numbers are left for each call. Where they ran out it is as for want of memory.
fn require_room(fetcher: &Fetcher) -> Result<(), AllocError>
    ensures ids { OnOk result (fetcher.now.next_id < 2 ^ 62) }
    ensures serves { OnOk result (fetcher.now.next_serve < 2 ^ 62) }
{
    if fetcher.has_room() {
        Ok(())
    } else {
        Err(AllocError)
    }
}

/// A notarization of the view, until a finalization.
fn ancestor(view: u32) -> Fetch {
    Fetch {
        view: View(u64::from(view)),
        ask: Ask::ancestry(Kind::Notarization),
    }
}

/// The view is asked for: how much is told.
fn open_one(alloc: Global, fetcher: &mut Fetcher, view: u32, now: u64) -> Result<u64, AllocError>
    requires { now < 2 ^ 63 }
{
    require_room(fetcher)?;
    let outs = fetcher.fetch(alloc, ancestor(view), now)?;
    Ok(outs.len() as u64)
}

/// A fetcher that asks for the first views, view by view and one a millisecond. A peer may be silent, and a view waits,
/// for as many milliseconds as there are views: so in each later millisecond one view is to be looked at.
fn open(alloc: Global, views: u32) -> Result<Fetcher, AllocError> {
    let period = u64::from(views);
    let config = FetchConfig {
        me: Participant(0),
        n: MEMBERS,
        fetch_timeout: period,
        fetch_retry_delay: period,
    };
    let mut fetcher = Fetcher::new(alloc, config);
    for view in 0..views {
        open_one(alloc, &mut fetcher, view, u64::from(view))?;
    }
    Ok(fetcher)
}

/// Asks are retired: how much is told.
fn retain(alloc: Global, fetcher: &mut Fetcher, retire: Retire) -> Result<u64, AllocError> {
    let outs = fetcher.retain(alloc, &retire)?;
    Ok(outs.len() as u64)
}

/// One more view is asked for, and then settled.
fn ask(alloc: Global, fetcher: &mut Fetcher, view: u32) -> Result<u64, AllocError> {
    let asked = open_one(alloc, fetcher, view, 0)?;
    let retire = Retire::Settled {
        kind: Kind::Notarization,
        start: View(u64::from(view)),
        end: View(u64::from(view)),
    };
    let settled = retain(alloc, fetcher, retire)?;
    Ok(asked.saturating_add(settled))
}

/// The bytes of a certificate, which no fetcher reads.
fn certificate(alloc: Global) -> Result<Vec<u8>, AllocError> {
    Ok(Vec::from_slice(alloc, &[7; 32])?)
}

/// The message of this number with such a body is heard: how much is told.
fn hear(
    alloc: Global,
    fetcher: &mut Fetcher,
    sender: Participant,
    id: u32,
    body: ResolverBody,
) -> Result<u64, AllocError> {
    let id = u64::from(id);
    let bytes = ResolverMessage { id, body }.encode(alloc)?;
    require_room(fetcher)?;
    let outs = fetcher.hear(alloc, sender, &bytes, 0)?;
    Ok(outs.len() as u64)
}

/// The peer that the request of this number is open with, where each view makes its attempts in turn.
fn peer_of(id: u32, views: u32) -> Participant
    requires { 0 < views }
{
    let place = u64::from(id % views) + u64::from(id / views);
    Participant((place % u64::from(MEMBERS - 1)) as u32 + 1)
}

/// The clock goes on to this time: how much is told.
fn expire(alloc: Global, fetcher: &mut Fetcher, now: u64) -> Result<u64, AllocError>
    requires { now < 2 ^ 63 }
{
    require_room(fetcher)?;
    let outs = fetcher.expire(alloc, now)?;
    Ok(outs.len() as u64)
}

/// The answer of this number serves in part: how much is told.
fn judge(alloc: Global, fetcher: &mut Fetcher, id: u32) -> Result<u64, AllocError> {
    let verdict = Some(Outcome::Resolved(Resolution::Partial));
    require_room(fetcher)?;
    let outs = fetcher.verdict(alloc, u64::from(id), verdict, 0)?;
    Ok(outs.len() as u64)
}

/// The open request of this number is answered in part, and the view asks the next peer.
fn answer(alloc: Global, fetcher: &mut Fetcher, id: u32, views: u32) -> Result<u64, AllocError>
    requires { 0 < views }
{
    let bytes: Bytes = Sequence::from_vec(certificate(alloc)?);
    let body = ResolverBody::Response { bytes };
    let delivered = hear(alloc, fetcher, peer_of(id, views), id, body)?;
    let judged = judge(alloc, fetcher, id)?;
    let asked = expire(alloc, fetcher, u64::from(views))?;
    Ok(delivered.saturating_add(judged).saturating_add(asked))
}

/// A peer's request is heard and served.
fn serve(alloc: Global, fetcher: &mut Fetcher, id: u32) -> Result<u64, AllocError> {
    let view = View(u64::from(id));
    let wanted = hear(
        alloc,
        fetcher,
        Participant(1),
        id,
        ResolverBody::Request { view },
    )?;
    let bytes = certificate(alloc)?;
    let served = fetcher.serve(alloc, u64::from(id), Some(bytes))?;
    Ok(wanted.saturating_add(served.len() as u64))
}

/// One turn of the work, and how much is told.
fn turn(
    alloc: Global,
    fetcher: &mut Fetcher,
    work: Work,
    views: u32,
    at: u32,
) -> Result<u64, AllocError>
    requires { 0 < views }
{
    match work {
        Work::Ask => ask(alloc, fetcher, views),
        Work::Answer => answer(alloc, fetcher, at, views),
        Work::Serve => serve(alloc, fetcher, at),
        Work::Expire => expire(alloc, fetcher, u64::from(views) + u64::from(at)),
        // Asks until the floor are done with, of which there are none.
        Work::Sweep => retain(alloc, fetcher, Retire::Floor(View(u64::MAX))),
    }
}

/// So many turns of the work with so many views open, and how much was told.
pub fn turns(alloc: Global, work: Work, views: u32, times: u32) -> Result<u64, AllocError>
    requires { 0 < views }
{
    let mut fetcher = open(alloc, views)?;
    let mut told = 0u64;
    for at in 0..times {
        let outs = turn(alloc, &mut fetcher, work, views, at)?;
        told = told.saturating_add(outs);
    }
    Ok(told)
}
