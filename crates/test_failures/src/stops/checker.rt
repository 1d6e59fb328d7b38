//! A slow checker of what a run made, apart from the engine: it looks at all pairs, and keeps a journal of each member's votes itself.
use super::kept::Kept;
use super::standing::certified;
use super::world::World;
use model_audit::Verdict;
use simplex_audit::record_of;
use simplex_judge::audit;
use simplex_messages::{Call, Outcome, Stop};
use simplex_transcript::{Entry, Event, Node, Setup};
use simplex_types::{Activity, Channel, Finalization, Proposal, Subject, View, Vote};
use std::alloc::Global;
use std::process::Abort;

/// Whether both views are of one term, and the second is not before the first. Terms begin at view 1.
fn covers(term: u64, first: View, second: View) -> bool {
    let index = |view: View| view.0.saturating_sub(1).checked_div(term);
    index(first) == index(second) && first <= second
}

fn are_rivals(p: &Proposal, q: &Proposal) -> bool {
    p.round.view == q.round.view && p != q
}

/// Whether the second proposal is for a later view than the first, and stands on an earlier one.
fn skips(p: &Proposal, q: &Proposal) -> bool {
    p.round.view < q.round.view && q.parent < p.round.view
}

/// Whether no chain can have both, where the first is at most as late in the order notarize, nullify, finalize.
fn conflict_in_order(term: u64, a: &Subject, b: &Subject) -> bool {
    match (a, b) {
        (Subject::Notarize(p), Subject::Notarize(q)) => are_rivals(p, q),
        (Subject::Notarize(p), Subject::Finalize(q)) => are_rivals(p, q) || skips(q, p),
        (Subject::Nullify(round), Subject::Finalize(q)) => covers(term, round.view, q.round.view),
        (Subject::Finalize(p), Subject::Finalize(q)) => {
            are_rivals(p, q) || skips(p, q) || skips(q, p)
        }
        _ => false,
    }
}

fn conflict(term: u64, a: &Subject, b: &Subject) -> bool {
    conflict_in_order(term, a, b) || conflict_in_order(term, b, a)
}

/// No two certificates that stand in the run and verify conflict.
fn assert_agree(rt: &impl Abort, alloc: Global, case: &str, setup: &Setup, entries: &[Entry]) {
    let found = certified(rt, alloc, setup, entries);
    for (place, a) in found.iter().enumerate() {
        for b in found.iter().skip(place) {
            assert!(rt;
                !conflict(setup.term, a, b),
                "{case}: {a:?} and {b:?} conflict"
            );
        }
    }
}

/// The vote that a call sends, if it sends one.
fn vote_of(call: &Call) -> Option<Vote> {
    match call {
        Call::Send {
            channel: Channel::Vote,
            bytes,
            ..
        } => Vote::decode(bytes.as_slice()).ok(),
        _ => None,
    }
}

/// How many pending records of each section are kept by the stop of an event, where one ended it.
fn kept_by(event: &Event, outcome: Outcome) -> Option<u64> {
    match (outcome, event) {
        (
            Outcome::Cut | Outcome::Journal,
            Event::Start {
                stop: Stop::Cut { keep, .. } | Stop::Fail { keep, .. },
                ..
            }
            | Event::Step {
                stop: Stop::Cut { keep, .. } | Stop::Fail { keep, .. },
                ..
            },
        ) => Some(*keep),
        _ => None,
    }
}

/// Each vote that the node sends stands synced in its journal before it, and follows all that it sent before, over all its lives. In
/// the journal stands what was appended, less what was not synced when a stop came, but for what the stop keeps. No prune fails here.
fn assert_votes(rt: &impl Abort, alloc: Global, case: &str, term: u64, node: Node, world: &World) {
    let mut kept = Kept::new(alloc);
    let mut sent: Vec<Vote> = Vec::new(alloc);
    for (event, entry) in world.happened.iter().zip(world.entries.as_slice()) {
        if entry.who != Some(node) {
            continue;
        }
        for call in entry.calls.as_slice() {
            if let Some(vote) = vote_of(call) {
                assert!(rt; u64::from(vote.signer().0) == node.member, "{case}");
                assert!(rt; kept.has_synced(&vote), "{case}: {vote:?} is stored");
                for earlier in &sent {
                    let (a, b) = (earlier.subject(), vote.subject());
                    assert!(rt;
                        !clash(term, &a, &b),
                        "{case}: {a:?} and {b:?} are of one member"
                    );
                }
                sent.push(vote).expect(rt, "memory");
            }
            kept.note(call).expect(rt, "memory");
        }
        if let Some(keep) = kept_by(event, entry.outcome) {
            kept.stop(keep).expect(rt, "memory");
        }
    }
}

/// Whether no honest member sends votes on both.
fn clash(term: u64, a: &Subject, b: &Subject) -> bool {
    match (a, b) {
        (Subject::Notarize(p), Subject::Notarize(q))
        | (Subject::Finalize(p), Subject::Finalize(q))
        | (Subject::Notarize(p), Subject::Finalize(q))
        | (Subject::Finalize(p), Subject::Notarize(q)) => are_rivals(p, q),
        (Subject::Nullify(round), Subject::Finalize(p))
        | (Subject::Finalize(p), Subject::Nullify(round)) => covers(term, round.view, p.round.view),
        _ => false,
    }
}

/// The record of the run has no fault: in each whole step of a voter the member sends exactly the votes that are due, of which no step
/// of an engine is asked.
fn assert_rules(rt: &impl Abort, alloc: Global, case: &str, setup: &Setup, world: &World) {
    let record = record_of(alloc, world.entries.as_slice()).expect(rt, "memory");
    let verdict = audit(alloc, setup, world.happened.as_slice(), record.as_slice());
    let verdict = verdict.expect(rt, "memory");
    assert_eq!(rt; verdict, Verdict::Sound, "{case}");
}

/// The run's certificates agree, its honest members' votes are stored and follow one another, and each vote that is due is sent.
pub(super) fn assert_sound(
    rt: &impl Abort,
    alloc: Global,
    case: &str,
    setup: &Setup,
    honest: &[Node],
    world: &World,
) {
    assert_agree(rt, alloc, case, setup, world.entries.as_slice());
    for node in honest {
        assert_votes(rt, alloc, case, setup.term, *node, world);
    }
    assert_rules(rt, alloc, case, setup, world);
}

/// The last finalization that the node reported.
pub(super) fn last_final(entries: &[Entry], node: Node) -> Option<&Finalization> {
    let mut last = None;
    for entry in entries {
        if entry.who != Some(node) {
            continue;
        }
        for call in entry.calls.as_slice() {
            if let Call::Report(Activity::Finalization(it)) = call {
                last = Some(it);
            }
        }
    }
    last
}
