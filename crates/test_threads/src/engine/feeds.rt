//! What comes from outside, item by item.
ghost use Rattle.std.specs.Prelude.{◌≡◌, ◌<◌, IfOk};

use super::gates::{BATCHER, InStep, Leads, RESOLVER, VOTER};
use super::member::{for_voter, hear, started};
use super::told::told;
use simplex_messages::StepOut;
use simplex_threads::{AskKind, Delivery, Feed, FeedItem, OpenGate, start_threads};
use simplex_types::{
    Answer, Attestation, Bytes, Certificate, Channel, Digest, Epoch, Keyed, Notarization, Notarize,
    Nullify, Participant, Proposal, ResolverBody, ResolverMessage, Round, Scheme, Sequence,
    Signatures, Subject, View, Vote,
};
use std::alloc::{AllocError, Global};
use std::process::Abort;
use std::test::Fail;

/// The first turns gave this, each told in words.
fn assert_gave(
    rt: &impl Abort,
    alloc: Global,
    case: &str,
    outs: &[StepOut],
    wanted: &[&str],
) -> Result<(), Fail> {
    assert!(rt; outs.len() > wanted.len(), "{case}");
    for (out, words) in outs.iter().zip(wanted) {
        assert_eq!(rt; told(alloc, out)?.as_str(), *words, "{case}");
    }
    Ok(())
}

/// How many turns an actor makes that comes to the one behind these before another makes its first.
fn turns_for(wanted: &[&str]) -> u64 {
    (wanted.len() as u64).saturating_add(1)
}

const NULLIFIES: &str = "append sync vote hand ";

// The engine was started at clock 0, in view 1, whose leader the member is: it was asked to propose.
#[test]
fn a_voter_takes_its_feed(rt: HostRuntime) -> Result<(), Fail> {
    let alloc = rt.alloc();
    let payload = FeedItem::Reply(AskKind::Propose, Answer::Payload(Digest([17; 32])));
    let good = Answer::Verdict(true);
    let table: [(&str, &[FeedItem], &[&str]); 3] = [
        (
            "the view has a second for its proposal, and its nullify is repeated after half a second",
            &[
                FeedItem::Now(999),
                FeedItem::Now(1000),
                FeedItem::Now(1499),
                FeedItem::Now(1500),
            ],
            &["", NULLIFIES, "", "vote hand "],
        ),
        (
            "no proposal comes, which gives the view up at once: the clock does not go back behind that",
            &[
                FeedItem::Now(700),
                FeedItem::Reply(AskKind::Propose, Answer::Closed),
                FeedItem::Now(300),
            ],
            &["", "", NULLIFIES],
        ),
        (
            "an answer to a request that is not open, of another kind, or that was answered",
            &[
                FeedItem::Reply(AskKind::Prepare, Answer::Closed),
                FeedItem::Reply(AskKind::Verify, good),
                FeedItem::Reply(AskKind::Certify, good),
                FeedItem::Reply(AskKind::Propose, good),
                payload,
                payload,
            ],
            &["", "", "", "", "relay append sync vote hand ", ""],
        ),
    ];
    for (case, items, wanted) in table {
        let engine = started(alloc, 1, 0)?;
        let turns = turns_for(wanted);
        let gate = Leads::new(VOTER, turns);
        let run = start_threads(&rt, engine, for_voter(alloc, items)?, turns, &gate)
            .ok()
            .ok_or("a run")?;
        assert_eq!(rt; gate.progress.gave_up(), 0, "{case}");
        assert_gave(&rt, alloc, case, &run.voter, wanted)?;
    }
    Ok(())
}

/// What a packet holds.
#[derive(Clone, Copy)]
enum Load {
    /// No message.
    Noise,
    /// The other member's notarize of a proposal of view 1, whose leader it is.
    Notarize,
    /// A notarization of another proposal of view 1.
    Notarization,
    /// The other member's nullify of view 1.
    Nullify,
    /// A request of the other member for a certificate of view 1.
    Request,
}

const ROUND: Round = Round {
    epoch: Epoch(0),
    view: View(1),
};

fn proposal(payload: u8) -> Proposal {
    Proposal {
        round: ROUND,
        parent: View(0),
        payload: Digest([payload; 32]),
    }
}

/// The signature of one of the two members.
fn attestation(alloc: Global, signer: u32, subject: &Subject) -> Result<Attestation, Fail>
    requires { signer < 2 }
    ensures { IfOk result (λ a. a.signer ≡ signer) }
{
    let scheme = Keyed::new(alloc, 1, 2, Some(Participant(signer)))?;
    let signed = scheme.sign(subject).ok_or("it signs")?;
    let signature = signed.signature;
    Ok(Attestation {
        signer: Participant(signer),
        signature,
    })
}

fn notarize(alloc: Global, payload: u8) -> Result<Vec<u8>, Fail> {
    let scheme = Keyed::new(alloc, 1, 2, Some(Participant(1)))?;
    let vote = Notarize::sign(&scheme, proposal(payload)).ok_or("it signs")?;
    Ok(Vote::Notarize(vote).encode(alloc)?)
}

fn notarization(alloc: Global, payload: u8) -> Result<Vec<u8>, Fail> {
    let proposal = proposal(payload);
    let subject = Subject::Notarize(proposal);
    let first = attestation(alloc, 0, &subject)?;
    let second = attestation(alloc, 1, &subject)?;
    let attestations = vec![in alloc; first, second]?;
    let certificate = Signatures::new(attestations);
    let it = Certificate::Notarization(Notarization {
        proposal,
        certificate,
    });
    Ok(it.encode(alloc)?)
}

fn nullify(alloc: Global) -> Result<Vec<u8>, Fail> {
    let scheme = Keyed::new(alloc, 1, 2, Some(Participant(1)))?;
    let vote = Nullify::sign(&scheme, ROUND).ok_or("it signs")?;
    Ok(Vote::Nullify(vote).encode(alloc)?)
}

fn request(alloc: Global) -> Result<Vec<u8>, AllocError> {
    let body = ResolverBody::Request { view: View(1) };
    ResolverMessage { id: 7, body }.encode(alloc)
}

fn bytes_of(alloc: Global, load: Load) -> Result<Bytes, Fail> {
    let bytes = match load {
        Load::Noise => vec![in alloc; 9u8]?,
        Load::Notarize => notarize(alloc, 17)?,
        Load::Notarization => notarization(alloc, 18)?,
        Load::Nullify => nullify(alloc)?,
        Load::Request => request(alloc)?,
    };
    Ok(Sequence::from_vec(bytes))
}

/// Packets of the other of two members.
fn packets(alloc: Global, loads: &[(Channel, Load)]) -> Result<Vec<Delivery>, Fail> {
    let mut packets = Vec::new(alloc);
    for (channel, load) in loads {
        packets.push(Delivery {
            sender: Participant(1),
            channel: *channel,
            bytes: bytes_of(alloc, *load)?,
        })?;
    }
    Ok(packets)
}

// Before its packets each takes what the start told it, which gives nothing: where the member is, and that its journal was read.
#[test]
fn packets_are_taken(rt: HostRuntime) -> Result<(), Fail> {
    let alloc = rt.alloc();
    // Behind the noise its sender is blocked.
    let by_batcher: [(Channel, Load); 5] = [
        (Channel::Resolver, Load::Request),
        (Channel::Vote, Load::Notarize),
        (Channel::Vote, Load::Noise),
        (Channel::Certificate, Load::Noise),
        (Channel::Vote, Load::Nullify),
    ];
    let wanted = ["", "", "report hand ", "block ", "", ""];
    let turns = turns_for(&wanted);
    let feed = Feed {
        batcher: packets(alloc, &by_batcher)?,
        resolver: Vec::new(alloc),
        voter: Vec::new(alloc),
    };
    let gate = Leads::new(BATCHER, turns);
    let run = start_threads(&rt, started(alloc, 2, 0)?, feed, turns, &gate)
        .ok()
        .ok_or("a run")?;
    assert_eq!(rt; gate.progress.gave_up(), 0);
    assert_gave(&rt, alloc, "the batcher", &run.batcher, &wanted)?;
    let by_resolver: [(Channel, Load); 5] = [
        (Channel::Vote, Load::Notarize),
        (Channel::Certificate, Load::Noise),
        (Channel::Resolver, Load::Request),
        (Channel::Resolver, Load::Noise),
        (Channel::Resolver, Load::Request),
    ];
    // The request goes to the handler, which is served before the next packet: it has no such certificate.
    let wanted = ["", "", "", "hand ", "error ", "block ", ""];
    let turns = turns_for(&wanted);
    let feed = Feed {
        batcher: Vec::new(alloc),
        resolver: packets(alloc, &by_resolver)?,
        voter: Vec::new(alloc),
    };
    let gate = Leads::new(RESOLVER, turns);
    let run = start_threads(&rt, started(alloc, 2, 0)?, feed, turns, &gate)
        .ok()
        .ok_or("a run")?;
    assert_eq!(rt; gate.progress.gave_up(), 0);
    assert_gave(&rt, alloc, "the resolver", &run.resolver, &wanted)
}

// The engine heard noise of the other member before, and blocked it.
#[test]
fn a_member_that_the_engine_blocked_is_not_heard(rt: HostRuntime) -> Result<(), Fail> {
    let alloc = rt.alloc();
    let wanted = ["", "", ""];
    let turns = turns_for(&wanted);
    let votes: [(Channel, Load); 2] = [
        (Channel::Vote, Load::Notarize),
        (Channel::Certificate, Load::Notarization),
    ];
    let requests: [(Channel, Load); 2] = [
        (Channel::Resolver, Load::Request),
        (Channel::Resolver, Load::Noise),
    ];
    for channel in [Channel::Vote, Channel::Certificate, Channel::Resolver] {
        let mut engine = started(alloc, 2, 0)?;
        let noise = bytes_of(alloc, Load::Noise)?;
        hear(alloc, &mut engine, Participant(1), channel, noise)?;
        let feed = Feed {
            batcher: packets(alloc, &votes)?,
            resolver: packets(alloc, &requests)?,
            voter: Vec::new(alloc),
        };
        let run = start_threads(&rt, engine, feed, turns, &OpenGate)
            .ok()
            .ok_or("a run")?;
        assert_gave(&rt, alloc, "the batcher", &run.batcher, &wanted)?;
        assert_gave(&rt, alloc, "the resolver", &run.resolver, &wanted)?;
    }
    Ok(())
}

// The voter learns that the leader's proposal is not the certified one, and blocks it. The batcher is not told.
#[test]
fn whom_the_voter_blocks_meanwhile_the_batcher_hears(rt: HostRuntime) -> Result<(), Fail> {
    let alloc = rt.alloc();
    let by_batcher: [(Channel, Load); 4] = [
        (Channel::Vote, Load::Notarize),
        (Channel::Certificate, Load::Notarization),
        (Channel::Vote, Load::Nullify),
        (Channel::Vote, Load::Nullify),
    ];
    let feed = Feed {
        batcher: packets(alloc, &by_batcher)?,
        resolver: Vec::new(alloc),
        voter: Vec::new(alloc),
    };
    let wanted = ["", "report hand ", "hand ", "report ", ""];
    let turns = turns_for(&wanted);
    let gate = InStep::new(turns);
    let run = start_threads(&rt, started(alloc, 2, 0)?, feed, turns, &gate)
        .ok()
        .ok_or("a run")?;
    assert_eq!(rt; gate.progress.gave_up(), 0);
    assert_gave(&rt, alloc, "the batcher", &run.batcher, &wanted)?;
    // before its fourth turn the batcher heard the certificate, and not the nullify yet
    let blocks = run.voter.get(3).ok_or("a fourth turn")?;
    assert!(rt; told(alloc, blocks)?.as_str().contains("block "));
    Ok(())
}
