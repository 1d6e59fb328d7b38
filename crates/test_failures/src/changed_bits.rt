//! A notarization that three of four members signed, shown by the silent fourth with each of its bits changed in turn: a run for each.
use crate::events::{deliver, node, notarized};
use simplex_messages::{Call, Handed, Outcome, voter};
use simplex_run::run_network;
use simplex_transcript::{Entry, Event, MemberKind, Ref, Setup, Took};
use simplex_types::{BlockCause, Certificate, Channel, Participant, Sequence};
use std::alloc::{AllocError, Global};
use std::process::Abort;

/// Signed by members 0, 1 and 2 for view 1, in 136 bytes: its kind, epoch, view and parent, the payload, how many have signed, and
/// for each of them its number and its signature.
const NOTARIZATION: &str =
    "0000010011111111111111111111111111111111111111111111111111111111111111110300d2c941c6f64abdb55bb8f5fb1d94ca27a549f0af1562158d652c077344de2b1101605fb255a5501dee3cd32ff97500e86eca4187b3daca14fdb387a95d57a12bc202a2e7e558b504bda8cbafd2bb344cbea1fedf990cc0271c0f481b13d8f6006603";

const BITS: usize = 1088;

/// The member that shows the certificate.
const SENDER: Participant = Participant(3);

fn setup(alloc: Global) -> Result<Setup, AllocError> {
    let members = vec![in alloc;
        MemberKind::Honest,
        MemberKind::Honest,
        MemberKind::Honest,
        MemberKind::Silent,
    ]?;
    Ok(Setup::usual(alloc, members))
}

/// The run's events: behind the notarizes the silent member shows member 0 these bytes.
fn events(alloc: Global, bytes: Vec<u8>) -> Result<Vec<Event>, AllocError> {
    let mut events = notarized(alloc)?;
    events.push(Event::Inject {
        member: 3,
        channel: Channel::Certificate,
        to: Sequence::from_vec(vec![in alloc; node(0)]?),
        bytes: Sequence::from_vec(bytes),
    })?;
    events.push(deliver(node(0), 16))?;
    Ok(events)
}

/// The entry of the last event, which makes these calls and puts these messages into mailboxes, and does nothing else.
fn entry(alloc: Global, calls: Vec<Call>, handed: Vec<Handed>) -> Entry {
    Entry {
        event: 17,
        who: Some(node(0)),
        took: Some(Took::Packet(Ref {
            event: 16,
            place: 0,
        })),
        added: Sequence::new(alloc),
        asked: Sequence::new(alloc),
        dropped: Sequence::new(alloc),
        handed: Sequence::from_vec(handed),
        calls: Sequence::from_vec(calls),
        packets: Sequence::new(alloc),
        outcome: Outcome::Done,
    }
}

/// The entry in which the certificate is taken, and handed to the voter.
fn taken(alloc: Global, bytes: &[u8]) -> Result<Entry, AllocError> {
    let mut handed = Vec::new(alloc);
    if let Ok(certificate) = Certificate::decode(alloc, bytes) {
        handed.push(Handed::Voter(voter::Message::Verified { certificate }))?;
    }
    Ok(entry(alloc, Vec::new(alloc), handed))
}

/// The entry in which its sender is blocked for this cause.
fn blocked(alloc: Global, cause: BlockCause) -> Result<Entry, AllocError> {
    let calls = vec![in alloc; Call::Block(SENDER, cause)]?;
    Ok(entry(alloc, calls, Vec::new(alloc)))
}

/// Why the sender is blocked for these bytes, in which the byte at this place was changed to this value.
fn cause_of(place: usize, value: u8) -> BlockCause {
    match (place, value) {
        // the kind: a finalization is read off the same bytes, and nothing else is
        (0, 2) => BlockCause::InvalidCertificate,
        (0, _) => BlockCause::Undecodable,
        // the epoch; from 128 on a number has a second byte, and all that stands after it is read one byte off
        (1, 0..=127) => BlockCause::WrongEpoch,
        (1..=3, 128..) => BlockCause::Undecodable,
        // how many have signed
        (36, _) => BlockCause::Undecodable,
        // the first two signers: the next is no longer above, or a number of several bytes leaves too few for the rest
        (37 | 70, _) => BlockCause::Undecodable,
        // the last signer: it is to be above the one before
        (103, 0 | 128..) => BlockCause::Undecodable,
        // the view, its parent, the payload, another last signer, or a signature
        _ => BlockCause::InvalidCertificate,
    }
}

/// The bytes, with a bit changed, and the byte that has it.
fn changed(alloc: Global, bytes: &[u8], bit: usize) -> Result<(Vec<u8>, u8), AllocError> {
    let mut all = Vec::with_capacity(alloc, bytes.len())?;
    let mut changed = 0;
    for (place, byte) in bytes.iter().enumerate() {
        let mask = if place == bit / 8 {
            1u8 << (bit % 8)
        } else {
            0
        };
        if place == bit / 8 {
            changed = byte ^ mask;
        }
        all.push(byte ^ mask)?;
    }
    Ok((all, changed))
}

/// The run in which these bytes are shown ends in this entry.
fn assert_last(
    rt: &impl Abort,
    alloc: Global,
    case: &str,
    setup: &Setup,
    bytes: Vec<u8>,
    wanted: &Entry,
) {
    let events = events(alloc, bytes).expect(rt, "memory");
    let transcript = run_network(alloc, setup, events.as_slice()).expect(rt, "a whole run");
    let entries = transcript.entries.as_slice();
    assert_eq!(rt; entries.len(), 17, "{case}");
    let last = entries.last().expect(rt, "an entry");
    assert_eq!(rt; last, wanted, "{case}");
}

#[test]
fn a_member_that_changes_a_bit_of_a_certificate_is_blocked(rt: HostRuntime) {
    let alloc = rt.alloc();
    let setup = setup(alloc).expect(&rt, "memory");
    let bytes = hex::decode(alloc, NOTARIZATION).expect(&rt, "hex");
    let wanted = taken(alloc, &bytes).expect(&rt, "memory");
    assert_eq!(rt; wanted.handed.as_slice().len(), 1);
    let whole = bytes.to_vec(alloc).expect(&rt, "memory");
    assert_last(&rt, alloc, "as it is", &setup, whole, &wanted);
    let mut runs = 0u64;
    for bit in 0..BITS {
        let case = format!(in alloc; "bit {bit}").expect(&rt, "memory");
        let (shown, byte) = changed(alloc, &bytes, bit).expect(&rt, "memory");
        let wanted = blocked(alloc, cause_of(bit / 8, byte)).expect(&rt, "memory");
        assert_last(&rt, alloc, case.as_str(), &setup, shown, &wanted);
        runs = runs.saturating_add(1);
    }
    assert_eq!(rt; (runs, bytes.len()), (1088, 136));
}
