//! What a record has of a run, and what is said of it.
use model_rules::Asked;
use simplex_messages::Outcome;
use simplex_transcript::{Node, Packet, Ref};
use simplex_types::{
    Answer, Artifact, Bytes, Certificate, Channel, Proposal, Round, Sequence, TimeoutReason,
};

/// What a node took: mail of the voter by its content.
#[derive(Debug, PartialEq, Eq, Drop)]
pub enum AuditTook {
    /// It took nothing.
    Nothing,
    /// A packet, by the event that sent it and its place there.
    Packet(Ref),
    /// A proposal of a leader.
    Proposal(Proposal),
    /// A timeout of a view.
    Timeout(Round, TimeoutReason),
    /// A certificate that was verified.
    Certificate(Certificate),
    /// A message that is not for the voter.
    OtherMail,
    /// An answer, and the request that it is for.
    Request(Ref, Answer),
    /// The clock, at a deadline.
    Timer,
    /// The floor of a start.
    Floor,
}

/// A call outside.
#[derive(Debug, PartialEq, Eq, Drop)]
pub enum AuditCall {
    /// A record was appended to a section of the journal.
    Append(u64, Artifact),
    /// A section of the journal was synced.
    Sync(u64),
    /// The sections of the journal below this one were dropped.
    Prune(u64),
    /// Bytes were sent by a channel.
    Send(Channel, Bytes),
    /// A certificate was reported; a certification as its notarization.
    Report(Certificate),
    /// Any other call.
    Other,
}

/// What a record has of an event: an entry without the messages that were put into mailboxes.
#[derive(Debug, PartialEq, Eq, Drop)]
pub struct AuditEntry {
    /// The event's number, from 1.
    pub event: u64,
    /// The node that the event names: none for a tick.
    pub who: Option<Node>,
    /// What the node took.
    pub took: AuditTook,
    /// The certificates that became known to it.
    pub added: Sequence<Certificate>,
    /// What it asked its application for: the place here is that of the request.
    pub asked: Sequence<Asked>,
    /// The numbers of its open requests that were dropped.
    pub dropped: Sequence<u64>,
    /// Its calls outside, in order.
    pub calls: Sequence<AuditCall>,
    /// The packets that it sent, in order: the place here is that of the packet.
    pub packets: Sequence<Packet>,
    /// How its step ended.
    pub outcome: Outcome,
}

/// What is wrong with a record, in the order in which it is tested.
#[derive(Clone, Copy, Debug, PartialEq, Eq)]
pub enum AuditFault {
    /// The setup breaks a limit.
    Setup,
    /// An entry is missing, or one too many, or does not fit its event.
    Entry,
    /// The event could not be taken.
    Condition,
    /// A packet of a faulty node holds what is forged.
    Forged,
    /// A vote was sent before its record was stored.
    Order,
    /// A whole step of a voter sent other votes than were due.
    Votes,
    /// Two certificates that verify conflict.
    Conflict,
}

/// What a record is found to be.
#[derive(Clone, Copy, Debug, PartialEq, Eq)]
pub enum Verdict {
    /// It has none of the faults.
    Sound,
    /// The first event at which it has a fault, and which; 0 is the setup.
    Fault {
        /// The event's number.
        event: u64,
        /// The first fault that is found there.
        cause: AuditFault,
    },
}
