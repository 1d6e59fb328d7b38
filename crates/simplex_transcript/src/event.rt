//! What happens in a run.
use crate::node::{Node, Ref};
use simplex_messages::Stop;
use simplex_types::{Answer, Bytes, Channel, Finalization, Sequence};

/// What a step of a node takes from.
#[derive(Clone, Copy, Debug, PartialEq, Eq)]
pub enum StepSource {
    /// The batcher's mailbox.
    Batcher,
    /// The voter's mailbox.
    Voter,
    /// The voter's deadline.
    Timer,
    /// The answer for a proposal.
    Propose,
    /// The answer for a Verify.
    Verify,
    /// The answers for Certify.
    Certify,
    /// The resolver's mailbox.
    Resolver,
    /// The mailbox of the resolver's fetcher.
    Handler,
    /// The fetcher's deadline.
    Fetch,
}

/// One event of a run.
#[derive(Debug, PartialEq, Eq, Drop)]
pub enum Event {
    /// A stopped node starts at a floor; none is genesis.
    Start {
        node: Node,
        floor: Option<Finalization>,
        stop: Stop,
    },
    /// The clock goes on by so many milliseconds.
    Tick {
        ms: u64,
    },
    /// A node takes a packet.
    Deliver {
        node: Node,
        packet: Ref,
    },
    /// A node makes a step.
    Step {
        node: Node,
        source: StepSource,
        stop: Stop,
    },
    /// A node's application answers a request.
    Answer {
        node: Node,
        request: Ref,
        answer: Answer,
    },
    /// A node stops.
    Crash {
        node: Node,
    },
    /// A faulty member sends bytes.
    Inject {
        member: u64,
        channel: Channel,
        to: Sequence<Node>,
        bytes: Bytes,
    },
}
