//! What a line of a script tells to do.
use simplex_messages::Stop;
use simplex_transcript::{Node, StepSource};
use simplex_types::{Channel, Digest, Sequence};

/// What an application is asked of a payload.
#[derive(Clone, Copy, Debug, PartialEq, Eq)]
pub enum Question {
    /// Whether it is valid.
    Verify,
    /// Whether it may become final.
    Certify,
}

/// Whose requests are answered.
#[derive(Clone, Copy, Debug, PartialEq, Eq)]
pub enum Whom {
    /// Those of all nodes.
    All,
    /// Those of this node.
    One(Node),
}

/// A command of a script.
#[derive(Debug, PartialEq, Eq, Drop)]
pub enum Command {
    /// The nodes start, one after another; each stops inside its start, if that is said.
    Start {
        nodes: Sequence<Node>,
        stop: Stop,
    },
    /// A payload is the answer to the node's open request for a proposal.
    Propose {
        node: Node,
        payload: Digest,
    },
    /// The open requests of this kind are answered.
    Judge {
        question: Question,
        whom: Whom,
        good: bool,
    },
    /// The oldest packet of a channel from one node to another that was not delivered there is delivered.
    Deliver {
        from: Node,
        to: Node,
        channel: Channel,
    },
    /// The one that was delivered last is delivered again.
    Resend {
        from: Node,
        to: Node,
        channel: Channel,
    },
    /// The oldest packet of a channel from one node to another that was not delivered is lost.
    Lose {
        from: Node,
        to: Node,
        channel: Channel,
    },
    /// All packets for these nodes that were not delivered are lost.
    Miss {
        nodes: Sequence<Node>,
    },
    /// A node makes a step.
    Step {
        node: Node,
        source: StepSource,
        stop: Stop,
    },
    /// The clock goes on by so many milliseconds.
    Tick {
        ms: u64,
    },
    /// The nodes stop, one after another.
    Crash {
        nodes: Sequence<Node>,
    },
    /// All that comes up between these nodes is done, until nothing is left; between all nodes, where none is named.
    Settle {
        nodes: Sequence<Node>,
    },
}

/// A command, and the number of its line.
#[derive(Debug, PartialEq, Eq, Drop)]
pub struct Placed {
    /// The number of the line, from 1.
    pub line: u64,
    /// What it tells to do.
    pub command: Command,
}
