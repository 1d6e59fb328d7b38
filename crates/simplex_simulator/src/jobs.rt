//! What is to be done.
use model_rules::Asked;
use simplex_messages::Handed;
use simplex_transcript::{Node, Ref, StepSource};

/// What a request wants.
#[derive(Clone, Copy, PartialEq, Eq)]
pub(crate) enum Want {
    /// A payload to propose.
    Payload,
    /// A payload to prepare for the next term.
    Stage,
    /// Whether a payload is good.
    Verdict,
}

/// Something to do. It may have come to nothing when its turn comes.
#[derive(Clone, Copy, PartialEq, Eq)]
pub(crate) enum Job {
    Start {
        node: Node,
    },
    /// A packet goes wrong once at most: `is_safe` says that nothing happens to it any more.
    Deliver {
        node: Node,
        packet: Ref,
        is_safe: bool,
    },
    Step {
        node: Node,
        source: StepSource,
    },
    Answer {
        node: Node,
        request: Ref,
        want: Want,
        source: StepSource,
    },
}

/// All that a step may take from.
pub(crate) const SOURCES: [StepSource; 9] = [
    StepSource::Batcher,
    StepSource::Voter,
    StepSource::Timer,
    StepSource::Propose,
    StepSource::Verify,
    StepSource::Certify,
    StepSource::Resolver,
    StepSource::Handler,
    StepSource::Fetch,
];

/// The mailbox into which a message was put.
pub(crate) fn mailbox_of(handed: &Handed) -> StepSource {
    match handed {
        Handed::Batcher(_) => StepSource::Batcher,
        Handed::Voter(_) => StepSource::Voter,
        Handed::Resolver(_) => StepSource::Resolver,
        Handed::Handler(_) => StepSource::Handler,
    }
}

/// What is wanted, and the source from which a step takes it.
pub(crate) fn wanted(asked: &Asked) -> (Want, StepSource) {
    match asked {
        Asked::Prepare(_) => (Want::Stage, StepSource::Propose),
        Asked::Propose(_) => (Want::Payload, StepSource::Propose),
        Asked::Verify(_, _) => (Want::Verdict, StepSource::Verify),
        Asked::Certify(_, _) => (Want::Verdict, StepSource::Certify),
    }
}
