//! What a step may take from.
use simplex_transcript::{Node, StepSource};

/// The sources of a node's steps, in order.
pub const SOURCES: [StepSource; 9] = [
    StepSource::Batcher,
    StepSource::Voter,
    StepSource::Timer,
    StepSource::Propose,
    StepSource::Verify,
    StepSource::Certify,
    StepSource::Resolver,
    StepSource::Handler,
    StepSource::Fetch,
];

/// A source that holds something.
#[derive(Clone, Copy, Debug, PartialEq, Eq)]
pub struct Held {
    /// The node that would step.
    pub node: Node,
    /// What the step would take from.
    pub source: StepSource,
}
