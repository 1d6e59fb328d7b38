//! What an epoch is given, and its run.
use simplex_form::Input;
use simplex_logs::NodeLog;
use simplex_run::Transcript;
use simplex_types::{Digest, Sequence};

/// What an epoch is given: the setup of its members, and what happens.
pub type EpochInput = Input;

/// The run of an epoch.
#[derive(Drop)]
pub struct EpochRun {
    /// The payload of its view 0: the epoch's genesis digest in the first epoch, and in a later one the payload that closed the one
    /// before.
    pub genesis: Digest,
    /// The whole run.
    pub transcript: Transcript,
    /// The log of each honest member's node, in rising order, up to the height at which the epoch is closed.
    pub logs: Sequence<NodeLog>,
}
