//! What an application is asked.
use simplex_types::{Context, Digest, Plan, Round};

/// A call that waits for the application. The answer names the request's number.
#[derive(Debug, PartialEq, Eq, Drop)]
pub enum Message {
    /// A payload of the next term is asked for.
    Prepare {
        context: Context,
        request: u64,
    },
    /// A payload is asked for.
    Propose {
        context: Context,
        request: u64,
    },
    /// Is the payload valid?
    Verify {
        context: Context,
        payload: Digest,
        request: u64,
    },
    /// May the notarized payload be certified?
    Certify {
        round: Round,
        payload: Digest,
        request: u64,
    },
    /// The payload is to be relayed.
    Broadcast {
        payload: Digest,
        plan: Plan,
    },
}
