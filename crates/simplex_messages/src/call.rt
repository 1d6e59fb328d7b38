//! What a step calls outside.
use simplex_types::{
    Activity, Artifact, BlockCause, Bytes, Channel, Digest, Keep, Participant, Plan, Recipients,
};
use std::alloc::{AllocError, Global};

/// A call that a step makes.
#[derive(Debug, PartialEq, Eq, Drop)]
pub enum Call {
    /// The record is appended to the journal's section of this number.
    Append(u64, Artifact),
    /// The journal's section is synced.
    Sync(u64),
    /// The journal's sections below this number are dropped.
    Prune(u64),
    /// The bytes are sent to the network.
    Send {
        channel: Channel,
        recipients: Recipients,
        bytes: Bytes,
    },
    /// The reporter is told.
    Report(Activity),
    /// The payload is sent to members, as the plan says.
    Relay {
        payload: Digest,
        plan: Plan,
    },
    /// The member is blocked, for this cause.
    Block(Participant, BlockCause),
}

impl Keep for Call {
    fn keep(&self, alloc: Global) -> Result<Call, AllocError> {
        match self {
            Call::Append(section, artifact) => Ok(Call::Append(*section, artifact.keep(alloc)?)),
            Call::Sync(section) => Ok(Call::Sync(*section)),
            Call::Prune(least) => Ok(Call::Prune(*least)),
            Call::Send {
                channel,
                recipients,
                bytes,
            } => Ok(Call::Send {
                channel: *channel,
                recipients: recipients.keep(alloc)?,
                bytes: bytes.keep(alloc)?,
            }),
            Call::Report(activity) => Ok(Call::Report(activity.keep(alloc)?)),
            Call::Relay { payload, plan } => Ok(Call::Relay {
                payload: *payload,
                plan: plan.keep(alloc)?,
            }),
            Call::Block(member, cause) => Ok(Call::Block(*member, *cause)),
        }
    }
}
