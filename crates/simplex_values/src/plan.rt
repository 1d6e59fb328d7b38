//! Where messages and payloads go.
use crate::keep::Keep;
use crate::member::Participant;
use crate::round::Round;
use crate::sequence::Members;
use std::alloc::{AllocError, Global};

/// The three channels of the network.
#[derive(Clone, Copy, Debug, PartialEq, Eq)]
pub enum Channel {
    /// Of votes.
    Vote,
    /// Of certificates.
    Certificate,
    /// Of requests and responses of resolvers.
    Resolver,
}

/// Whom a message is for.
#[derive(Debug, PartialEq, Eq, Drop)]
pub enum Recipients {
    /// Every other member.
    All,
    /// The members of the list.
    Some(Members),
    /// One member.
    One(Participant),
}

impl Keep for Recipients {
    fn keep(&self, alloc: Global) -> Result<Recipients, AllocError> {
        match self {
            Recipients::All => Ok(Recipients::All),
            Recipients::Some(members) => Ok(Recipients::Some(members.keep(alloc)?)),
            Recipients::One(member) => Ok(Recipients::One(*member)),
        }
    }
}

/// What a relayed payload is for.
#[derive(Debug, PartialEq, Eq, Drop)]
pub enum Plan {
    /// It is prepared for the next term.
    Prepare {
        round: Round,
    },
    /// It is proposed.
    Propose {
        round: Round,
    },
    /// It is handed on to members who seem to lack it.
    Forward {
        round: Round,
        recipients: Recipients,
    },
}

impl Keep for Plan {
    fn keep(&self, alloc: Global) -> Result<Plan, AllocError> {
        match self {
            Plan::Prepare { round } => Ok(Plan::Prepare { round: *round }),
            Plan::Propose { round } => Ok(Plan::Propose { round: *round }),
            Plan::Forward { round, recipients } => Ok(Plan::Forward {
                round: *round,
                recipients: recipients.keep(alloc)?,
            }),
        }
    }
}

/// Which halves of a twin a message reaches.
#[derive(Clone, Copy, Debug, PartialEq, Eq)]
pub enum SplitTarget {
    /// Neither.
    None,
    /// Half 0 alone.
    Primary,
    /// Half 1 alone.
    Secondary,
    /// Both.
    Both,
}
