//! Messages on their way to an actor.
use crate::{batcher, resolver, voter};
use simplex_types::Keep;
use std::alloc::{AllocError, Global};

/// A message, and the mailbox that it was put into.
#[derive(Debug, PartialEq, Eq, Drop)]
pub enum Handed {
    /// To the batcher.
    Batcher(batcher::Message),
    /// To the voter.
    Voter(voter::Message),
    /// To the resolver.
    Resolver(resolver::MailboxMessage),
    /// To the handler of the resolver's fetcher.
    Handler(resolver::HandlerMessage),
}

impl Keep for Handed {
    fn keep(&self, alloc: Global) -> Result<Handed, AllocError> {
        match self {
            Handed::Batcher(message) => Ok(Handed::Batcher(message.keep(alloc)?)),
            Handed::Voter(message) => Ok(Handed::Voter(message.keep(alloc)?)),
            Handed::Resolver(message) => Ok(Handed::Resolver(message.keep(alloc)?)),
            Handed::Handler(message) => Ok(Handed::Handler(message.keep(alloc)?)),
        }
    }
}
