//! The resolver's actor.
ghost use Rattle.simplex_resolver.specs.Bound.{Knows};

use crate::config::Config;
use simplex_fetch::Fetcher;
use simplex_mailbox::Mailbox;
use simplex_messages::resolver::HandlerMessage;
use simplex_repair::RepairState;
use simplex_types::Scheme;
use std::alloc::Global;

/// A resolver between two steps.
///
/// After an answer other than Ok a resolver may only be dropped.
#[derive(Drop)]
pub struct Actor<S: Scheme> {
    pub(crate) alloc: Global,
    pub(crate) config: Config<S>,
    /// What the member holds, and which nullifications it lacks.
    pub(crate) repair: RepairState,
    /// What is asked of peers, and what they ask.
    pub(crate) fetcher: Fetcher,
    /// The fetcher's messages to the resolver.
    pub(crate) handler: Mailbox<HandlerMessage>,
    // true of any: contracts read from an actor's type what its scheme does
    ghost by_scheme: { Knows S.members },
}
