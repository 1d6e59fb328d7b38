//! The mailboxes that the threads share.
use simplex_messages::{batcher, resolver, voter};
use simplex_shared::RecordedMailbox;

/// The mailbox of each actor.
#[derive(Drop)]
pub struct Mailboxes {
    /// What waits for the batcher.
    pub batcher: RecordedMailbox<batcher::Message>,
    /// What waits for the voter.
    pub voter: RecordedMailbox<voter::Message>,
    /// What waits for the resolver.
    pub resolver: RecordedMailbox<resolver::MailboxMessage>,
}
