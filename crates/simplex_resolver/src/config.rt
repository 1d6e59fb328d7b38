//! What a resolver is made with.
use simplex_types::{Epoch, TermLength};

/// What a resolver is made with.
#[derive(Drop)]
pub struct Config<S> {
    /// Verifies certificates, and tells who this member is.
    pub scheme: S,
    /// The epoch whose votes and certificates count.
    pub epoch: Epoch,
    /// How many messages the mailbox holds.
    pub mailbox_size: u32,
    /// How many messages the handler's mailbox holds.
    pub handler_size: u32,
    /// For how long a peer may be silent, in milliseconds.
    pub fetch_timeout: u64,
    /// How long a view waits after an attempt that failed, in milliseconds.
    pub fetch_retry_delay: u64,
    /// How many views a term has.
    pub term_length: TermLength,
}
