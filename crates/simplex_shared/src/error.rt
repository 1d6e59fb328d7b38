//! Why a message was not put.
use thiserror::Error;

/// Why a message was not put. It comes back, and the call is not in the history.
#[derive(Debug, PartialEq, Eq, Drop, Error)]
pub enum MailError<M> {
    /// The mailbox was closed: the history of so many calls, which the pass has then seen, holds the call that
    /// closed it.
    #[error("the mailbox is closed")]
    Closed { front: u64, message: M },
    /// There was no memory.
    #[error("out of memory")]
    Memory(M),
}
