//! What a mailbox or a reporter answers.

/// How a message was taken.
#[derive(Clone, Copy, Debug, PartialEq, Eq)]
pub enum Feedback {
    /// It is in the queue.
    Ok,
    /// The queue is full, and the policy has it.
    Backoff,
    /// The receiver is gone.
    Closed,
}
