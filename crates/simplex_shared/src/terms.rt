//! What a shared mailbox is made with.

/// What a shared mailbox is made with, and keeps.
#[derive(Clone, Copy)]
pub struct Terms {
    /// At most so many messages are ready.
    pub capacity: u32,
    /// So many passes were made, which are numbered from 0 on.
    pub passes: u32,
}
