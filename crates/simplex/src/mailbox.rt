//! What waits for an actor: mailboxes that keep order, or that forget by a policy when they are full; and mailboxes that threads
//! share, which record all that was put into them and taken from them.
pub use simplex_mailbox::{Held, Mailbox, Overflow, Pending, Policy, Post, Requested};
pub use simplex_shared::{Log, MailError, Op, Pass, RecordedMailbox};
