//! The turns of an engine's actors, each on a thread of its own.
//!
//! A turn takes a message from the actor's mailbox, which the threads share, or else something of its own: a packet, an
//! answer, the clock. It makes one step on it, and puts what that hands on into the mailboxes of the others. What the turns
//! of an actor give is what its rules give, for what they took.
#![tactic(auto)]

mod batcher;
mod blocking;
mod feed;
mod handing;
mod logs;
mod mailboxes;
mod opening;
mod resolver;
mod team;
mod voter;

pub use batcher::BatcherThread;
pub use feed::{Delivery, FeedItem};
pub use handing::{drain, put_all};
pub use logs::Logs;
pub use mailboxes::Mailboxes;
pub use opening::{open_for_three, open_for_two};
pub use resolver::ResolverThread;
pub use team::{Outs, Team};
pub use voter::VoterThread;
