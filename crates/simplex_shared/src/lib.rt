//! Mailboxes that threads share, with one history of all their calls.
//!
//! A thread calls with a pass. The calls take turns: each takes a ticket, waits until it is served, and acts on
//! the mailbox as one thread does. So the calls of all threads stand in one history, which a mailbox of one
//! thread answers likewise. A pass tells how far it has seen that history.
#![tactic(auto)]

mod bells;
mod desk;
mod error;
mod finish;
mod laws;
mod lock;
mod log;
mod logged;
mod mailbox;
mod making;
mod op;
mod pass;
mod samples;
mod steps;
mod terms;
mod view;

pub use error::MailError;
pub use laws::own_calls_stay_in_order;
pub use log::Log;
pub use mailbox::RecordedMailbox;
pub use op::Op;
pub use pass::Pass;
pub use samples::small_histories;
