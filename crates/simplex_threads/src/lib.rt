//! An engine on threads: each of its actors on one of its own.
//!
//! The actors share their mailboxes, which record what was put into them and taken from them. What each actor gave is what
//! its rules give, turn by turn, for what the records say that it took. No promise is made that threads run at once, or in
//! which order.
#![tactic(auto)]

mod laws;
mod run;
mod start;

pub use laws::{
    stopped_voters_leave_a_life, turns_send_what_is_synced, turns_store_first, turns_vote_by_rule,
    unbroken_engines_have_lived, unstopped_voters_have_lived,
};
pub use run::{Feed, ThreadRun};
pub use simplex_mailbox::{Gate, OpenGate};
pub use simplex_turns::{Delivery, FeedItem, Logs};
pub use simplex_voter::AskKind;
pub use start::start_threads;
