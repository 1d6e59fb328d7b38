//! A network of members, honest and faulty, that is given events and answers an entry for each.
//!
//! It holds each member's nodes, the clock, and what was sent. It may assume nothing of a setup and of events but that
//! they are fewer than its numbers. It owes that each entry, or refusal, is the one of the definition of runs, made by
//! engines that step.
#![tactic(auto)]

mod cut;
mod host;
mod hosts;
mod inputs;
mod journal;
mod network;
mod nodes;
mod sending;
mod status;
mod task;
mod testing;

pub use host::NodeEngine;
pub use journal::NodeJournal;
pub use network::Network;
pub use task::Task;
