//! What a node's journal holds by the calls of a record, and whether votes are stored before they are sent.
#![tactic(auto)]

mod before;
mod journal;
mod spellings;
mod stored;
mod votes;

pub use stored::Stored;
