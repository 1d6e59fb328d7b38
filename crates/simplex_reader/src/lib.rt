//! What one node knows and what its journal holds, read from the entries of a record.
//!
//! A [`Reader`] follows one node through the entries. Of a node that runs it keeps what votes rest on: a start makes it anew, of the
//! floor and of what the journal held, and each step adds what it took, the certificates that its entry lists, and the own votes that
//! were appended. What the journal holds is told by the calls that the entries list, also where a step was broken.
#![tactic(auto)]

mod pruning;
mod reader;
mod sections;
mod starting;
mod stepping;
mod taking;
mod votes;

pub use reader::Reader;
