//! The plain values of a run: its setup, its events, and the entry that each event makes.
#![tactic(auto)]

mod entry;
mod event;
mod field;
mod node;
mod refusal;
mod setup;

pub use entry::{Entry, Packet, Took};
pub use event::{Event, StepSource};
pub use field::Field;
pub use node::{Node, Ref};
pub use refusal::{Refusal, RunError};
pub use setup::{MemberKind, Setup, SetupRound};
