//! A member by itself: an engine over its journal, the clock that it was told last, and the lines by which a host drives it.
//!
//! ```text
//! let mut node = Node::new(alloc, config, journal)?;
//! node.start(now)?;                          // once; then, and after each command, until nothing is left:
//! while node.step()? { /* node.out() */ }    // what the step did: packets, requests, reports, in order
//! node.take(command)?;                       // a packet, the clock, or the application's answer
//! ```
//!
//! What a step does stands in [`Node::out`] when the step has ended: by then each vote in it was appended and synced, or stood so
//! before. The caller sends after the step, and so never sends a vote that a crash could make the member forget.
#![tactic(auto)]

mod command;
mod error;
mod lines;
mod node;
mod time;
mod words;

pub use command::{Command, command_of};
pub use error::NodeError;
pub use lines::push_lines;
pub use node::Node;
pub use time::Time;
