//! A language in which a run is told: a text of one command a line, as `deliver 1->0 vote`.
//!
//! [`read_script`] reads a text: its setup, and its commands with the numbers of their lines, or the first line that cannot be read
//! and why. A command names nodes, sources and channels, and no event and no place: what it comes to depends on the run. Lines that
//! begin with two blanks and a bar tell what came out; reading leaves them out, as it does comments.
#![tactic(auto)]

mod asking;
mod change;
mod command;
mod fault;
mod kinds;
mod lines;
mod names;
mod orders;
mod payloads;
mod planning;
mod post;
mod script;
mod settings;
mod statement;

pub use change::{Change, Setting};
pub use command::{Command, Placed, Question, Whom};
pub use fault::{BadLine, Fault, Form, fault_text};
pub use lines::{is_told, lines_of};
pub use planning::{OpenRequest, delivery, judged, planned, wants_verdict};
pub use post::{Parcel, Post};
pub use script::{Script, read_script};
pub use statement::Statement;
