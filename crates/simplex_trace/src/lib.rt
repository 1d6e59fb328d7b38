//! A run told line by line: what each event was, and what it did.
//!
//! A line begins with the event's number and says the event in the words of an input, `5 1.0 step propose`; behind it stands, each
//! after a comma, what came of it: the calls of the step, what the application was asked, for which mailboxes messages are there now,
//! and the packets, each with the name by which a later event takes it: `vote 5.0 to 0.0 2.0`.
#![tactic(auto)]

mod deeds;
mod items;
mod telling;
mod words;

pub use deeds::{node_text, ref_text, spaced};
pub use items::ask_text;
pub use telling::{deed_line, line, lines};
