//! What is printed of a run: the lines of its transcript, or the text of its refusal.
#![tactic(auto)]

mod lines;
mod refusals;
mod transcript;

pub use refusals::{error_name, refusal_text};
pub use transcript::{printed, printed_run};
