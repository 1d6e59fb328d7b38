//! A page for a browser that shows a run: the viewer's page, with the record of the run and the lines of its trace inside.
//!
//! [`look_at`] makes the record of what an input comes to, up to a refusal, and [`page`] puts it into the page's files.
#![tactic(auto)]

mod listing;
mod making;
mod seeing;

pub use making::page;
pub use seeing::{Seen, look_at};
