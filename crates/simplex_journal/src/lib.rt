//! What a member writes down before it speaks: records in sections, pending until they are synced.
#![tactic(auto)]

mod error;
mod journal;
mod lists;
mod memory;
mod sections;

pub use error::JournalError;
pub use journal::Journal;
pub use lists::SectionLists;
pub use memory::MemoryJournal;
