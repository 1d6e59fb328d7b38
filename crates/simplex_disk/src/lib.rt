//! A journal in segment files: records in files of a disk that may crash.
#![tactic(auto)]

mod disk;
mod error;
mod files;
mod index;
mod journal;
mod memory;
mod mending;
mod opening;
mod orders;
mod pruning;
mod reading;
mod replaying;
mod segment;
mod stopping;
mod syncing;
mod writing;

pub use disk::{Disk, StopDisk};
pub use error::{DiskError, InitError};
pub use journal::DiskJournal;
pub use memory::MemoryDisk;
