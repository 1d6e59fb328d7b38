//! A disk in a folder of real files, for the journal of a member that outlives its process.
//!
//! ```text
//! init(&rt, "node-0", "member 0")?;                        // once: makes the folder, for this owner
//! let disk = FileDisk::open(&rt, "node-0", "member 0")?;   // in each life: takes the lock, reads and syncs the files
//! disk.may_be_settled();
//! let journal = DiskJournal::init(disk, alloc)?;
//! ```
//!
//! Contracts know nothing of what a system call does, so the disk keeps a copy in memory, and they speak of the copy. What is trusted is
//! one sentence: each file reads as its copy while the process lives, and what the next [`FileDisk::open`] finds is an image that
//! the calls which were made may leave ([`simplex_disk::Disk`] says which).
#![tactic(auto)]

mod disk;
mod error;
mod folder;
mod member;

pub use disk::FileDisk;
pub use error::{InitError, OpenError};
pub use member::init;
