//! What a member writes down: the trait of journals, one in memory, and one in segment files over any disk.
pub use simplex_disk::{Disk, DiskError, DiskJournal, InitError, MemoryDisk, StopDisk};
pub use simplex_journal::{Journal, JournalError, MemoryJournal};
