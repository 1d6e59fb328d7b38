//! The journal of a node.
#![tactic(auto)]

ghost use Rattle.std.specs.Prelude.{[], IfOk};
ghost use Rattle.simplex_network.specs.NodeEngine.{JournalStands};

use simplex_disk::{DiskJournal, MemoryDisk};
use std::alloc::{AllocError, Global};

/// The journal of a node: segment files on a disk of its own, which is in memory.
pub type NodeJournal = DiskJournal<MemoryDisk>;

/// A journal with no record, on a disk with no file that fails no call. [disk-of-a-node]
pub(crate) fn new_journal(alloc: Global) -> Result<NodeJournal, AllocError>
    ensures { IfOk result (λ journal. JournalStands journal []) }
{
    let disk = MemoryDisk::new(alloc, Vec::new(alloc));
    disk.may_be_settled();
    match DiskJournal::init(disk, alloc) {
        Ok(journal) => Ok(journal),
        Err(_) => Err(AllocError),
    }
}
