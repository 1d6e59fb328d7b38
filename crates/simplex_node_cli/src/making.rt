//! What a member is made with, and its folder.
use crate::end::End;
use simplex_disk::DiskJournal;
use simplex_files::{FileDisk, init};
use simplex_form::{InputFault, read_setup, read_value};
use simplex_journal::Journal;
use simplex_members::{NodeElector, NodeScheme, config_of, first_bad};
use simplex_names::number_of;
use simplex_node::Node;
use simplex_transcript::{MemberKind, Setup};
use simplex_types::{Digest, Epoch, Participant, genesis};
use simplex_writer::write_input;
use std::alloc::Global;
use std::fs::File;
use std::rt::Files;

/// The journal of a member in a folder.
pub(crate) type FolderJournal<R> = DiskJournal<FileDisk<R>>;

/// The setup that a line says.
pub(crate) fn setup_of(alloc: Global, line: &str) -> Result<Setup, End> {
    let value = match read_value(alloc, line.as_bytes()) {
        Ok(value) => value,
        Err(InputFault::Memory) => return Err(End::Memory),
        Err(InputFault::At(_)) => return Err(End::BadSetup),
    };
    match read_setup(alloc, &value)? {
        Some(setup) => Ok(setup),
        None => Err(End::BadSetup),
    }
}

/// The member that a word says: an honest one of the setup.
pub(crate) fn member_of(setup: &Setup, word: &str) -> Result<Participant, End> {
    let Some(number) = number_of(word) else {
        return Err(End::BadWords);
    };
    let Ok(place) = u32::try_from(number) else {
        return Err(End::BadSetup);
    };
    match setup.members.as_slice().get(place as usize) {
        Some(MemberKind::Honest) => Ok(Participant(place)),
        _ => Err(End::BadSetup),
    }
}

// Whose folder it is: the member, and the setup in one spelling.
fn owner_of(alloc: Global, setup: &Setup, me: Participant) -> Result<String, End> {
    let number = me.0;
    let setup = write_input(alloc, setup, &[])?;
    let setup = setup.as_str();
    let owner = format!(in alloc; "member {number}\n{setup}\n")?;
    Ok(owner)
}

/// Makes the folder of the member.
pub(crate) fn make<R: Files<File = File> + AllocGlobal + Drop>(
    rt: &R,
    setup: &Setup,
    me: Participant,
    folder: &str,
) -> Result<(), End> {
    let owner = owner_of(rt.alloc(), setup, me)?;
    init(rt, folder, owner.as_str())?;
    Ok(())
}

/// The journal in the folder of the member.
pub(crate) fn open<R: Files<File = File> + AllocGlobal + Clone + Drop>(
    rt: &R,
    setup: &Setup,
    me: Participant,
    folder: &str,
) -> Result<FolderJournal<R>, End> {
    let alloc = rt.alloc();
    let owner = owner_of(alloc, setup, me)?;
    let disk = FileDisk::open(rt, folder, owner.as_str())?;
    disk.may_be_settled();
    match DiskJournal::init(disk, alloc) {
        Ok(journal) => Ok(journal),
        Err(_) => Err(End::Journal),
    }
}

// The payload of view 0.
fn genesis_at(epoch: u64) -> Digest {
    genesis(Epoch(epoch))
}

/// The member, over its journal.
pub(crate) fn node_of<J: Journal + Drop>(
    alloc: Global,
    setup: &Setup,
    me: Participant,
    journal: J,
) -> Result<Node<NodeScheme, NodeElector, J>, End> {
    if first_bad(setup).is_some() || me.0 as usize >= setup.members.len() {
        return Err(End::BadSetup);
    }
    let config = config_of(alloc, setup, genesis_at(setup.epoch), me, &None)?;
    match Node::new(alloc, config, journal) {
        Ok(node) => Ok(node),
        Err(_) => Err(End::Memory),
    }
}
