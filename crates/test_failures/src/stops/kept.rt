//! A member's journal, as its calls and its stops leave it: which of its votes it holds.
use simplex_messages::Call;
use simplex_types::{Artifact, Vote};
use std::alloc::{AllocError, Global};

/// The records of a section, in order, each by the vote that it is, if it is one.
#[derive(Drop)]
struct Section {
    number: u64,
    synced: Vec<Option<Vote>>,
    pending: Vec<Option<Vote>>,
}

impl Section {
    /// What is pending stands behind what is synced.
    fn sync(&mut self) -> Result<(), AllocError> {
        for record in self.pending.iter() {
            self.synced.push(*record)?;
        }
        self.pending.truncate(0);
        Ok(())
    }

    /// So many pending records stand, and count as synced.
    fn stop(&mut self, keep: u64) -> Result<(), AllocError> {
        self.pending.truncate(usize::try_from(keep).unwrap_or(0));
        self.sync()
    }
}

/// A member's journal.
#[derive(Drop)]
pub(super) struct Kept {
    alloc: Global,
    sections: Vec<Section>,
}

fn vote_of(artifact: &Artifact) -> Option<Vote> {
    match artifact {
        Artifact::Notarize(it) => Some(Vote::Notarize(*it)),
        Artifact::Nullify(it) => Some(Vote::Nullify(*it)),
        Artifact::Finalize(it) => Some(Vote::Finalize(*it)),
        _ => None,
    }
}

impl Kept {
    pub(super) fn new(alloc: Global) -> Kept {
        Kept {
            alloc,
            sections: Vec::new(alloc),
        }
    }

    fn append(&mut self, number: u64, record: Option<Vote>) -> Result<(), AllocError> {
        for section in self.sections.iter_mut() {
            if section.number == number {
                section.pending.push(record)?;
                return Ok(());
            }
        }
        self.sections.push(Section {
            number,
            synced: Vec::new(self.alloc),
            pending: vec![in self.alloc; record]?,
        })?;
        Ok(())
    }

    fn sync(&mut self, number: u64) -> Result<(), AllocError> {
        for section in self.sections.iter_mut() {
            if section.number == number {
                section.sync()?;
            }
        }
        Ok(())
    }

    /// The call is made, and does not fail.
    pub(super) fn note(&mut self, call: &Call) -> Result<(), AllocError> {
        match call {
            Call::Append(number, artifact) => self.append(*number, vote_of(artifact)),
            Call::Sync(number) => self.sync(*number),
            Call::Prune(least) => {
                self.sections.retain(|section| section.number >= *least);
                Ok(())
            }
            _ => Ok(()),
        }
    }

    /// The member stops, and so many pending records of each section stand.
    pub(super) fn stop(&mut self, keep: u64) -> Result<(), AllocError> {
        for section in self.sections.iter_mut() {
            section.stop(keep)?;
        }
        Ok(())
    }

    /// Whether the vote's record is synced.
    pub(super) fn has_synced(&self, vote: &Vote) -> bool {
        let is_it = |record: &Option<Vote>| *record == Some(*vote);
        self.sections
            .iter()
            .any(|section| section.synced.iter().any(is_it))
    }
}
