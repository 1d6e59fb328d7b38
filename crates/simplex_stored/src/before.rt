//! The votes that a step appended and synced so far.
#![tactic(auto, unfolding(crate::specs::Before::waits, simplex_values::specs::Maps::found))]

ghost use Rattle.std.specs.Prelude.{◌≡◌, ◌||◌, ◌&&◌, ◌==◌, ◌++◌, ◌∷◌, [], List, ℕ, false, OnOk, IfOk, if◌then◌else◌};
ghost use Rattle.std.specs.List.{filter_map, list_any};
ghost use Rattle.std.specs.Str.{bytes_eq};
ghost use Rattle.simplex_messages.specs.declared.call.Call.{Call};
ghost use Rattle.model_audit.specs.Rebuilt.{call_for};
ghost use Rattle.simplex_stored.specs.Before.{is_in, waits, is_spelled, made, BeforeStands};

use crate::spellings::Spellings;
use crate::votes::vote_of;
use model_audit::AuditCall;
use simplex_types::{Artifact, Bytes, Sequence};
use std::alloc::{AllocError, Global};
use std::collections::BTreeMap;

/// The spellings of the votes that a step appended: by section those that wait to be synced, and those that are stored.
#[derive(Drop)]
pub(crate) struct Before {
    pub(crate) waiting: BTreeMap<u64, Sequence<Bytes>>,
    pub(crate) stored: Spellings,
}

impl Before {
    /// No call.
    pub(crate) fn new(alloc: Global) -> Before
        ensures { BeforeStands result [] }
    {
        Before {
            waiting: BTreeMap::new(alloc),
            stored: Spellings::new(alloc),
        }
    }

    /// Whether the vote that these bytes spell is stored.
    pub(crate) fn is_stored(&self, bytes: &[u8]) -> bool
        ensures { result ≡ is_in self.now.stored bytes.now }
    {
        self.stored.contains(bytes)
    }

    /// One call more.
    pub(crate) fn take(&mut self, alloc: Global, call: &AuditCall) -> Result<(), AllocError>
        ensures { OnOk result ((calls : List Call) → BeforeStands self.old calls
            → BeforeStands self.new (calls ++ made call.now)) }
    {
        match call {
            AuditCall::Append(section, artifact) => self.take_append(alloc, *section, artifact),
            AuditCall::Sync(section) => self.sync(*section),
            _ => Ok(()),
        }
    }

    // Keeps the vote of a record that is appended.
    fn take_append(
        &mut self,
        alloc: Global,
        section: u64,
        artifact: &Artifact,
    ) -> Result<(), AllocError>
        ensures stored { OnOk result (self.new.stored ≡ self.old.stored) }
        ensures waiting { OnOk result ((number : ℕ) (bytes : List ℕ) → waits self.new.waiting number bytes
            ≡ (section == number && is_spelled bytes artifact.now
            || waits self.old.waiting number bytes)) }
    {
        let Some(vote) = vote_of(artifact) else {
            return Ok(());
        };
        let bytes = Bytes::from_vec(vote.encode(alloc)?);
        wait(&mut self.waiting, alloc, section, bytes)
    }

    // Counts the votes that wait in the section as stored.
    fn sync(&mut self, section: u64) -> Result<(), AllocError>
        ensures stored { OnOk result ((bytes : List ℕ) → is_in self.new.stored bytes
            ≡ (waits self.old.waiting section bytes || is_in self.old.stored bytes)) }
        ensures waiting { OnOk result ((number : ℕ) (bytes : List ℕ) → waits self.new.waiting number bytes
            ≡ (if section == number then false else waits self.old.waiting number bytes)) }
    {
        match self.waiting.remove(&section) {
            None => Ok(()),
            Some(spellings) => add_each(&mut self.stored, spellings),
        }
    }
}

// Puts the bytes behind those that wait in the section.
fn wait(
    waiting: &mut BTreeMap<u64, Sequence<Bytes>>,
    alloc: Global,
    section: u64,
    bytes: Bytes,
) -> Result<(), AllocError>
    ensures { OnOk result ((number : ℕ) (other : List ℕ) → waits waiting.new number other
        ≡ (section == number && bytes_eq other bytes || waits waiting.old number other)) }
{
    if let Some(spellings) = waiting.get_mut(&section) {
        spellings.push(bytes)?;
        return Ok(());
    }
    let mut spellings = Sequence::new(alloc);
    spellings.push(bytes)?;
    waiting.insert(section, spellings)?;
    Ok(())
}

// Keeps each of these.
fn add_each(stored: &mut Spellings, spellings: Sequence<Bytes>) -> Result<(), AllocError>
    ensures { OnOk result ((bytes : List ℕ)
        → is_in stored.new bytes
        ≡ (list_any (bytes_eq bytes) spellings || is_in stored.old bytes)) }
{
    for bytes in spellings.into_vec() {
        stored.add(bytes)?;
    }
    Ok(())
}
