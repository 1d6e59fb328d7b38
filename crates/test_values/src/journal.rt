//! Scripts about a journal in memory: what stands after a stop, and after a call that fails.
use simplex_journal::{Journal, JournalError, MemoryJournal};
use simplex_types::{Artifact, Epoch, Round, View};
use std::alloc::{AllocError, Global};
use test_support::{Part, Script, Told, number, play};

/// A call of a journal.
#[derive(Clone, Copy)]
enum Call {
    /// A record, told by its view, goes into the section.
    Append(u64, u64),
    Sync(u64),
    SyncAll,
    Prune(u64),
    Replay,
}

/// A journal.
#[derive(Drop)]
struct Desk {
    alloc: Global,
    journal: MemoryJournal,
}

/// Plays a script whose first line is `journal`.
pub(crate) fn run(script: &Script, told: &mut Told) -> Result<(), AllocError> {
    let alloc = told.alloc();
    let mut desk = Desk {
        alloc,
        journal: MemoryJournal::new(alloc),
    };
    play(&mut desk, script, told)
}

fn record(view: u64) -> Artifact {
    let round = Round {
        epoch: Epoch(0),
        view: View(view),
    };
    Artifact::Certification(round, true)
}

fn call_of(words: &[&str]) -> Option<Call> {
    match words {
        ["append", section, view] => Some(Call::Append(number(section)?, number(view)?)),
        ["sync", "all"] => Some(Call::SyncAll),
        ["sync", section] => Some(Call::Sync(number(section)?)),
        ["prune", least] => Some(Call::Prune(number(least)?)),
        ["replay"] => Some(Call::Replay),
        _ => None,
    }
}

/// The records, told by their views.
fn records_text(alloc: Global, records: &[Artifact]) -> Result<String, AllocError> {
    let mut text = String::from_str(alloc, "records")?;
    for record in records {
        let view = record.view();
        text.push_str(format!(in alloc; " {view}")?.as_str())?;
    }
    if records.is_empty() {
        text.push_str(" none")?;
    }
    Ok(text)
}

/// Makes the call, of any journal, and tells what it answers.
fn make<J: Journal>(journal: &mut J, alloc: Global, call: Call) -> Result<String, AllocError> {
    let answer = match call {
        Call::Append(section, view) => journal.append(alloc, section, &record(view)),
        Call::Sync(section) => journal.sync(section),
        Call::SyncAll => journal.sync_all(),
        Call::Prune(least) => journal.prune(least),
        Call::Replay => match journal.replay(alloc) {
            Ok(records) => return records_text(alloc, records.as_slice()),
            Err(error) => Err(error),
        },
    };
    match answer {
        Ok(()) => String::from_str(alloc, "done"),
        Err(JournalError::Memory) => Err(AllocError),
        Err(error) => format!(in alloc; "{error}"),
    }
}

impl Desk {
    /// The call of this number is to fail.
    fn fail(&mut self, place: Option<u64>, told: &mut Told) -> Result<(), AllocError> {
        match place {
            Some(place) => {
                self.journal.fail_next(place, 0);
                Ok(())
            }
            None => told.says("not a command"),
        }
    }

    fn make(&mut self, call: Call, told: &mut Told) -> Result<(), AllocError> {
        told.says(make(&mut self.journal, self.alloc, call)?.as_str())
    }
}

impl Part for Desk {
    fn take(&mut self, words: &[&str], told: &mut Told) -> Result<(), AllocError> {
        match words {
            ["fail", "call", place] => self.fail(number(place), told),
            ["fail", "none"] => {
                self.journal.fail_next(0, 0);
                Ok(())
            }
            ["stop"] => {
                self.journal.crash(0);
                Ok(())
            }
            ["faults"] => {
                let faults = self.journal.faults();
                told.says(format!(in self.alloc; "{faults}")?.as_str())
            }
            ["errors"] => {
                let text = format!(in self.alloc;
                    "{}, {}",
                    JournalError::Failed,
                    JournalError::Memory
                )?;
                told.says(text.as_str())
            }
            _ => match call_of(words) {
                Some(call) => self.make(call, told),
                None => told.says("not a command"),
            },
        }
    }
}
