//! Scripts about a finalized log: what it answers and holds as certificates of one member come.
use crate::signed::{BASE, block, finalization, keyed, notarization};
use simplex_log::{FinalizedLog, LogEntry, LogError};
use simplex_types::{Activity, Keyed, Proposal};
use std::alloc::{AllocError, Global};
use test_support::{Part, Script, Told, number, payload, payload_text, play};

/// A log.
#[derive(Drop)]
struct Desk {
    alloc: Global,
    log: FinalizedLog<Keyed>,
}

/// Plays a script whose first line is `log`.
pub(crate) fn run(script: &Script, told: &mut Told) -> Result<(), AllocError> {
    let alloc = told.alloc();
    let mut desk = Desk {
        alloc,
        log: FinalizedLog::new(alloc, keyed(alloc, BASE)?),
    };
    play(&mut desk, script, told)
}

/// What is reported, if the words tell that.
fn activity_of(
    alloc: Global,
    kind: &str,
    proposal: Proposal,
) -> Result<Option<Activity>, AllocError> {
    Ok(Some(match kind {
        "notarization" => Activity::Notarization(notarization(alloc, BASE, proposal)?),
        "certification" => Activity::Certification(notarization(alloc, BASE, proposal)?),
        "finalization" => Activity::Finalization(finalization(alloc, BASE, proposal)?),
        _ => return Ok(None),
    }))
}

/// `VIEW on PARENT PAYLOAD`.
fn proposal_of(words: &[&str]) -> Option<Proposal> {
    match words {
        [view, "on", parent, name] => {
            Some(block(number(view)?, number(parent)?, payload(name)?))
        }
        _ => None,
    }
}

fn proposal_text(alloc: Global, proposal: &Proposal) -> Result<String, AllocError> {
    let (view, parent) = (proposal.round.view, proposal.parent);
    let payload = payload_text(alloc, &proposal.payload)?;
    let payload = payload.as_str();
    format!(in alloc; "{view} on {parent} {payload}")
}

fn entry_text(alloc: Global, entry: &LogEntry) -> Result<String, AllocError> {
    let (view, parent) = (entry.view, entry.parent);
    let payload = payload_text(alloc, &entry.payload)?;
    let payload = payload.as_str();
    format!(in alloc; "{view} on {parent} {payload}")
}

/// The entries, each behind a comma.
fn entries_text(alloc: Global, entries: &[LogEntry]) -> Result<String, AllocError> {
    let mut text = String::new(alloc);
    for entry in entries {
        if !text.is_empty() {
            text.push_str(", ")?;
        }
        text.push_str(entry_text(alloc, entry)?.as_str())?;
    }
    Ok(text)
}

/// What was answered.
fn answer_text(alloc: Global, answer: Result<bool, LogError>) -> Result<String, AllocError> {
    match answer {
        Ok(true) => String::from_str(alloc, "moves"),
        Ok(false) => String::from_str(alloc, "stays"),
        Err(LogError::Clash { held, other }) => {
            let held = proposal_text(alloc, &held)?;
            let other = proposal_text(alloc, &other)?;
            format!(in alloc;
                "clash: held is {}, this is {}",
                held.as_str(),
                other.as_str()
            )
        }
        Err(_) => Err(AllocError),
    }
}

impl Desk {
    /// Tells the entries, and the gap if there is one.
    fn tell(&self, told: &mut Told) -> Result<(), AllocError> {
        let entries = entries_text(self.alloc, self.log.entries())?;
        if !entries.is_empty() {
            told.says(format!(in self.alloc; "log: {}", entries.as_str())?.as_str())?;
        }
        match self.log.gap() {
            Some(view) => told.says(format!(in self.alloc; "gap: {view}")?.as_str()),
            None => Ok(()),
        }
    }

    fn observe(&mut self, activity: &Activity, told: &mut Told) -> Result<(), AllocError> {
        let answer = self.log.observe(activity);
        told.says(answer_text(self.alloc, answer)?.as_str())?;
        self.tell(told)
    }
}

impl Part for Desk {
    fn take(&mut self, words: &[&str], told: &mut Told) -> Result<(), AllocError> {
        let (kind, proposal) = match words {
            [kind, words @ ..] => (*kind, proposal_of(words)),
            [] => ("", None),
        };
        let activity = match proposal {
            Some(proposal) => activity_of(self.alloc, kind, proposal)?,
            None => None,
        };
        match activity {
            Some(activity) => self.observe(&activity, told),
            None => told.says("not a command"),
        }
    }
}
