//! Scripts about bytes: what they mean, which fault they have, and where.
mod telling;

use crate::wire::telling::{tell_certificate, tell_message, tell_record, tell_vote};
use simplex_types::{Artifact, Certificate, Keep, ResolverMessage, Vote};
use simplex_wire::DecodeError;
use std::alloc::{AllocError, Global};
use test_support::{Part, Script, Told, bytes_in, play};

/// Reads bytes.
#[derive(Drop)]
struct Desk {
    alloc: Global,
}

/// Plays a script whose first line is `bytes`.
pub(crate) fn run(script: &Script, told: &mut Told) -> Result<(), AllocError> {
    let mut desk = Desk {
        alloc: told.alloc(),
    };
    play(&mut desk, script, told)
}

/// Why the bytes are none.
fn fault_text(alloc: Global, fault: DecodeError) -> Result<String, AllocError> {
    match fault {
        DecodeError::Memory => Err(AllocError),
        fault => format!(in alloc; "{fault}"),
    }
}

/// A value in words, and whether it is written as the same bytes, and its copy is the same.
fn with_checks<T: Keep + PartialEq + Drop>(
    alloc: Global,
    value: &T,
    written: &[u8],
    bytes: &[u8],
    text: String,
) -> Result<String, AllocError> {
    let mut text = text;
    text.push_str(if written == bytes {
        "; so written"
    } else {
        "; written as other bytes"
    })?;
    text.push_str(if value.keep(alloc)? == *value {
        ", so copied"
    } else {
        ", copied as another"
    })?;
    Ok(text)
}

fn vote(alloc: Global, bytes: &[u8]) -> Result<String, AllocError> {
    match Vote::decode(bytes) {
        Ok(vote) => {
            let written = vote.encode(alloc)?;
            let text = tell_vote(alloc, &vote)?;
            with_checks(alloc, &vote, &written, bytes, text)
        }
        Err(fault) => fault_text(alloc, fault),
    }
}

fn certificate(alloc: Global, bytes: &[u8]) -> Result<String, AllocError> {
    match Certificate::decode(alloc, bytes) {
        Ok(certificate) => {
            let written = certificate.encode(alloc)?;
            let text = tell_certificate(alloc, &certificate)?;
            with_checks(alloc, &certificate, &written, bytes, text)
        }
        Err(fault) => fault_text(alloc, fault),
    }
}

fn record(alloc: Global, bytes: &[u8]) -> Result<String, AllocError> {
    match Artifact::decode(alloc, bytes) {
        Ok(record) => {
            let written = record.encode(alloc)?;
            let text = tell_record(alloc, &record)?;
            with_checks(alloc, &record, &written, bytes, text)
        }
        Err(fault) => fault_text(alloc, fault),
    }
}

fn message(alloc: Global, bytes: &[u8]) -> Result<String, AllocError> {
    match ResolverMessage::decode(alloc, bytes) {
        Ok(message) => {
            let written = message.encode(alloc)?;
            let text = tell_message(alloc, &message)?;
            with_checks(alloc, &message, &written, bytes, text)
        }
        Err(fault) => fault_text(alloc, fault),
    }
}

/// What the bytes mean as a value of this kind, if there is such a kind.
fn meaning(alloc: Global, kind: &str, bytes: &[u8]) -> Result<Option<String>, AllocError> {
    let text = match kind {
        "vote" => vote(alloc, bytes)?,
        "certificate" => certificate(alloc, bytes)?,
        "record" => record(alloc, bytes)?,
        "message" => message(alloc, bytes)?,
        _ => return Ok(None),
    };
    Ok(Some(text))
}

impl Desk {
    fn tell_meaning(&self, kind: &str, bytes: &[u8], told: &mut Told) -> Result<(), AllocError> {
        match meaning(self.alloc, kind, bytes)? {
            Some(text) => told.says(text.as_str()),
            None => told.says("not a command"),
        }
    }

    /// Tells of each length below the whole what the bytes up to there mean.
    fn tell_cuts(&self, kind: &str, bytes: &[u8], told: &mut Told) -> Result<(), AllocError> {
        for length in 0..bytes.len() {
            let front = bytes.get(..length).unwrap_or(bytes);
            if let Some(text) = meaning(self.alloc, kind, front)? {
                told.says(format!(in self.alloc; "to {length}: {}", text.as_str())?.as_str())?;
            }
        }
        Ok(())
    }
}

impl Part for Desk {
    fn take(&mut self, words: &[&str], told: &mut Told) -> Result<(), AllocError> {
        let (is_cut, kind, words) = match words {
            ["cut", kind, words @ ..] => (true, *kind, words),
            [kind, words @ ..] => (false, *kind, words),
            [] => return told.says("not a command"),
        };
        match bytes_in(self.alloc, words)? {
            None => told.says("not a command"),
            Some(bytes) if is_cut => self.tell_cuts(kind, &bytes, told),
            Some(bytes) => self.tell_meaning(kind, &bytes, told),
        }
    }
}
