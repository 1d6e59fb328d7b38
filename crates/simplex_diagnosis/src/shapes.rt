//! What an input has at its top.
use crate::spans::{Span, items};
use crate::tables::Wanted;
use std::alloc::{AllocError, Global};
use std::str;

/// How high a log is at most where an epoch ends.
const MOST_HEIGHT: u64 = 1_048_576;

/// What an input is of.
#[derive(Clone, Copy, Debug, PartialEq, Eq)]
pub enum Shape {
    /// A run: a setup and events.
    Run,
    /// A run with a ledger: accounts and blocks too.
    Ledger,
    /// Epochs, one after another, each of them a run.
    Epochs,
    /// The record of a run: entries too.
    Record,
}

const SETUP: Wanted = Wanted {
    name: "setup",
    sample: "",
    words: "the setup, an object",
};

const EVENTS: Wanted = Wanted {
    name: "events",
    sample: "",
    words: "a list of events",
};

const RUN: [Wanted; 2] = [SETUP, EVENTS];

const LEDGER: [Wanted; 4] = [
    SETUP,
    EVENTS,
    Wanted {
        name: "accounts",
        sample: "",
        words: "a list of whole numbers from 0, below 2^64",
    },
    Wanted {
        name: "blocks",
        sample: "",
        words: "a list of texts, two lower-case hex digits a byte",
    },
];

const EPOCHS: [Wanted; 2] = [
    Wanted {
        name: "height",
        sample: "",
        words: "a whole number from 1 to 2^20",
    },
    Wanted {
        name: "epochs",
        sample: "",
        words: "a list of at least one {\"setup\": SETUP, \"events\": [EVENT, ..]}",
    },
];

const RECORD: [Wanted; 3] = [
    SETUP,
    EVENTS,
    Wanted {
        name: "entries",
        sample: "",
        words: "a list of entries, one for each event",
    },
];

impl Shape {
    /// What is wanted at the top.
    pub(crate) fn table(self) -> &'static [Wanted] {
        match self {
            Shape::Run => &RUN,
            Shape::Ledger => &LEDGER,
            Shape::Epochs => &EPOCHS,
            Shape::Record => &RECORD,
        }
    }
}

// The number that the bytes are, in digits.
fn number_in(bytes: &[u8]) -> Option<u64> {
    match str::from_utf8(bytes) {
        Ok(text) => text.parse::<u64>().ok(),
        Err(_) => None,
    }
}

// Whether the bytes are a text of two digits a byte.
fn is_hex(bytes: &[u8]) -> bool {
    let is_digit = |byte: &u8| byte.is_ascii_digit() || (b'a'..=b'f').contains(byte);
    match bytes {
        [b'"', digits @ .., b'"'] => digits.len() % 2 == 0 && digits.iter().all(is_digit),
        _ => false,
    }
}

/// Whether the part of this name, which is not the setup, is as it is wanted.
pub(crate) fn is_fit(
    alloc: Global,
    bytes: &[u8],
    name: &str,
    part: Span,
) -> Result<bool, AllocError> {
    let found = part.of(bytes);
    if name == "height" {
        return Ok(number_in(found).is_some_and(|height| 1 <= height && height <= MOST_HEIGHT));
    }
    if found.first() != Some(&b'[') {
        return Ok(false);
    }
    let all = items(alloc, bytes, part)?;
    Ok(match name {
        "accounts" => all.iter().all(|item| number_in(item.of(bytes)).is_some()),
        "blocks" => all.iter().all(|item| is_hex(item.of(bytes))),
        "epochs" => !all.is_empty(),
        _ => true,
    })
}
